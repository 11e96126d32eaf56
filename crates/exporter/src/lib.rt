// Exporting: a row is written as a listing, in lowest terms. `export` has no `requires`; a refusal writes nothing, and what
// follows the last byte written keeps its value.
#![tactic(auto)]

ghost use Rattle.std.specs.Prelude.{◌+◌, ◌≤◌, ◌≡◌, Ok, leb, length};
ghost use mathlib.Core.List.{map};
ghost use Rattle.lent.specs.Lent.{over};
ghost use Rattle.fraction.specs.Answer.{lowest};
ghost use Rattle.table.specs.Row.{longest_row, entries, lowest_entry};
ghost use Rattle.table.specs.Answer.{checked};
ghost use Rattle.listing.specs.Layout.{time_text, record_text, text_of, longest_export};
ghost use Rattle.listing.specs.Answer.{exported, exported_in};
ghost use Rattle.exporter.specs.Inside.{lines_of};

use fraction::Fraction;
use listing::LONGEST_EXPORT;
use refusal::Refusal;
use table::Entry;

// The heading, with its end.
const HEADING: [u8; 23] = *b"phase,period,duration\r\n";

// How many bytes a time has in lowest terms.
fn time_width(time: Fraction) -> usize
    ensures { (result ≡ length (time_text (lowest time))) × (result ≤ 41) }
{
    let terms = time.lowest();
    let above = decimal::width(u64::from(terms.numerator));
    if terms.denominator == 1 {
        return above;
    }
    above + 1 + decimal::width(u64::from(terms.denominator))
}

// How many bytes the record of a train has in lowest terms, with its end.
fn record_width(entry: Entry) -> usize
    ensures { (result ≡ length (record_text (lowest_entry entry))) × (result ≤ 127) }
{
    time_width(entry.phase) + 1 + time_width(entry.period) + 1 + time_width(entry.duration) + 2
}

// How many bytes the records of all trains of a row have in lowest terms.
fn records_width(row: &[u32]) -> usize
    requires { length row.now ≤ longest_row }
    ensures { (result ≡ length (lines_of row.now)) × (result ≤ 8_128) }
{
    // tried: `.map(..).sum()`; that the sum fits is asked of every run of the iterator, which does not close.
    let mut width = 0;
    for numbers in table::records(row) {
        width += record_width(Entry::from(*numbers));
    }
    width
}

// Whether the text of a row has room in so many bytes. Only where the longest text has none is it measured, since lowest
// terms take longer than all else.
fn has_room(row: &[u32], room: usize) -> bool
    requires { checked row.now ≡ Ok tt }
    ensures { result ≡ leb (length (text_of (map lowest_entry (entries row.now)))) room }
{
    LONGEST_EXPORT <= room || HEADING.len() + records_width(row) <= room
}

// Writes a time in lowest terms to the front, n alone where it is n/1, and answers where it ends.
fn put_time(time: Fraction, text: &mut [u8]) -> usize
    requires { length (time_text (lowest time)) ≤ length text.old }
    ensures end { result ≡ length (time_text (lowest time)) }
    ensures bytes { text.new ≡ over text.old 0 (time_text (lowest time)) }
{
    let reduced = time.lowest();
    let end = decimal::put(u64::from(reduced.numerator), text, 0);
    if reduced.denominator == 1 {
        return end;
    }
    text[end] = b'/';
    decimal::put(u64::from(reduced.denominator), text, end + 1)
}

// Writes the record of a train in lowest terms to the front, with its end, and answers where that is.
fn put_record(entry: Entry, text: &mut [u8]) -> usize
    requires { length (record_text (lowest_entry entry)) ≤ length text.old }
    ensures end { result ≡ length (record_text (lowest_entry entry)) }
    ensures bytes { text.new ≡ over text.old 0 (record_text (lowest_entry entry)) }
{
    let first = put_time(entry.phase, text);
    text[first] = b',';
    let second = first + 1 + put_time(entry.period, &mut text[first + 1..]);
    text[second] = b',';
    let third = second + 1 + put_time(entry.duration, &mut text[second + 1..]);
    text[third..third + 2].copy_from_slice(b"\r\n");
    third + 2
}

// Writes the records of all trains of a row to the front, and answers where they end. That is no sum of an iterator: where one ends
// the next begins.
fn put_records(row: &[u32], text: &mut [u8]) -> usize
    requires { length (lines_of row.now) ≤ length text.old }
    ensures end { result ≡ length (lines_of row.now) }
    ensures bytes { text.new ≡ over text.old 0 (lines_of row.now) }
{
    let mut end = 0;
    for numbers in table::records(row) {
        end += put_record(Entry::from(*numbers), &mut text[end..]);
    }
    end
}

// Writes a row as a listing to the front of `text`, in lowest terms, colliding or not, and answers how many bytes it has; what
// follows them is kept. Refusals: 1; then train by train 2, 3 and 4; then 8.
#[tactic(auto, unfolding(listing::specs::Answer::exported_in))]
pub fn export(row: &[u32], text: &mut [u8]) -> Result<usize, Refusal>
    ensures answer { result ≡ exported row.now (length text.old) }
    ensures bytes { text.new ≡ exported_in result row.now text.old }
    ensures constants { LONGEST_EXPORT ≡ longest_export }
{
    table::check(row)?;
    if !has_room(row, text.len()) {
        return Err(Refusal::BufferTooShort);
    }
    // There is room, so all of the heading is written, and the records begin where it ends.
    let behind = lent::put(&HEADING, text, 0);
    Ok(behind + put_records(row, &mut text[behind..]))
}
