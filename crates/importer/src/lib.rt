// Import: the text of a spreadsheet, RFC 4180, is read to a row, and no fraction is lost on the way. `import` has no `requires`; a
// refusal writes nothing, and what follows the last number written keeps its value. Each `read_` function reads at the front of a
// text, and answers the text behind what it read, and what that says where it says anything.
#![tactic(auto)]

ghost use Rattle.std.specs.Prelude.{◌≡◌, ℕ, List, Ok, map, length};
ghost use Rattle.lent.specs.Lent.{over};
ghost use Rattle.decimal.specs.Answer.{Found};
ghost use Rattle.table.specs.Row.{row_of, lowest_entry};
ghost use Rattle.listing.specs.Answer.{time_in, phase_in, word_in, field_in, ended, heading_in, entry_in};
ghost use Rattle.listing.specs.Answer.{trains_of, imported, imported_in};
ghost use Rattle.listing.specs.Layout.{longest_text};
ghost use Rattle.importer.specs.Inside.{standing, told, behind, Reads, listed_from, tallied, trains_check, Ready};

use fraction::Fraction;
use listing::LONGEST_TEXT;
use refusal::Refusal;
use table::{Entry, Table};

// What the records behind the heading say where none of them is bad.
// Both at once: a bad record behind is refused before a train in front.
#[derive(Clone, Copy)]
struct Scanned {
    // How many trains there are.
    count: usize,
    // The first refusal among them.
    trains: Result<(), Refusal>,
}

// A blank phase.
const BLANK: Fraction = Fraction {
    numerator: 0,
    denominator: 1,
};

// Reads the end of a record: the end of the text, or CRLF.
fn read_end(text: &[u8]) -> Option<&[u8]>
    ensures { behind result ≡ ended (standing text.now) }
{
    if text.is_empty() {
        return Some(text);
    }
    text.strip_prefix(b"\r\n")
}

// Reads a time: n or n/m. It is inlined, as the readers of phases, fields and records are: what one hands to the next then stays in
// registers. By calls a listing takes up to a third longer.
#[inline(always)]
fn read_time(text: &[u8]) -> Option<(Fraction, &[u8])>
    ensures { told result ≡ time_in text.now }
{
    let above = decimal::read(text, 0)?;
    let rest = &text[above.end..];
    let Some(rest) = rest.strip_prefix(b"/") else {
        return Some((
            Fraction {
                numerator: above.value,
                denominator: 1,
            },
            rest,
        ));
    };
    let below = decimal::read(rest, 0)?;
    if below.value == 0 {
        return None;
    }
    Some((
        Fraction {
            numerator: above.value,
            denominator: below.value,
        },
        &rest[below.end..],
    ))
}

// Reads a phase: a time; where there is none it may still be blank, which is 0. What is no phase at all is left to what follows, so
// that this answers always; it is an Option as `read_field` asks for.
#[inline(always)]
fn read_phase(text: &[u8]) -> Option<(Fraction, &[u8])>
    ensures { told result ≡ phase_in text.now }
{
    read_time(text).or(Some((BLANK, text)))
}

// Reads a word, which has no value. No closure at its one caller, since the clause would stand in the middle of a call there.
fn read_word<'a>(text: &'a [u8], word: &[u8]) -> Option<((), &'a [u8])>
    ensures { told result ≡ word_in word.now text.now }
{
    Some(((), text.strip_prefix(word)?))
}

// Reads a field, in quotes or without.
#[inline(always)]
fn read_field<'a, T: Copy, F: Fn(&'a [u8]) -> Option<(T, &'a [u8])>>(
    text: &'a [u8],
    read: F,
) -> Option<(T, &'a [u8])>
    requires { F.IsAlwaysCallable read }
    ensures { (reads : List ℕ → Found T) → Reads (F.post read) reads → told result ≡ field_in reads text.now }
{
    let Some(quoted) = text.strip_prefix(b"\"") else {
        return read(text);
    };
    let (value, rest) = read(quoted)?;
    Some((value, rest.strip_prefix(b"\"")?))
}

// Reads the record of a train.
#[inline(always)]
fn read_entry(text: &[u8]) -> Option<(Entry, &[u8])>
    ensures { told result ≡ entry_in text.now }
{
    let (phase, text) = read_field(text, read_phase)?;
    let (period, text) = read_field(text.strip_prefix(b",")?, read_time)?;
    let (duration, text) = read_field(text.strip_prefix(b",")?, read_time)?;
    Some((
        Entry {
            phase,
            period,
            duration,
        },
        read_end(text)?,
    ))
}

// Reads a field that is a word.
fn read_label<'a>(text: &'a [u8], word: &[u8]) -> Option<&'a [u8]>
    ensures { behind result ≡ field_in (word_in word.now) text.now }
{
    let ((), rest) = read_field(text, |text| read_word(text, word))?;
    Some(rest)
}

// Reads the heading.
fn read_heading(text: &[u8]) -> Option<&[u8]>
    ensures { behind result ≡ heading_in text.now }
{
    let text = read_label(text, b"phase")?;
    let text = read_label(text.strip_prefix(b",")?, b"period")?;
    let text = read_label(text.strip_prefix(b",")?, b"duration")?;
    read_end(text)
}

// Reads all records behind the heading; the first bad one is refused by its number, the heading being 1.
fn scan(records: &[u8]) -> Result<Scanned, Refusal>
    ensures { result ≡ tallied 0 (Ok tt) (listed_from records.now) }
{
    // By what is left: where a record ends is known only once it is read.
    let mut rest = records;
    let mut count = 0;
    let mut trains = Ok(());
    while !rest.is_empty() {
        let (entry, behind) = read_entry(rest).ok_or(Refusal::BadRecord(count + 2))?;
        trains = trains.and(entry.check(count));
        rest = behind;
        count += 1;
    }
    Ok(Scanned { count, trains })
}

// Refusals of the trains that were read: 1, then their own first one, then 8 for a row of so many numbers.
#[tactic(auto, unfolding(crate::specs::Inside::trains_check))]
fn check_trains(scanned: Scanned, room: usize) -> Result<(), Refusal>
    ensures { result ≡ trains_check scanned room }
{
    if scanned.count > Table::CAPACITY {
        return Err(Refusal::TrainCount);
    }
    scanned.trains?;
    if room < scanned.count * Table::NUMBERS {
        return Err(Refusal::BufferTooShort);
    }
    Ok(())
}

// A train with its times in lowest terms. It stands here, for save and export reduce a time at a time, as they write it.
fn lowest(entry: Entry) -> Entry
    ensures { result ≡ lowest_entry entry }
{
    Entry {
        phase: entry.phase.lowest(),
        period: entry.period.lowest(),
        duration: entry.duration.lowest(),
    }
}

// Writes so many trains, whose records are all good, to the front of a row.
fn put_entries(records: &[u8], count: usize, row: &mut [u32])
    requires { Ready (listed_from records.now) count (length row.old) }
    ensures { row.new ≡ over row.old 0 (row_of (map lowest_entry (trains_of (listed_from records.now)))) }
{
    let mut rest = records;
    // By the count, which `scan` has found: a `while let` over what is left would count the places of the row by hand.
    for position in 0..count {
        let (entry, behind) = read_entry(rest).unwrap();
        lowest(entry).put(row, position * Table::NUMBERS);
        rest = behind;
    }
}

// Reads a listing to the front of `row`, in lowest terms, colliding or not, and answers how many trains it has; what follows them is
// kept. Refusals: 7 by the length alone; then 18 for the first bad record; then 1; then train by train 3 and 4; then 8.
#[tactic(auto, unfolding(listing::specs::Answer::imported_in))]
pub fn import(text: &[u8], row: &mut [u32]) -> Result<usize, Refusal>
    ensures answer { result ≡ imported text.now (length row.old) }
    ensures entries { row.new ≡ imported_in result text.now row.old }
    ensures constants { LONGEST_TEXT ≡ longest_text }
{
    if text.len() > LONGEST_TEXT {
        return Err(Refusal::TextTooLong);
    }
    let records = read_heading(text).ok_or(Refusal::BadRecord(1))?;
    let scanned = scan(records)?;
    check_trains(scanned, row.len())?;
    put_entries(records, scanned.count, row);
    Ok(scanned.count)
}
