// Saving: a row is written as a stored table, in lowest terms. `save` has no `requires`; a refusal writes nothing, and what
// follows the last byte written keeps its value.
#![tactic(auto)]

ghost use Rattle.std.specs.Prelude.{◌+◌, ◌*◌, ◌≤◌, ◌≡◌, length};
ghost use mathlib.Core.List.{map, flat_map};
ghost use Rattle.fraction.specs.Answer.{lowest};
ghost use Rattle.table.specs.Row.{record_length, entries, lowest_entry};
ghost use Rattle.stored.specs.Layout.{head_length, time_bytes, record_of, head_of, longest};
ghost use Rattle.stored.specs.Answer.{saved, saved_in};

use fraction::Fraction;
use refusal::Refusal;
use stored::{HEAD_LENGTH, LONGEST, MARK, VERSION};
use table::{Entry, Table};

// Writes a time in lowest terms to its eight bytes.
fn put_time(out: &mut [u8], time: Fraction)
    requires { length out.old ≡ 8 }
    ensures { out.new ≡ time_bytes (lowest time) }
{
    let reduced = time.lowest();
    out[..4].copy_from_slice(&reduced.numerator.to_be_bytes());
    out[4..].copy_from_slice(&reduced.denominator.to_be_bytes());
}

// Writes a train to its record, in lowest terms.
fn put_record(out: &mut [u8], entry: Entry)
    requires { length out.old ≡ record_length }
    ensures { out.new ≡ record_of (lowest_entry entry) }
{
    put_time(&mut out[..8], entry.phase);
    put_time(&mut out[8..16], entry.period);
    put_time(&mut out[16..], entry.duration);
}

// Writes mark, version and count to the bytes of the head.
fn put_head(out: &mut [u8], count: u16)
    requires { length out.old ≡ head_length }
    ensures { out.new ≡ head_of count }
{
    out[..MARK.len()].copy_from_slice(&MARK);
    out[MARK.len()..HEAD_LENGTH - 2].copy_from_slice(&VERSION.to_be_bytes());
    out[HEAD_LENGTH - 2..].copy_from_slice(&count.to_be_bytes());
}

// Writes the trains of a row to their records, which stand one behind another.
fn put_records(row: &[u32], out: &mut [u8])
    requires { length out.old ≡ length (entries row.now) * record_length }
    ensures { out.new ≡ flat_map record_of (map lowest_entry (entries row.now)) }
{
    // The bytes by places: of those that `chunks_exact_mut` lends, no proof knows what they are afterwards.
    for (position, numbers) in table::records(row).iter().enumerate() {
        let at = position * Table::RECORD_LENGTH;
        let record = &mut out[at..at + Table::RECORD_LENGTH];
        put_record(record, Entry::from(*numbers));
    }
}

// Writes a row as a stored table to the front of `out`, in lowest terms, colliding or not, and answers how many bytes it
// has; what follows them is kept. Refusals: 1; then train by train 2, 3 and 4; then 8.
// An export has the same order of check, room and writing, and nothing else in common with it.
#[tactic(auto, using(table::proofs::Entries::entries_length), unfolding(stored::specs::Answer::save_check, stored::specs::Answer::saved_in))]
pub fn save(row: &[u32], out: &mut [u8]) -> Result<usize, Refusal>
    ensures answer { result ≡ saved row.now (length out.old) }
    ensures bytes { out.new ≡ saved_in result row.now out.old }
    ensures constants { LONGEST ≡ longest }
{
    table::check(row)?;
    let count = table::records(row).len();
    let end = HEAD_LENGTH + count * Table::RECORD_LENGTH;
    if out.len() < end {
        return Err(Refusal::BufferTooShort);
    }
    // A cast, for there is nothing to refuse: a row that passes has at most 64 trains.
    put_head(&mut out[..HEAD_LENGTH], count as u16);
    put_records(row, &mut out[HEAD_LENGTH..end]);
    Ok(end)
}
