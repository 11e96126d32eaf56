// The round trips: a row that is saved and loaded again, and a stored table that is loaded and saved again. They are written
// over the contracts of `save` and `load` alone, no public call has a `requires`, and what follows the last entry keeps its value.
#![tactic(auto)]

ghost use Rattle.std.specs.Prelude.{◌≡◌, length};
ghost use Rattle.round.specs.Answer.{kept, kept_in, again, again_in};

use refusal::Refusal;
use stored::LONGEST;
use table::Table;

// Saves a row, loads what was written into `back`, and answers how many trains stand there: those of the row in lowest
// terms. The buffer is an array, since no heap is used, and as long as the longest stored table, so it is never too short.
// Refusals: 1; then train by train 2, 3 and 4; then 8 for `back`.
// Each of the two names its two calls, as its contract does: one function over both calls as closures would be longer than these.
#[tactic(auto, unfolding(crate::specs::Answer::kept_in))]
pub fn save_and_load(row: &[u32], back: &mut [u32]) -> Result<usize, Refusal>
    ensures answer { result ≡ kept row.now (length back.old) }
    ensures memory { back.new ≡ kept_in result row.now back.old }
{
    let mut out = [0u8; LONGEST];
    let end = save::save(row, &mut out)?;
    load::load(&out[..end], back)
}

// Loads a stored table, saves what was loaded to `out`, and answers how many bytes stand there: those of the file. The row
// is as long as the longest table, so it is never too short. Refusals: those of loading; then 8 for `out`.
#[tactic(auto, unfolding(crate::specs::Answer::again_in))]
pub fn load_and_save(bytes: &[u8], out: &mut [u8]) -> Result<usize, Refusal>
    ensures answer { result ≡ again bytes.now (length out.old) }
    ensures memory { out.new ≡ again_in result bytes.now out.old }
{
    let mut row = [0u32; Table::LONGEST_ROW];
    let count = load::load(bytes, &mut row)?;
    save::save(&row[..count * Table::NUMBERS], out)
}
