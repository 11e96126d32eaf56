// Listings and stored tables: a listing is stored, a stored table is listed, and no fraction changes on the way. Both are written
// over the contracts of the four calls alone, no public call has a `requires`, and a refusal writes nothing.
#![tactic(auto)]

ghost use Rattle.std.specs.Prelude.{◌≡◌, length};
ghost use Rattle.convert.specs.Answer.{store_answer, store_leaves, list_answer, list_leaves};

use refusal::Refusal;
use table::Table;

// Imports a listing, saves its trains to the front of `bytes`, and answers how many bytes stand there; what follows them is kept. The
// row is an array, since no heap is used, and as long as the longest table, so it is never too short. Refusals: 7; 18; 1; then train by
// train 3 and 4; then 8 for `bytes`.
// Each of the two names its two calls, as its contract does: one function over both calls as closures would be longer than these.
#[tactic(auto, using(crate::proofs::Storing::store_within), unfolding(crate::specs::Answer::store_leaves))]
pub fn store(text: &[u8], bytes: &mut [u8]) -> Result<usize, Refusal>
    ensures answer { result ≡ store_answer text.now (length bytes.old) }
    ensures memory { bytes.new ≡ store_leaves result text.now bytes.old }
{
    let mut row = [0u32; Table::LONGEST_ROW];
    let count = importer::import(text, &mut row)?;
    save::save(&row[..count * Table::NUMBERS], bytes)
}

// Loads a stored table, exports its trains to the front of `text`, and answers how many bytes stand there; what follows them is kept. The
// row is an array, since no heap is used, and as long as the longest table, so it is never too short. Refusals: those of loading; then
// 8 for `text`.
#[tactic(auto, using(crate::proofs::Listings::list_within), unfolding(crate::specs::Answer::list_leaves))]
pub fn list(bytes: &[u8], text: &mut [u8]) -> Result<usize, Refusal>
    ensures answer { result ≡ list_answer bytes.now (length text.old) }
    ensures memory { text.new ≡ list_leaves result bytes.now text.old }
{
    let mut row = [0u32; Table::LONGEST_ROW];
    let count = load::load(bytes, &mut row)?;
    exporter::export(&row[..count * Table::NUMBERS], text)
}
