// Listings from a spreadsheet: how long their texts are. What they mean, what import and export answer, and what is proved of them
// stands in specs/; the calls are the crates `importer` and `exporter`.
#![tactic(auto)]

ghost use Rattle.std.specs.Prelude.{◌≡◌};
ghost use Rattle.listing.specs.Layout.{longest_text, longest_export};

// The bytes of the longest text that is read.
pub const LONGEST_TEXT: usize = 32_768;

// The bytes of the longest text that is written: a buffer of this length is never too short.
pub const LONGEST_EXPORT: usize = 4_311;

// The constants are those of specs/Layout.antt. Nothing calls this: what is so of a constant is said by a function's contract.
fn constants()
    ensures text { LONGEST_TEXT ≡ longest_text }
    ensures export { LONGEST_EXPORT ≡ longest_export }
{}
