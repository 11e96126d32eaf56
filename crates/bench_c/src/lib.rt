// What C links: each call of `bench` as a C function of the same name, with the same clauses; include/urzabelki.h is their header.
// Each call stands twice because a crate is a library or what C links, and not both: the proofs about the calls stand on the library.
// Nothing is decided here. No exported function has a `requires`.
#![tactic(auto)]

ghost use Rattle.std.specs.Prelude.{◌≡◌, length};
ghost use Rattle.judge.specs.Answer.{verdict};
ghost use Rattle.file.specs.Answer.{file_verdict};
ghost use Rattle.listing.specs.Answer.{imported, imported_in, exported, exported_in};
ghost use Rattle.line.specs.Answer.{written, written_in};
ghost use Rattle.stored.specs.Answer.{saved, saved_in, loaded, loaded_in};
ghost use Rattle.words.specs.Answer.{admission_in, withdrawal_in, stepping_in, fresh_in, admitted_in, withdrew_in, stepped_in};
ghost use Rattle.bench.specs.Answer.{verdict_code, value_code, withdrawal_code, tick_code, figure_count, figures_in, longest_line};

use bench::{FIGURES, LONGEST_LINE};

// The verdict on a row.
#[unsafe(no_mangle)]
pub extern "C" fn urzabelki_judge(row: &[u32], figures: &mut [u64; FIGURES]) -> u64
    ensures answer { result ≡ verdict_code (verdict row.now) }
    ensures memory { figures.new ≡ figures_in (verdict row.now) figures.old }
    ensures constants { FIGURES ≡ figure_count }
{
    bench::urzabelki_judge(row, figures)
}

// The verdict on a stored table.
#[unsafe(no_mangle)]
pub extern "C" fn urzabelki_judge_stored(bytes: &[u8], figures: &mut [u64; FIGURES]) -> u64
    ensures answer { result ≡ verdict_code (file_verdict bytes.now) }
    ensures memory { figures.new ≡ figures_in (file_verdict bytes.now) figures.old }
{
    bench::urzabelki_judge_stored(bytes, figures)
}

// The printed line of the verdict on a row.
#[unsafe(no_mangle)]
pub extern "C" fn urzabelki_line(row: &[u32], text: &mut [u8]) -> u64
    ensures answer { result ≡ value_code (written (verdict row.now) (length text.old)) }
    ensures memory { text.new ≡ written_in (written (verdict row.now) (length text.old)) (verdict row.now) text.old }
    ensures constants { LONGEST_LINE ≡ longest_line }
{
    bench::urzabelki_line(row, text)
}

// The printed line of the verdict on a stored table.
#[unsafe(no_mangle)]
pub extern "C" fn urzabelki_line_stored(bytes: &[u8], text: &mut [u8]) -> u64
    ensures answer { result ≡ value_code (written (file_verdict bytes.now) (length text.old)) }
    ensures memory { text.new ≡ written_in (written (file_verdict bytes.now) (length text.old)) (file_verdict bytes.now) text.old }
{
    bench::urzabelki_line_stored(bytes, text)
}

// Saves a row as a stored table.
#[unsafe(no_mangle)]
pub extern "C" fn urzabelki_save(row: &[u32], bytes: &mut [u8]) -> u64
    ensures answer { result ≡ value_code (saved row.now (length bytes.old)) }
    ensures memory { bytes.new ≡ saved_in (saved row.now (length bytes.old)) row.now bytes.old }
{
    bench::urzabelki_save(row, bytes)
}

// Loads a stored table to a row.
#[unsafe(no_mangle)]
pub extern "C" fn urzabelki_load(bytes: &[u8], row: &mut [u32]) -> u64
    ensures answer { result ≡ value_code (loaded bytes.now (length row.old)) }
    ensures memory { row.new ≡ loaded_in (loaded bytes.now (length row.old)) bytes.now row.old }
{
    bench::urzabelki_load(bytes, row)
}

// The import of a listing: the count of its trains, in lowest terms.
#[unsafe(no_mangle)]
pub extern "C" fn urzabelki_import(text: &[u8], row: &mut [u32]) -> u64
    ensures answer { result ≡ value_code (imported text.now (length row.old)) }
    ensures memory { row.new ≡ imported_in (imported text.now (length row.old)) text.now row.old }
{
    bench::urzabelki_import(text, row)
}

// The export of a row: the length of its listing.
#[unsafe(no_mangle)]
pub extern "C" fn urzabelki_export(row: &[u32], text: &mut [u8]) -> u64
    ensures answer { result ≡ value_code (exported row.now (length text.old)) }
    ensures memory { text.new ≡ exported_in (exported row.now (length text.old)) row.now text.old }
{
    bench::urzabelki_export(row, text)
}

// A dispatcher without a train.
#[unsafe(no_mangle)]
pub extern "C" fn urzabelki_fresh(words: &mut [u32; words::LENGTH], count: u32)
    ensures { words.new ≡ fresh_in count }
{
    bench::urzabelki_fresh(words, count)
}

// Admits a train.
#[unsafe(no_mangle)]
pub extern "C" fn urzabelki_admit(
    words: &mut [u32; words::LENGTH],
    delay: u32,
    period: u32,
    duration: u32,
) -> u64
    ensures answer { result ≡ value_code (admission_in words.old delay period duration).answer }
    ensures memory { words.new ≡ admitted_in (admission_in words.old delay period duration) words.old }
{
    bench::urzabelki_admit(words, delay, period, duration)
}

// Empties a place.
#[unsafe(no_mangle)]
pub extern "C" fn urzabelki_withdraw(words: &mut [u32; words::LENGTH], place: u32) -> u64
    ensures answer { result ≡ withdrawal_code (withdrawal_in words.old place).answer }
    ensures memory { words.new ≡ withdrew_in place (withdrawal_in words.old place) words.old }
{
    bench::urzabelki_withdraw(words, place)
}

// One tick.
#[unsafe(no_mangle)]
pub extern "C" fn urzabelki_step(words: &mut [u32; words::LENGTH], count: u32) -> u64
    ensures answer { result ≡ tick_code (stepping_in words.old count).answer }
    ensures memory { words.new ≡ stepped_in (stepping_in words.old count) words.old }
{
    bench::urzabelki_step(words, count)
}
