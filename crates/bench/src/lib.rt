// What other languages get: the calls of the other crates over numbers and slices. Each is proved equal to the call that it wraps;
// `bench_c` hands them to C, and include/urzabelki.h is their header. No public function has a `requires`. `as` stands where there is
// no `From`: from a usize to 64 bits, from 32 bits to a usize, and from a kind or a figure to its number. The calls of a stored table
// differ from those of a row in what is judged alone: C has a name for each.
#![tactic(auto)]

ghost use Rattle.std.specs.Prelude.{◌^◌, ◌<◌, ◌≡◌, [], ◌∷◌, length};
ghost use Rattle.std.proofs.lemmas.List.Edits.{sets};
ghost use Rattle.judge.specs.Answer.{verdict};
ghost use Rattle.file.specs.Answer.{file_verdict};
ghost use Rattle.listing.specs.Answer.{imported, imported_in, exported, exported_in};
ghost use Rattle.line.specs.Answer.{written, written_in};
ghost use Rattle.stored.specs.Answer.{saved, saved_in, loaded, loaded_in};
ghost use Rattle.words.specs.Answer.{admission_in, withdrawal_in, stepping_in, fresh_in, admitted_in, withdrew_in, stepped_in};
ghost use Rattle.bench.specs.Answer.{kind_number, code, Fits, plain, refused_parts, value_parts, value_code, verdict_parts, verdict_code, withdrawal_parts, withdrawal_code, tick_parts, tick_code, figure_count, figures_in, longest_line};

use dispatcher::Tick;
use judge::{Meeting, Verdict};
use refusal::Refusal;
use std::marker::Model;

// Where each figure of a verdict stands. The header has the same numbers.
#[derive(Clone, Copy)]
enum Figure {
    // L.
    Multiple,
    // The division count.
    Divisions,
    // The first train of the pair that collides.
    First,
    // The second.
    Second,
    // The earliest tick that both claim.
    Tick,
}

// How many figures there are.
pub const FIGURES: usize = Figure::Tick as usize + 1;

// The bytes of the longest line that a call writes.
pub const LONGEST_LINE: usize = 43;

// The kinds of all answers. The header has the same numbers.
#[derive(Clone, Copy)]
enum Kind {
    // Every refusal. No other answer has it, so what is not looked at closely is not taken for a good answer.
    Refused = 0,
    // A call that was done, where there is no other.
    Done = 1,
    // A verdict that accepts.
    Accepted = 2,
    // A verdict with a collision.
    Collide = 3,
    // A step on which nothing runs.
    Idle = 4,
    // A step on which a train starts.
    Starts = 5,
    // A step on which a run goes on.
    GoesOn = 6,
}

// The number of a refusal, where there is none. The header has it too.
const NOT_REFUSED: u32 = 0;

// What one kind counts in the number that is handed back.
const KIND_UNIT: u64 = 1 << 32;

// What one number of a refusal counts in it.
const NUMBER_UNIT: u64 = KIND_UNIT << 8;

// What the number that is handed back holds: a refusal's number, a kind, and a place, a length or a count.
#[derive(Clone, Copy)]
struct Answer {
    number: u32,
    kind: Kind,
    value: usize,
}

impl Model for Answer {
    ghost use Rattle.bench.specs.Answer.{Parts, kind_number, kind_of, kind_back};

    ghost Value = { Parts };

    ghost view = { λ a. record { number = a.number; kind = kind_number a.kind; value = a.value } };

    ghost inverse = { λ p. record { number = p.number; kind = kind_of p.kind; value = p.value } };

    ghost inverse_ok = { λ a h i. record { number = a.number; kind = kind_back a.kind i; value = a.value } };
}

impl Answer {
    // The answer of a call that was not refused.
    fn plain(kind: Kind, value: usize) -> Answer
        ensures { result ≡ plain (kind_number kind) value }
    {
        Answer {
            number: NOT_REFUSED,
            kind,
            value,
        }
    }

    // The number that holds the three.
    fn code(self) -> u64
        requires { Fits self }
        ensures { result ≡ code self }
    {
        u64::from(self.number) * NUMBER_UNIT + self.kind as u64 * KIND_UNIT + self.value as u64
    }
}

impl From<Refusal> for Answer {
    ghost from_gives = { λ r a. a ≡ refused_parts r };

    fn from(refusal: Refusal) -> Answer {
        Answer {
            number: refusal.number(),
            kind: Kind::Refused,
            value: refusal.place(),
        }
    }
}

// The length of a line, of a stored table or of a listing, the count of the trains that were loaded or imported, or the place of
// a train that was admitted. This and the two below are no one `impl` over any value: of that it would be known by cases alone what it
// gives, and not by the equation that each call promises.
impl From<Result<usize, Refusal>> for Answer {
    ghost from_gives = { λ value a. a ≡ value_parts value };

    fn from(value: Result<usize, Refusal>) -> Answer {
        value.map_or_else(Answer::from, |value| Answer::plain(Kind::Done, value))
    }
}

// A withdrawal.
impl From<Result<(), Refusal>> for Answer {
    ghost from_gives = { λ withdrawn a. a ≡ withdrawal_parts withdrawn };

    fn from(withdrawn: Result<(), Refusal>) -> Answer {
        withdrawn.map_or_else(Answer::from, |()| Answer::plain(Kind::Done, 0))
    }
}

// A step.
impl From<Result<Tick, Refusal>> for Answer {
    ghost from_gives = { λ step a. a ≡ tick_parts step };

    fn from(step: Result<Tick, Refusal>) -> Answer {
        match step {
            Ok(Tick::Idle) => Answer::plain(Kind::Idle, 0),
            Ok(Tick::Starts(place)) => Answer::plain(Kind::Starts, place),
            Ok(Tick::GoesOn(place)) => Answer::plain(Kind::GoesOn, place),
            Err(refusal) => Answer::from(refusal),
        }
    }
}

// Writes L and the division count. They come as two numbers: as one record the compiler would read them before it knows the kind of
// the verdict, and a refusal would wait for that. By index: no proof covers a store through a pattern `[multiple, divisions, ..]`.
fn put_figures(figures: &mut [u64; FIGURES], multiple: u32, divisions: u32)
    ensures { figures.new ≡ sets figures.old 0 (multiple ∷ divisions ∷ []) }
{
    figures[Figure::Multiple as usize] = u64::from(multiple);
    figures[Figure::Divisions as usize] = u64::from(divisions);
}

// Writes the trains of a collision and its tick.
fn put_meeting(figures: &mut [u64; FIGURES], meeting: Meeting)
    ensures { figures.new ≡ sets figures.old 2 (meeting.first ∷ meeting.second ∷ meeting.tick ∷ []) }
{
    figures[Figure::First as usize] = meeting.first as u64;
    figures[Figure::Second as usize] = meeting.second as u64;
    figures[Figure::Tick as usize] = meeting.tick;
}

// Writes the figures of a verdict, and hands back its answer. It is no `From`, for it writes too.
fn hand_verdict(verdict: Verdict, figures: &mut [u64; FIGURES]) -> Answer
    ensures answer { result ≡ verdict_parts verdict }
    ensures memory { figures.new ≡ figures_in verdict figures.old }
{
    match verdict {
        Verdict::Accepted(shown) => {
            put_figures(figures, shown.multiple, shown.divisions);
            Answer::plain(Kind::Accepted, 0)
        }
        Verdict::Collide(meeting, shown) => {
            put_figures(figures, shown.multiple, shown.divisions);
            put_meeting(figures, meeting);
            Answer::plain(Kind::Collide, 0)
        }
        Verdict::Refused(refusal) => Answer::from(refusal),
    }
}

// A word as a place. It has 32 bits.
fn wide(word: u32) -> usize
    ensures { (result ≡ word) × (result < 2 ^ 32) }
{
    word as usize
}

// The verdict on a row.
#[tactic(auto, using(crate::proofs::Fitting::judge_fits))]
pub fn urzabelki_judge(row: &[u32], figures: &mut [u64; FIGURES]) -> u64
    ensures answer { result ≡ verdict_code (verdict row.now) }
    ensures memory { figures.new ≡ figures_in (verdict row.now) figures.old }
    ensures constants { FIGURES ≡ figure_count }
{
    hand_verdict(judge::judge(row), figures).code()
}

// The verdict on a stored table.
#[tactic(auto, using(crate::proofs::Fitting::judge_stored_fits))]
pub fn urzabelki_judge_stored(bytes: &[u8], figures: &mut [u64; FIGURES]) -> u64
    ensures answer { result ≡ verdict_code (file_verdict bytes.now) }
    ensures memory { figures.new ≡ figures_in (file_verdict bytes.now) figures.old }
{
    hand_verdict(file::judge(bytes), figures).code()
}

// The printed line of the verdict on a row.
#[tactic(auto, using(crate::proofs::Fitting::line_fits))]
pub fn urzabelki_line(row: &[u32], text: &mut [u8]) -> u64
    ensures answer { result ≡ value_code (written (verdict row.now) (length text.old)) }
    ensures memory { text.new ≡ written_in (written (verdict row.now) (length text.old)) (verdict row.now) text.old }
    ensures constants { LONGEST_LINE ≡ longest_line }
{
    Answer::from(line::write(judge::judge(row), text)).code()
}

// The printed line of the verdict on a stored table.
#[tactic(auto, using(crate::proofs::Fitting::line_stored_fits))]
pub fn urzabelki_line_stored(bytes: &[u8], text: &mut [u8]) -> u64
    ensures answer { result ≡ value_code (written (file_verdict bytes.now) (length text.old)) }
    ensures memory { text.new ≡ written_in (written (file_verdict bytes.now) (length text.old)) (file_verdict bytes.now) text.old }
{
    Answer::from(line::write(file::judge(bytes), text)).code()
}

// Saves a row as a stored table.
#[tactic(auto, using(crate::proofs::Fitting::save_fits))]
pub fn urzabelki_save(row: &[u32], bytes: &mut [u8]) -> u64
    ensures answer { result ≡ value_code (saved row.now (length bytes.old)) }
    ensures memory { bytes.new ≡ saved_in (saved row.now (length bytes.old)) row.now bytes.old }
{
    Answer::from(save::save(row, bytes)).code()
}

// Loads a stored table to a row.
#[tactic(auto, using(crate::proofs::Fitting::load_fits))]
pub fn urzabelki_load(bytes: &[u8], row: &mut [u32]) -> u64
    ensures answer { result ≡ value_code (loaded bytes.now (length row.old)) }
    ensures memory { row.new ≡ loaded_in (loaded bytes.now (length row.old)) bytes.now row.old }
{
    Answer::from(load::load(bytes, row)).code()
}

// The import of a listing: the count of its trains, in lowest terms.
#[tactic(auto, using(crate::proofs::Listings::import_fits))]
pub fn urzabelki_import(text: &[u8], row: &mut [u32]) -> u64
    ensures answer { result ≡ value_code (imported text.now (length row.old)) }
    ensures memory { row.new ≡ imported_in (imported text.now (length row.old)) text.now row.old }
{
    Answer::from(importer::import(text, row)).code()
}

// The export of a row: the length of its listing.
pub fn urzabelki_export(row: &[u32], text: &mut [u8]) -> u64
    ensures answer { result ≡ value_code (exported row.now (length text.old)) }
    ensures memory { text.new ≡ exported_in (exported row.now (length text.old)) row.now text.old }
{
    Answer::from(exporter::export(row, text)).code()
}

// A dispatcher without a train.
pub fn urzabelki_fresh(words: &mut [u32; words::LENGTH], count: u32)
    ensures { words.new ≡ fresh_in count }
{
    words::fresh(words, count)
}

// Admits a train. The three numbers stand apart, as C has them.
#[tactic(auto, using(crate::proofs::Dispatching::admit_fits))]
pub fn urzabelki_admit(
    words: &mut [u32; words::LENGTH],
    delay: u32,
    period: u32,
    duration: u32,
) -> u64
    ensures answer { result ≡ value_code (admission_in words.old delay period duration).answer }
    ensures memory { words.new ≡ admitted_in (admission_in words.old delay period duration) words.old }
{
    Answer::from(words::admit(words, delay, period, duration)).code()
}

// Empties a place.
#[tactic(auto, using(crate::proofs::Dispatching::withdraw_fits))]
pub fn urzabelki_withdraw(words: &mut [u32; words::LENGTH], place: u32) -> u64
    ensures answer { result ≡ withdrawal_code (withdrawal_in words.old place).answer }
    ensures memory { words.new ≡ withdrew_in place (withdrawal_in words.old place) words.old }
{
    Answer::from(words::withdraw(words, place as usize)).code()
}

// One tick.
pub fn urzabelki_step(words: &mut [u32; words::LENGTH], count: u32) -> u64
    ensures answer { result ≡ tick_code (stepping_in words.old count).answer }
    ensures memory { words.new ≡ stepped_in (stepping_in words.old count) words.old }
{
    // The place that a run goes on at has room in the number, since it is a word; this is read for the proof alone.
    let _running = wide(words[words::RUNS]);
    Answer::from(words::step(words, count)).code()
}
