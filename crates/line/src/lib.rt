// A printed line, in ASCII: a word, its numbers in decimal, single spaces, and a newline; and the line of a verdict.
// No public call has a `requires`: a lent buffer that is too short is refused, and nothing is written to it.
// Numbers are printed here and not by `write!`, which is known to print only into a text on the heap; and a buffer comes with an index,
// as `put` is promised. `as` stands where there is no `From`: from a usize to 64 bits.
#![tactic(auto)]

ghost use Rattle.std.specs.Prelude.{◌≡◌, ◌+◌, ◌^◌, ◌-◌, ◌<◌, ◌≤◌, length, Ok, SomeIff};
ghost use Rattle.refusal.specs.Paper.{paper};
ghost use Rattle.line.specs.Answer.{spaced, numbers, text_of, refusal_text, line_of, longest, answer_for, buffer_after, written, written_in};
ghost use Rattle.lent.specs.Lent.{over};

use judge::Verdict;
use refusal::Refusal;

// The longest line of any verdict: a buffer of this length is never refused.
pub const LONGEST: usize = 93;

// Writes a space and n at `at`, and answers where they end.
fn put_number(out: &mut [u8], at: usize, n: u64) -> usize
    requires { at + length (spaced n) ≤ length out.old }
    ensures end { result ≡ at + length (spaced n) }
    ensures bytes { out.new ≡ over out.old at (spaced n) }
{
    out[at] = b' ';
    decimal::put(n, out, at + 1)
}

// What the numbers of a line and its newline leave of so many bytes, if they have room there. What each takes, with the space before
// it, is subtracted from what is left, since the sum may be too great for its type.
fn left_by(values: &[u64], room: usize) -> Option<usize>
    ensures { SomeIff result (length (numbers values.now) ≤ room) (room - length (numbers values.now)) }
{
    let mut left = room;
    for value in values {
        left = left.checked_sub(decimal::width(*value) + 1)?;
    }
    left.checked_sub(1)
}

// Writes the numbers of a line and its newline at `at`, and answers where they end.
fn put_numbers(values: &[u64], out: &mut [u8], at: usize) -> usize
    requires { at + length (numbers values.now) ≤ length out.old }
    ensures end { result ≡ at + length (numbers values.now) }
    ensures bytes { out.new ≡ over out.old at (numbers values.now) }
{
    let mut next = at;
    for value in values {
        next = put_number(out, next, *value);
    }
    out[next] = b'\n';
    next + 1
}

// Writes the line of a word and its numbers at `at`, and answers where it ends; what stands before and behind is kept.
// A buffer without room for all of it there is refused, and keeps every byte. It is inlined, so that the loops know how many numbers
// there are, and the copy how long the word is.
#[inline(always)]
pub fn put(word: &[u8], values: &[u64], out: &mut [u8], at: usize) -> Result<usize, Refusal>
    ensures answer { result ≡ answer_for (text_of word.now values.now) at (length out.old) }
    ensures bytes { out.new ≡ buffer_after result (text_of word.now values.now) at out.old }
{
    let room = out.len().saturating_sub(at);
    if room < word.len() || left_by(values, room - word.len()).is_none() {
        return Err(Refusal::BufferTooShort);
    }
    let end = lent::put(word, out, at);
    Ok(put_numbers(values, out, end))
}

// Writes the line of a refusal at `at`, as `put` does: its number and its place.
pub fn refuse(refusal: Refusal, out: &mut [u8], at: usize) -> Result<usize, Refusal>
    ensures answer { result ≡ answer_for (refusal_text refusal) at (length out.old) }
    ensures bytes { out.new ≡ buffer_after result (refusal_text refusal) at out.old }
    ensures within { ((paper refusal).number < 2 ^ 32) × ((paper refusal).place < 2 ^ 64) }
{
    let values = [u64::from(refusal.number()), refusal.place() as u64];
    put(b"refuse", &values, out, at)
}

// Writes the line of a verdict to the front of `out`, and answers how many bytes it has; what follows them is kept.
// A buffer that is too short for all of them is refused, and keeps every byte.
pub fn write(verdict: Verdict, out: &mut [u8]) -> Result<usize, Refusal>
    ensures answer { result ≡ written verdict (length out.old) }
    ensures bytes { out.new ≡ written_in result verdict out.old }
    ensures constant { LONGEST ≡ longest }
    ensures suffices { longest ≤ length out.old → result ≡ Ok (length (line_of verdict)) }
{
    match verdict {
        Verdict::Accepted(figures) => {
            let values = [u64::from(figures.multiple), u64::from(figures.divisions)];
            put(b"accept", &values, out, 0)
        }
        Verdict::Collide(meeting, figures) => {
            let values = [
                meeting.first as u64,
                meeting.second as u64,
                meeting.tick,
                u64::from(figures.multiple),
                u64::from(figures.divisions),
            ];
            put(b"collide", &values, out, 0)
        }
        Verdict::Refused(refusal) => refuse(refusal, out, 0),
    }
}
