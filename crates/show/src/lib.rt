// Prints the line of a verdict on standard output, or that of a refusal on standard error, by `stream`; the programs call it, and hand over
// the outputs. What the line is was decided in `line`. `show` promises it of an output whose bytes a contract can name, as one over
// memory. Of those of the system it cannot, but what is handed on to be printed is the line there too: `line_in` promises it, and
// `complain` asks for it.
#![tactic(auto)]

ghost use Rattle.std.specs.Prelude.{◌≡◌, ◌≤◌, length, OnOk};
ghost use Rattle.std.specs.Io.KnownBytes.{Appends};
ghost use Rattle.line.specs.Answer.{line_of, longest};
ghost use Rattle.show.specs.Standing.{Stands};

use judge::Verdict;
use refusal::Refusal;
use std::io::Write;
use stream::Fault;

// The line of the verdict, at the start of a buffer with room for any.
#[tactic(auto, using(crate::proofs::Lines::front_written), unfolding(line::specs::Answer::buffer_after))]
fn line_in(verdict: Verdict, text: &mut [u8]) -> &[u8]
    requires { longest ≤ length text.old }
    ensures { Stands verdict result.now }
{
    // no line is longer than the buffer
    let length = line::write(verdict, text).unwrap();
    &text[..length]
}

// Prints the line of a verdict that refuses on standard error. The verdict is named only to say so.
fn complain<E: Write>(errors: &mut E, verdict: Verdict, text: &[u8])
    requires { Stands verdict text.now }
{
    stream::complain(errors, text)
}

// Prints the line of a verdict.
pub fn show<W: Write, E: Write>(
    output: &mut W,
    errors: &mut E,
    verdict: Verdict,
) -> Result<(), Fault>
    ensures { OnOk result (Appends (W.contents output.old) (W.contents output.new) (line_of verdict)) }
{
    let mut text = [0u8; line::LONGEST];
    stream::write(output, errors, line_in(verdict, &mut text))
}

// Prints the line of a refusal on standard error.
pub fn refuse<E: Write>(errors: &mut E, refusal: Refusal) {
    let mut bytes = [0u8; line::LONGEST];
    let verdict = Verdict::Refused(refusal);
    complain(errors, verdict, line_in(verdict, &mut bytes));
}
