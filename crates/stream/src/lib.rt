// Standard input and standard output, with their faults, and standard error, as the caller hands them over. A call that was interrupted, or
// for which the other side is not ready yet, is made again. One that fails is said on standard error, in a line, and answered: it is no end of
// the input. No public function has a `requires`. What comes and goes is said of a reader and a writer whose bytes a contract can
// name, as those over memory; of those of the system it cannot.
#![tactic(auto)]

ghost use Rattle.std.specs.Prelude.{◌≡◌, ◌≤◌, ◌<◌, length, take, IfOk, OnOk};
ghost use Rattle.std.specs.Io.{ReadsAtMost, WritesAtMost};
ghost use Rattle.std.specs.Io.KnownBytes.{Appends};
ghost use Rattle.stream.specs.Reading.{Taken, EndedAtNone, EndedShort};
ghost use Rattle.stream.specs.Trying.{Tried};

use std::io::{self, Cursor, Error, ErrorKind, Read, Write};
use std::thread;

// Standard input could not be read, or standard output not be written, which has been said.
#[derive(Clone, Copy, Debug, PartialEq, Eq)]
pub struct Fault;

// What is said to have failed.
const UNREAD: &[u8] = b"standard input cannot be read";

const UNWRITTEN: &[u8] = b"standard output cannot be written";

// The bytes of the longest words of an error.
const WORDS: usize = 320;

// Whether a call that has just failed is to be made again. There is no call that waits until the other side is ready, so
// the processor is offered to it.
fn again(error: &Error) -> bool {
    match error.kind() {
        ErrorKind::WouldBlock => {
            thread::yield_now();
            true
        }
        kind => kind == ErrorKind::Interrupted,
    }
}

// The reason among the words of an error: behind that of a call of the system stands the number of the error, in brackets.
fn reason<'a>(error: &Error, words: &'a [u8]) -> &'a [u8]
    ensures { result.now ≡ take (length result.now) words.now }
{
    if error.raw_os_error().is_none() {
        return words;
    }
    match words.iter().rposition(|byte| *byte == b'(') {
        Some(at) => &words[..at.saturating_sub(1)],
        None => words,
    }
}

// Says in a line what could not be done, and why, and hands back the fault that has been said.
fn say<E: Write>(errors: &mut E, what: &[u8], error: Error) -> Fault {
    let mut words = Cursor::new([0u8; WORDS]);
    let _written = write!(words, "{error}");
    // `as`, since a usize has no `From` of 64 bits.
    let length = (words.position() as usize).min(WORDS);
    let words = words.into_inner();
    for part in [what, b": ", reason(&error, &words[..length]), b"\n"] {
        complain(errors, part);
    }
    Fault
}

// Makes a call, and makes it again as long as `again` says so. A loop has to end, so the tries are counted, up to more than any run takes.
// The call is lent, so that what it has done to its side is known behind it.
fn tried<T, F: FnMut() -> io::Result<T>>(call: &mut F) -> io::Result<T>
    requires { (state : F) → F.pre state }
    ensures { IfOk result (λ value. Tried (λ p r q. F.step p r q) call.old value call.new) }
{
    for _try in 0..u64::MAX {
        match call() {
            Err(error) if again(&error) => {}
            answer => return answer,
        }
    }
    Err(Error::from(ErrorKind::TimedOut))
}

// Reads what there is, and waits where there is nothing yet. No byte is read where the input has ended, and none into an
// empty buffer.
pub fn read<R: Read, E: Write>(
    input: &mut R,
    errors: &mut E,
    buffer: &mut [u8],
) -> Result<usize, Fault>
    ensures front { ReadsAtMost result buffer.new }
    ensures taken { Taken (R.remaining input.old) (R.remaining input.new) result buffer.new }
    ensures end { EndedAtNone (R.remaining input.new) result buffer.new }
{
    // tried: `map_err`, behind which the proof has no arm for what was read
    match tried(&mut || input.read(buffer)) {
        Ok(count) => Ok(count),
        Err(error) => Err(say(errors, UNREAD, error)),
    }
}

// Reads until the buffer is full or the input ends.
pub fn read_full<R: Read, E: Write>(
    input: &mut R,
    errors: &mut E,
    buffer: &mut [u8],
) -> Result<usize, Fault>
    ensures front { ReadsAtMost result buffer.new }
    ensures taken { Taken (R.remaining input.old) (R.remaining input.new) result buffer.new }
    ensures end { EndedShort (R.remaining input.new) result buffer.new }
{
    let mut done = 0;
    // each turn goes on by what was read, which no iterator counts
    while done < buffer.len() {
        let count = read(input, errors, &mut buffer[done..])?;
        if count == 0 {
            break;
        }
        done += count;
    }
    Ok(done)
}

// Writes the first of the bytes, as many as are taken at once and at least one, and answers how many.
fn write_some<W: Write, E: Write>(
    output: &mut W,
    errors: &mut E,
    bytes: &[u8],
) -> Result<usize, Fault>
    ensures some { IfOk result (λ taken. 0 < taken) }
    ensures within { WritesAtMost result bytes.now }
    ensures written { IfOk result (λ taken. Appends (W.contents output.old) (W.contents output.new) (take taken bytes.now)) }
{
    match tried(&mut || output.write(bytes)) {
        // one that takes nothing is no better the next time
        Ok(0) => Err(say(errors, UNWRITTEN, Error::from(ErrorKind::WriteZero))),
        Ok(count) => Ok(count),
        Err(error) => Err(say(errors, UNWRITTEN, error)),
    }
}

// Writes all of the bytes. No bytes are written without a call. It goes by what is left, since how much goes at once is known only
// when it is gone.
pub fn write<W: Write, E: Write>(output: &mut W, errors: &mut E, bytes: &[u8]) -> Result<(), Fault>
    ensures { OnOk result (Appends (W.contents output.old) (W.contents output.new) bytes.now) }
{
    let mut rest = bytes;
    while !rest.is_empty() {
        let taken = write_some(output, errors, rest)?;
        rest = &rest[taken..];
    }
    Ok(())
}

// Writes the bytes to standard error. Where that cannot be done there is nobody to tell.
pub fn complain<E: Write>(errors: &mut E, bytes: &[u8]) {
    let _written = errors.write_all(bytes);
}
