// Reads a listing on standard input, in whatever pieces it comes, and writes the stored table of its trains to standard output.
// Nothing is decided here: `convert` makes the bytes, and `write` asks that they are the table. After a refusal, whose line goes to
// standard error, and where the input cannot be read, nothing is written.
#![tactic(auto)]

ghost use Rattle.convert.specs.Standing.{StoredOf};

// One byte more than the longest listing has, so that a longer input is seen to be too long.
const MOST: usize = listing::LONGEST_TEXT + 1;

// Writes the stored table of the listing. The listing is named only to say so.
fn write(rt: &HostRuntime, text: &[u8], bytes: &[u8])
    requires { StoredOf text.now bytes.now }
{
    // of bytes that cannot be written `stream` has said so
    let _written = stream::write(&mut rt.stdout(), &mut rt.stderr(), bytes);
}

// `export` is as short, and what either writes has its own contract: one function for both would ask it of a closure.
fn main(rt: HostRuntime) {
    let mut text = [0u8; MOST];
    let Ok(length) = stream::read_full(&mut rt.stdin(), &mut rt.stderr(), &mut text) else {
        return;
    };
    let text = &text[..length];
    let mut bytes = [0u8; stored::LONGEST];
    match convert::store(text, &mut bytes) {
        Ok(end) => write(&rt, text, &bytes[..end]),
        Err(refusal) => show::refuse(&mut rt.stderr(), refusal),
    }
}
