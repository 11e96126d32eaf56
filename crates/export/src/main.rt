// Reads a stored table on standard input, in whatever pieces it comes, and writes the listing of its trains to standard output.
// Nothing is decided here: `convert` makes the text, and `write` asks that it is the listing. After a refusal, whose line goes to
// standard error, and where the input cannot be read, nothing is written.
#![tactic(auto)]

ghost use Rattle.convert.specs.Standing.{ListedOf};

// One byte more than the longest stored table has, so that a longer input is seen to be too long. `verdict` reads as much: a home for the two
// would be one more public constant for a sum.
const MOST: usize = stored::LONGEST + 1;

// Writes the listing of the stored table. The stored table is named only to say so.
fn write(rt: &HostRuntime, bytes: &[u8], text: &[u8])
    requires { ListedOf bytes.now text.now }
{
    // of a text that cannot be written `stream` has said so
    let _written = stream::write(&mut rt.stdout(), &mut rt.stderr(), text);
}

// `import` is as short, and what either writes has its own contract: one function for both would ask it of a closure.
fn main(rt: HostRuntime) {
    let mut bytes = [0u8; MOST];
    let Ok(length) = stream::read_full(&mut rt.stdin(), &mut rt.stderr(), &mut bytes) else {
        return;
    };
    let bytes = &bytes[..length];
    let mut text = [0u8; listing::LONGEST_EXPORT];
    match convert::list(bytes, &mut text) {
        Ok(end) => write(&rt, bytes, &text[..end]),
        Err(refusal) => show::refuse(&mut rt.stderr(), refusal),
    }
}
