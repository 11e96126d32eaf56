// Reads one stored table on standard input, in whatever pieces it comes, and prints the line of its verdict. Nothing is
// decided here: `file` judges the bytes and `line` writes the line, so nothing is promised but that it ends safely.
// Of an input that cannot be read there is no verdict: `stream` has said so.
#![tactic(auto)]

// One byte more than the longest stored table has, so that a longer input is seen to be too long. `export` reads as much: a home for the two
// would be one more public constant for a sum.
const MOST: usize = stored::LONGEST + 1;

fn main(rt: HostRuntime) {
    let mut bytes = [0u8; MOST];
    let Ok(length) = stream::read_full(&mut rt.stdin(), &mut rt.stderr(), &mut bytes) else {
        return;
    };
    let verdict = file::judge(&bytes[..length]);
    // of a line that could not be written `stream` has said so
    let _shown = show::show(&mut rt.stdout(), &mut rt.stderr(), verdict);
}
