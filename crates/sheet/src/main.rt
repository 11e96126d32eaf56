// Judges each table of the paper's bench sheet, in its order, and prints the line of its verdict.
// Nothing is decided here, so nothing is promised but that it ends safely.
#![tactic(auto)]

use stream::Fault;

// The rows of the tables.
const SHEET: [&[u32]; 16] = [
    // empty
    &[],
    // (5,1,1)
    &[5, 1, 1, 1, 1, 1],
    // (0,8,2) (3,12,1)
    &[0, 1, 8, 1, 2, 1, 3, 1, 12, 1, 1, 1],
    // (3,12,1) (0,8,2)
    &[3, 1, 12, 1, 1, 1, 0, 1, 8, 1, 2, 1],
    // (0,8,2) (1,12,1)
    &[0, 1, 8, 1, 2, 1, 1, 1, 12, 1, 1, 1],
    // (0,8,2) (2,12,2)
    &[0, 1, 8, 1, 2, 1, 2, 1, 12, 1, 2, 1],
    // (0,8,2) (3,12,2)
    &[0, 1, 8, 1, 2, 1, 3, 1, 12, 1, 2, 1],
    // (0,4,1) (2,4,1) (1,6,1)
    &[0, 1, 4, 1, 1, 1, 2, 1, 4, 1, 1, 1, 1, 1, 6, 1, 1, 1],
    // (0,5,1) (1,7,1)
    &[0, 1, 5, 1, 1, 1, 1, 1, 7, 1, 1, 1],
    // (0,4,1) (0,4,1)
    &[0, 1, 4, 1, 1, 1, 0, 1, 4, 1, 1, 1],
    // (0/1, 36/13, 12/13) (12/13, 72/13, 12/13)
    &[0, 1, 36, 13, 12, 13, 12, 13, 72, 13, 12, 13],
    // (0, 3/1, 10/3)
    &[0, 1, 3, 1, 10, 3],
    // (0, 3/1, 9/3)
    &[0, 1, 3, 1, 9, 3],
    // (0,10000000,1)
    &[0, 1, 10_000_000, 1, 1, 1],
    // (0,10000001,1)
    &[0, 1, 10_000_001, 1, 1, 1],
    // (1/1000000, 2/1, 1/999999)
    &[1, 1_000_000, 2, 1, 1, 999_999],
];

// Prints the lines, up to the first that cannot be written.
fn print(rt: &HostRuntime) -> Result<(), Fault> {
    for row in SHEET {
        show::show(&mut rt.stdout(), &mut rt.stderr(), judge::judge(row))?;
    }
    Ok(())
}

fn main(rt: HostRuntime) {
    // of a line that could not be written `stream` has said so
    let _printed = print(&rt);
}
