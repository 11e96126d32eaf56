// The verdict on a table, for all time: accepted, colliding (which pair first, and when), or refused; with L and the
// division count. No public call has a `requires`: every row of 32-bit numbers has its verdict.
#![tactic(auto)]

ghost use Rattle.std.specs.Prelude.{◌≡◌, ◌+◌, ◌*◌, ◌≤◌, length, Ok, IfOk};
ghost use Rattle.table.specs.Row.{capacity};
ghost use Rattle.judge.specs.Pairs.{train_at, pairs};
ghost use Rattle.judge.specs.Answer.{scan, judged, verdict};
ghost use Rattle.judge.specs.Inside.{Scannable, Begun, pairs_behind};

use refusal::Refusal;
use train::Train;

// L, and the division count.
#[derive(Clone, Copy)]
pub struct Figures {
    pub multiple: u32,
    pub divisions: u32,
}

// Two trains of a table by their positions, and the earliest tick that both claim.
#[derive(Clone, Copy)]
pub struct Meeting {
    pub first: usize,
    pub second: usize,
    pub tick: u64,
}

// Refused is a verdict of its own and no Err: the paper's verdict is one of three, printed and numbered so.
#[derive(Clone, Copy)]
pub enum Verdict {
    // No tick is ever claimed by two trains.
    Accepted(Figures),
    // The first pair that collides.
    Collide(Meeting, Figures),
    // The row is no table within the limits.
    Refused(Refusal),
}

// The first pair that collides, with the divisions of the pairs up to and including it. It is an Err of the search, so that `?` leaves both
// loops with it.
#[derive(Clone, Copy)]
struct Collision {
    first: usize,
    second: usize,
    divisions: u32,
}

// The pairs of one train with those behind it, up to and including the first that collides. Their divisions are added to
// those of the pairs before.
#[tactic(auto, using(crate::proofs::Walk::behind_ways))]
fn scan_behind(trains: &[Train], first: usize, before: u32) -> Result<u32, Collision>
    requires { Begun trains.now first before }
    ensures answer { result ≡ scan (train_at trains.now) (pairs_behind first (length trains.now)) before }
    ensures few { IfOk result (λ divisions. divisions ≤ before + 33 * capacity) }
{
    let mut divisions = before;
    // By position and not by train, since the positions are what is answered.
    for second in first + 1..trains.len() {
        let pair = train::compare(trains[first], trains[second]);
        divisions += pair.divisions;
        if !pair.free {
            return Err(Collision {
                first,
                second,
                divisions,
            });
        }
    }
    Ok(divisions)
}

// The pairs in the order (0,1), (0,2) .. (1,2) .., up to and including the first that collides; or the divisions of all.
#[tactic(auto, using(crate::proofs::Walk::walk_ways))]
fn scan(trains: &[Train]) -> Result<u32, Collision>
    requires { Scannable trains.now }
    ensures { result ≡ scan (train_at trains.now) (pairs (length trains.now)) 0 }
{
    let mut divisions = 0;
    // By position too: a pair is two positions.
    for first in 0..trains.len() {
        divisions = scan_behind(trains, first, divisions)?;
    }
    Ok(divisions)
}

// The verdict on the trains of a table. Only the pair that is shown is searched for its earliest tick, and it has one, since
// it collides.
#[tactic(auto, using(crate::proofs::Verdicts::judge_ways))]
fn judge_trains(trains: &[Train], multiple: u32) -> Verdict
    requires { Scannable trains.now }
    ensures { result ≡ judged (Ok tt) multiple trains.now }
{
    match scan(trains) {
        Ok(divisions) => Verdict::Accepted(Figures {
            multiple,
            divisions,
        }),
        Err(collision) => {
            let meeting = Meeting {
                first: collision.first,
                second: collision.second,
                tick: train::earliest(trains[collision.first], trains[collision.second]).unwrap(),
            };
            let figures = Figures {
                multiple,
                divisions: collision.divisions,
            };
            Verdict::Collide(meeting, figures)
        }
    }
}

// The verdict on a row: its refusal, or the verdict on its trains.
#[tactic(auto, using(crate::proofs::Verdicts::read_ways))]
pub fn judge(row: &[u32]) -> Verdict
    ensures { result ≡ verdict row.now }
{
    match table::read(row) {
        Ok(table) => judge_trains(&table.trains[..table.count], table.tick.denominator),
        Err(refusal) => Verdict::Refused(refusal),
    }
}
