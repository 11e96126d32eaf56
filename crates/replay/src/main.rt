// Replays a script: standard input has a call of a dispatcher in each line, and for each line a line is printed.
// `reply` goes from a line to the line of its answer, and nothing is decided here but where a line ends, so nothing is
// promised but that it ends safely.
#![tactic(auto)]

ghost use Rattle.std.specs.Prelude.{◌≤◌};
ghost use Rattle.replay.specs.declared.TheConstants.{KEPT, NEARLY_FULL};

use dispatcher::Dispatcher;
use reply::Played;
use script::Call;
use stream::Fault;

// The bytes that are read at once, at most.
const BLOCK: usize = 65_536;

// What is kept of a line. A CR may end the longest line that says a call, and with one byte more a line is seen to be
// too long: it says no call, whatever follows.
const KEPT: usize = Call::LONGEST + 2;

// The bytes of the answers that are written at once.
const ROOM: usize = 65_536;

// Above this the answers are written, for the next one might find no room.
const NEARLY_FULL: usize = ROOM - Played::LONGEST;

// The line that is being read, as far as it is kept: in fixed memory, so its length stands beside the bytes. The answers below are bytes
// with a length too, but not a second `Line`: none of them is left out, and they are written where the next might find no room.
#[derive(Clone, Copy)]
struct Line {
    bytes: [u8; KEPT],
    length: usize,
    ghost within: { length ≤ KEPT },
}

impl Line {
    // Keeps bytes of the line behind those that are kept. Those without room are left out.
    fn keep(&mut self, more: &[u8]) {
        let room = &mut self.bytes[self.length..];
        let count = more.len().min(room.len());
        room[..count].copy_from_slice(&more[..count]);
        self.length += count;
    }
}

// A dispatcher as the calls have left it, the line that is being read, and the answers that are still to be written, in
// fixed memory too.
#[derive(Drop)]
struct Replay<'a> {
    rt: &'a HostRuntime,
    dispatcher: Dispatcher,
    line: Line,
    answers: [u8; ROOM],
    waiting: usize,
    ghost room: { waiting ≤ NEARLY_FULL },
}

impl Replay<'_> {
    // Makes the call of the line that is kept, and puts its answer behind those that wait. There is always room for one.
    fn play(&mut self) -> Result<(), Fault> {
        // tried: without this name, what is written below while `said` is lent is not covered by the borrow checker
        let line = &self.line;
        let said = &line.bytes[..line.length];
        let played = reply::play(self.dispatcher, said, &mut self.answers, self.waiting);
        self.dispatcher = played.dispatcher;
        self.line.length = 0;
        let end = played.written.unwrap();
        if end > NEARLY_FULL {
            return self.flush(end);
        }
        self.waiting = end;
        Ok(())
    }

    // Writes the answers up to there, and then none waits.
    fn flush(&mut self, end: usize) -> Result<(), Fault>
        requires { end ≤ ROOM }
    {
        self.waiting = 0;
        stream::write(
            &mut self.rt.stdout(),
            &mut self.rt.stderr(),
            &self.answers[..end],
        )
    }

    // Plays the lines that end in this part of the input, as long as their answers can be written, and keeps what there is of
    // the next one.
    fn play_part(&mut self, input: &[u8]) -> Result<(), Fault> {
        for piece in input.split_inclusive(|byte| *byte == b'\n') {
            match piece {
                [said @ .., b'\n'] => {
                    self.line.keep(said);
                    self.play()?;
                }
                started => self.line.keep(started),
            }
        }
        Ok(())
    }

    // At the end of the input, a line without a newline is a line too, if it has a byte.
    fn play_last(&mut self) -> Result<(), Fault> {
        if self.line.length > 0 {
            self.play()?;
        }
        self.flush(self.waiting)
    }

    // Reads what there is to read and plays it; where there is nothing, the input has ended. The answers are written before
    // the next reading, since whoever wrote the calls may wait for them. Of an input that cannot be read the line that has not
    // ended is not answered, for nothing is known of the rest of it.
    fn play_input(&mut self) -> Result<(), Fault> {
        let mut block = [0u8; BLOCK];
        // A range, and no loop without an end: each loop is proved to end.
        for _turn in 0..u64::MAX {
            let count = stream::read(&mut self.rt.stdin(), &mut self.rt.stderr(), &mut block)?;
            if count == 0 {
                return self.play_last();
            }
            self.play_part(&block[..count])?;
            self.flush(self.waiting)?;
        }
        Ok(())
    }
}

fn main(rt: HostRuntime) {
    let mut replay = Replay {
        rt: &rt,
        dispatcher: Dispatcher::fresh(0),
        line: Line {
            bytes: [0u8; KEPT],
            length: 0,
        },
        answers: [0u8; ROOM],
        waiting: 0,
    };
    // of a fault `stream` has said so
    let _played = replay.play_input();
}
