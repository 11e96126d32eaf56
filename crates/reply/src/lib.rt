// From a line of a script to the line of its answer: the call that the line says is made on a dispatcher, and its answer is
// written to a lent buffer. `play` has no `requires`: without room for the longest line nothing is called. A buffer comes with an
// index, as `play` is promised. `as` stands where there is no `From`: between a usize and 32 or 64 bits.
#![tactic(auto)]

ghost use Rattle.std.specs.Prelude.{◌≡◌, ◌+◌, ◌≤◌, length, IsOk, IfOk, MatchResult};
ghost use Rattle.line.specs.Answer.{answer_for, buffer_after};
ghost use Rattle.reply.specs.Lines.{Within, line_of, longest};
ghost use Rattle.reply.specs.Answer.{shown, after, reply_to, played};
ghost use Rattle.reply.specs.Inside.{shown_of};

use dispatcher::{Called, Dispatcher, Tick};
use refusal::Refusal;
use script::Call;

// What `play` answers. It is no `Called`: what was written is not the answer of the call.
#[derive(Clone, Copy)]
pub struct Played {
    // Where the printed line ends, or that the buffer is too short.
    pub written: Result<usize, Refusal>,
    // The dispatcher after the call, or as it came where the buffer is too short.
    pub dispatcher: Dispatcher,
}

impl Played {
    // The longest line of any answer. `play` asks for this room before it makes the call, whatever the call, and so keeps no copy of
    // the dispatcher to hand back.
    pub const LONGEST: usize = 39;
}

// What is printed for a call. `Bad` and `Refuse` are no None and no Err: a line is printed for each, as for the others.
#[derive(Clone, Copy)]
enum Printed {
    // The line says no call.
    Bad,
    Fresh,
    Place(usize),
    Withdrawn,
    Tick(Tick),
    Refuse(Refusal),
}

// What there is to print for the answer of a call: what its value makes, or the refusal.
fn to_print<A, F: FnOnce(A) -> Printed>(
    called: Called<Result<A, Refusal>>,
    make: F,
) -> Called<Printed>
    requires { F.IsAlwaysCallable make }
    ensures answer { MatchResult called.answer
        (λ value. F.post make value result.answer) (λ refusal. result.answer ≡ Printed.Refuse refusal) }
    ensures dispatcher { result.dispatcher ≡ called.dispatcher }
{
    let Called { answer, dispatcher } = called;
    Called {
        answer: answer.map_or_else(Printed::Refuse, make),
        dispatcher,
    }
}

// Makes the call that a line says, if it says one.
#[tactic(auto, unfolding(crate::specs::Answer::shown, crate::specs::Answer::after))]
fn call(dispatcher: Dispatcher, said: Option<Call>) -> Called<Printed>
    ensures answer { shown_of result.answer ≡ shown dispatcher said }
    ensures dispatcher { result.dispatcher ≡ after dispatcher said }
{
    match said {
        None => Called {
            answer: Printed::Bad,
            dispatcher,
        },
        Some(Call::Fresh(count)) => Called {
            answer: Printed::Fresh,
            dispatcher: Dispatcher::fresh(count),
        },
        Some(Call::Admit(delay, period, duration)) => {
            to_print(dispatcher.admit(delay, period, duration), Printed::Place)
        }
        Some(Call::Withdraw(place)) => {
            to_print(dispatcher.withdraw(place as usize), |_| Printed::Withdrawn)
        }
        Some(Call::Step(count)) => to_print(dispatcher.step(count), Printed::Tick),
    }
}

// Writes the line of what is printed at an index, if there is room for it. It has an arm for each: each has its own word and numbers.
#[tactic(auto, unfolding(crate::specs::Lines::line_of))]
fn put(printed: Printed, out: &mut [u8], at: usize) -> Result<usize, Refusal>
    ensures within { Within (shown_of printed) }
    ensures answer { result ≡ answer_for (line_of (shown_of printed)) at (length out.old) }
    ensures bytes { out.new ≡ buffer_after result (line_of (shown_of printed)) at out.old }
{
    match printed {
        Printed::Bad => line::put(b"bad", &[], out, at),
        Printed::Fresh => line::put(b"fresh", &[], out, at),
        Printed::Place(place) => line::put(b"place", &[place as u64], out, at),
        Printed::Withdrawn => line::put(b"withdrawn", &[], out, at),
        Printed::Tick(Tick::Idle) => line::put(b"idle", &[], out, at),
        Printed::Tick(Tick::Starts(place)) => line::put(b"starts", &[place as u64], out, at),
        Printed::Tick(Tick::GoesOn(place)) => line::put(b"goes-on", &[place as u64], out, at),
        Printed::Refuse(refusal) => line::refuse(refusal, out, at),
    }
}

// Makes the call that a line says, which is handed over without its newline, and writes the line of its answer at `at`.
// Without room for the longest line there nothing is called or written, and the dispatcher is handed back as it came.
#[tactic(auto, using(crate::proofs::Texts::line_fits, line::proofs::Lines::answer_room), unfolding(crate::specs::Answer::played, line::specs::Answer::buffer_after))]
pub fn play(dispatcher: Dispatcher, said: &[u8], out: &mut [u8], at: usize) -> Played
    ensures answer { result ≡ played dispatcher said.now at (length out.old) }
    ensures bytes { out.new ≡ buffer_after result.written (reply_to dispatcher said.now) at out.old }
    ensures constants { Played.LONGEST ≡ longest }
    ensures suffices { at + longest ≤ length out.old → IsOk result.written }
    ensures within { IfOk result.written (λ end. end ≤ at + longest) }
{
    if out.len().saturating_sub(at) < Played::LONGEST {
        return Played {
            written: Err(Refusal::BufferTooShort),
            dispatcher,
        };
    }
    let Called { answer, dispatcher } = call(dispatcher, script::read(said));
    Played {
        written: put(answer, out, at),
        dispatcher,
    }
}
