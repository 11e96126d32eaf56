// The dispatcher in words of 32 bits that the caller lends, for programs in other languages. The words stand for a record of
// the crate `dispatcher`, whatever they are; each call works in place, answers what the record's call answers, and leaves
// the words of the record after it. No public call has a `requires`. `as` stands where there is no `From`: between 32 bits and a usize.
#![tactic(auto)]

ghost use Rattle.std.specs.Prelude.{◌≡◌, ◌<◌, [], ◌∷◌};
ghost use Rattle.std.proofs.lemmas.List.Edits.{sets};
ghost use Rattle.dispatcher.specs.History.{place_count};
ghost use Rattle.dispatcher.specs.Answer.{is_sought, lowest_place};
ghost use Rattle.words.specs.Record.{last_at, word_count, place_in, places_in, record_in, place_words, place_over};
ghost use Rattle.words.specs.Answer.{admission_in, withdrawal_in, stepping_in, fresh_in, admitted_in, withdrew_in, stepped_in};

use dispatcher::{Dispatcher, Held, Place, Placed, Run, Sought, Tick};
use refusal::Refusal;
use train::Train;

// The words of a place: whether it holds a train, where 0 says no, then its next count, its period and its duration.
const PLACE: usize = 4;

// Behind the places: the last seen hardware count.
const LAST: usize = PLACE * Dispatcher::PLACES;

// The place of the run in progress.
pub const RUNS: usize = LAST + 1;

// How many of its ticks are still to come.
const LEFT: usize = LAST + 2;

// How many words a dispatcher has.
pub const LENGTH: usize = LAST + 3;

// What a place holds.
// Tried: the chunks of `as_chunks`, by the patterns `[0, ..]` and `[_, next, period, duration]`: it proves, and a step that looks at
// all places takes nearly twice the time.
#[tactic(auto, unfolding(crate::specs::Record::place_in))]
fn place_at(words: &[u32; LENGTH], place: usize) -> Place
    requires { place < place_count }
    ensures { result ≡ place_in words.now place }
{
    let at = place * PLACE;
    if words[at] == 0 {
        return Place { held: Held::Empty };
    }
    Place {
        held: Held::Holds(Placed {
            next: words[at + 1],
            period: words[at + 2],
            duration: words[at + 3],
        }),
    }
}

// The lowest place that is what is sought. It is inlined, so that what is sought is known in the search of each call, and a step
// pays for no other question.
#[inline(always)]
fn lowest(words: &[u32; LENGTH], sought: Sought) -> Option<usize>
    ensures { result ≡ lowest_place (is_sought sought) (places_in words.now) }
{
    // by positions, since the place is what is answered
    (0..Dispatcher::PLACES).find(|place| place_at(words, *place).is(sought))
}

// The run in progress.
fn run_at(words: &[u32; LENGTH]) -> Run
    ensures { result ≡ (record_in words.now).run }
{
    Run {
        place: words[RUNS],
        left: words[LEFT],
    }
}

// The words of a place.
fn words_of(here: Place) -> [u32; PLACE]
    ensures { result ≡ place_words here }
{
    match here.held {
        Held::Empty => [0; PLACE],
        Held::Holds(placed) => [1, placed.next, placed.period, placed.duration],
    }
}

// Writes a place over the words of another.
fn put_place(words: &mut [u32; LENGTH], place: usize, here: Place)
    requires { place < place_count }
    ensures { words.new ≡ place_over words.old place here }
{
    let at = place * PLACE;
    words[at..at + PLACE].copy_from_slice(&words_of(here));
}

// Writes the last count and the run in progress.
fn put_tail(words: &mut [u32; LENGTH], last: u32, run: Run)
    ensures { words.new ≡ sets words.old last_at (last ∷ run.place ∷ run.left ∷ []) }
{
    words[LAST..].copy_from_slice(&[last, run.place, run.left]);
}

// Makes the words those of a dispatcher without a train, whose first step is the one with the count after this.
pub fn fresh(words: &mut [u32; LENGTH], count: u32)
    ensures { (words.new ≡ fresh_in count) × (LENGTH ≡ word_count) }
{
    *words = [0; LENGTH];
    words[LAST] = count;
}

// Admits a train, as `Dispatcher::admit` does.
// The calls here stand beside those of the record, for speed: they change the words in place, and no record is made of them and copied back.
#[tactic(auto, using(crate::proofs::Standing::places_read), unfolding(dispatcher::specs::Answer::admission, dispatcher::specs::Answer::lowest))]
pub fn admit(
    words: &mut [u32; LENGTH],
    delay: u32,
    period: u32,
    duration: u32,
) -> Result<usize, Refusal>
    ensures answer { result ≡ (admission_in words.old delay period duration).answer }
    ensures memory { words.new ≡ admitted_in (admission_in words.old delay period duration) words.old }
{
    let train = Train {
        phase: delay,
        period,
        duration,
    };
    if !train.within_limits() {
        return Err(Refusal::NotATrain);
    }
    let empty = lowest(words, Sought::Empty).ok_or(Refusal::NoEmptyPlace)?;
    let count = words[LAST].wrapping_add(1);
    if let Some(met) = lowest(words, Sought::Colliding(count, train)) {
        return Err(Refusal::Collision(met));
    }
    let placed = Placed {
        next: count.wrapping_add(delay),
        period,
        duration,
    };
    put_place(
        words,
        empty,
        Place {
            held: Held::Holds(placed),
        },
    );
    Ok(empty)
}

// Empties a place at once, as `Dispatcher::withdraw` does.
#[tactic(auto, using(crate::proofs::Standing::places_read), unfolding(dispatcher::specs::Answer::withdrawal, dispatcher::specs::Answer::is_sought))]
pub fn withdraw(words: &mut [u32; LENGTH], place: usize) -> Result<(), Refusal>
    ensures answer { result ≡ (withdrawal_in words.old place).answer }
    ensures memory { words.new ≡ withdrew_in place (withdrawal_in words.old place) words.old }
{
    if place >= Dispatcher::PLACES || place_at(words, place).is(Sought::Empty) {
        return Err(Refusal::NoTrainThere);
    }
    let run = run_at(words);
    let last = words[LAST];
    put_place(words, place, Place { held: Held::Empty });
    put_tail(words, last, run.ended(place));
    Ok(())
}

// One tick, as `Dispatcher::step` does it. In mid-run no place is looked at.
#[tactic(auto, using(crate::proofs::Standing::places_read), unfolding(dispatcher::specs::Answer::stepping, dispatcher::specs::Answer::lowest))]
pub fn step(words: &mut [u32; LENGTH], count: u32) -> Result<Tick, Refusal>
    ensures answer { result ≡ (stepping_in words.old count).answer }
    ensures memory { words.new ≡ stepped_in (stepping_in words.old count) words.old }
{
    if count != words[LAST].wrapping_add(1) {
        return Err(Refusal::WrongCount);
    }
    let run = run_at(words);
    if let Some(left) = run.left.checked_sub(1) {
        put_tail(words, count, Run { left, ..run });
        return Ok(Tick::GoesOn(run.place as usize));
    }
    let Some(due) = lowest(words, Sought::Due(count)) else {
        put_tail(words, count, run);
        return Ok(Tick::Idle);
    };
    let here = place_at(words, due);
    put_place(words, due, here.started());
    put_tail(
        words,
        count,
        Run {
            place: due as u32,
            left: here.rest(),
        },
    );
    Ok(Tick::Starts(due))
}
