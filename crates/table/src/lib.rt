// A row of six numbers a train, read as a table: refusals 1 to 6 in the paper's order, the common tick 1/L, and the
// trains in whole ticks. No public call has a `requires`: every row of 32-bit numbers has its answer.
#![tactic(auto)]

ghost use Rattle.std.specs.Prelude.{◌+◌, ◌*◌, ◌≤◌, ◌≡◌, Some, [], ◌∷◌, map, length, get_or};
ghost use Rattle.lent.specs.Lent.{fitted};
ghost use Rattle.fraction.specs.Answer.{whole_ticks, running_from};
ghost use Rattle.table.specs.Row.{capacity, numbers, longest_row, record_length, time_at, no_entry, record_entry, entries, numbers_of, denominators_of};
ghost use Rattle.table.specs.Answer.{no_denominator, no_time, entry_check, checked, reading};
ghost use Rattle.table.specs.Inside.{timed, train_timed, Found, read_ticks};

use fraction::{Fraction, including};
use refusal::Refusal;
use train::Train;

// The three times of one train in milliseconds, as they stand in a row.
#[derive(Clone, Copy)]
pub struct Entry {
    pub phase: Fraction,
    pub period: Fraction,
    pub duration: Fraction,
}

// What stands for a time where there is none: a fraction with the denominator 0, which is no number.
const NO_TIME: Fraction = Fraction {
    numerator: 0,
    denominator: 0,
};

// What stands for a train of a row where there is none.
const NO_ENTRY: Entry = Entry {
    phase: NO_TIME,
    period: NO_TIME,
    duration: NO_TIME,
};

// What stands in a table where there is no train.
const NO_TRAIN: Train = Train {
    phase: 0,
    period: 0,
    duration: 0,
};

// The trains of a row in ticks. Behind the last one the array holds zeros: a table is of one size, and takes no heap.
#[derive(Clone, Copy)]
pub struct Table {
    pub tick: Fraction,
    pub count: usize,
    pub trains: [Train; Table::CAPACITY],
}

impl Table {
    // The most trains that a table takes.
    pub const CAPACITY: usize = 64;

    // The numbers of a train in a row: phase, period and duration, each numerator then denominator.
    pub const NUMBERS: usize = 6;

    // The bytes of a train in a stored table: its numbers, of 32 bits each.
    pub const RECORD_LENGTH: usize = 4 * Self::NUMBERS;

    // The numbers of the longest row.
    pub const LONGEST_ROW: usize = Self::CAPACITY * Self::NUMBERS;
}

// The records of a row: the numbers of each of its trains, as many as are whole.
#[tactic(auto, using(crate::proofs::Entries::records_read))]
pub fn records(row: &[u32]) -> &[[u32; Table::NUMBERS]]
    ensures { map record_entry result.now ≡ entries row.now }
{
    row.as_chunks().0
}

// A time in ticks, against the limit of a train. What is no whole number of ticks is in no table.
fn ticks_within(time: Fraction, tick: Fraction) -> Option<u32>
    ensures { result ≡ timed (whole_ticks time tick) }
{
    let whole = u32::try_from(time.ticks(tick)?).ok()?;
    (whole <= Train::MAX_TICKS).then_some(whole)
}

// The fraction of its two numbers, as they stand in a row.
fn time(numerator: u32, denominator: u32) -> Fraction
    ensures { result ≡ time_at (numerator ∷ denominator ∷ []) 0 }
{
    Fraction {
        numerator,
        denominator,
    }
}

// The train of its six numbers, in their order.
impl From<[u32; Table::NUMBERS]> for Entry {
    ghost from_gives = { λ numbers entry. entry ≡ record_entry numbers };

    fn from(numbers: [u32; Table::NUMBERS]) -> Entry {
        let [
            phase_above,
            phase_below,
            period_above,
            period_below,
            duration_above,
            duration_below,
        ] = numbers;
        Entry {
            phase: time(phase_above, phase_below),
            period: time(period_above, period_below),
            duration: time(duration_above, duration_below),
        }
    }
}

impl Entry {
    // The entry at a position of a row; three times without a denominator where there is none.
    // It is no Option: the entry of a position without a train is promised, and 2 refuses it. Nothing here calls it.
    pub fn at(row: &[u32], position: usize) -> Entry
        ensures { result ≡ get_or (entries row.now) position no_entry }
    {
        records(row)
            .get(position)
            .copied()
            .map_or(NO_ENTRY, Entry::from)
    }

    // Writes the six numbers of this train to a row, from an index on, if there is room for all of them.
    // Its own beside `lent::put`, which writes bytes: `fitted` and its laws are over lists of numbers, and not of any type.
    #[tactic(auto, unfolding(lent::specs::Lent::fitted, lent::specs::Lent::over))]
    pub fn put(self, row: &mut [u32], at: usize)
        ensures { row.new ≡ fitted row.old at (numbers_of self) }
    {
        if row.len() < Table::NUMBERS || row.len() - Table::NUMBERS < at {
            return;
        }
        row[at..at + Table::NUMBERS].copy_from_slice(&[
            self.phase.numerator,
            self.phase.denominator,
            self.period.numerator,
            self.period.denominator,
            self.duration.numerator,
            self.duration.denominator,
        ]);
    }

    // Whether a denominator is 0.
    #[tactic(auto, unfolding(crate::specs::Answer::no_denominator))]
    fn lacks_denominator(self) -> bool
        ensures { result ≡ no_denominator self }
    {
        self.phase.denominator == 0
            || self.period.denominator == 0
            || self.duration.denominator == 0
    }

    // Whether period or duration is 0.
    #[tactic(auto, unfolding(crate::specs::Answer::no_time))]
    fn lacks_time(self) -> bool
        ensures { result ≡ no_time self }
    {
        self.period.numerator == 0 || self.duration.numerator == 0
    }

    // Refusals 2, 3 and 4, for the train at a position. One test after the other: their order is what is promised.
    #[tactic(auto, unfolding(crate::specs::Answer::entry_check))]
    pub fn check(self, position: usize) -> Result<(), Refusal>
        ensures { result ≡ entry_check position self }
    {
        if self.lacks_denominator() {
            return Err(Refusal::ZeroDenominator(position));
        }
        if self.lacks_time() {
            return Err(Refusal::ZeroTime(position));
        }
        if self.duration.above(self.period) {
            return Err(Refusal::DurationAbovePeriod(position));
        }
        Ok(())
    }

    // The running multiple with the denominators of this train, after reduction.
    #[tactic(auto, unfolding(fraction::specs::Answer::running_from))]
    fn multiple(self, before: u32) -> Option<u32>
        ensures { result ≡ running_from (Some before) (denominators_of self) }
    {
        let multiple = including(Some(before), self.phase.lowest().denominator);
        let multiple = including(multiple, self.period.lowest().denominator);
        including(multiple, self.duration.lowest().denominator)
    }

    // This train in ticks, within the limit of a train.
    #[tactic(auto, unfolding(crate::specs::Inside::train_timed))]
    fn in_ticks(self, tick: Fraction) -> Option<Train>
        ensures { result ≡ train_timed tick self }
    {
        Some(Train {
            phase: ticks_within(self.phase, tick)?,
            period: ticks_within(self.period, tick)?,
            duration: ticks_within(self.duration, tick)?,
        })
    }
}

// Refusals 1 to 4, in the order of saving: 1, then train by train 2, 3 and 4.
#[tactic(auto, using(crate::proofs::Checks::passing_laws), unfolding(crate::specs::Answer::checked))]
pub fn check(row: &[u32]) -> Result<(), Refusal>
    ensures { result ≡ checked row.now }
{
    if row.len() % Table::NUMBERS != 0 || row.len() > Table::LONGEST_ROW {
        return Err(Refusal::TrainCount);
    }
    for (position, numbers) in records(row).iter().enumerate() {
        Entry::from(*numbers).check(position)?;
    }
    Ok(())
}

// The running multiple over a row: refusal 5 at the first train at which it passes the limit, or L.
#[tactic(auto, using(crate::proofs::RunningMultiple::running_laws))]
fn common_multiple(row: &[u32]) -> Result<u32, Refusal>
    ensures { Found (entries row.now) result }
{
    let mut multiple = 1;
    for (position, numbers) in records(row).iter().enumerate() {
        multiple = Entry::from(*numbers)
            .multiple(multiple)
            .ok_or(Refusal::TickTooFine(position))?;
    }
    Ok(multiple)
}

// The trains of a row in ticks: refusal 6 at the first with a time above the limit, or the table.
#[tactic(auto, using(crate::proofs::Ticking::filling_laws))]
fn read_ticks(row: &[u32], tick: Fraction) -> Result<Table, Refusal>
    requires { length row.now ≤ longest_row }
    ensures { result ≡ read_ticks tick (entries row.now) }
{
    let records = records(row);
    let mut trains = [NO_TRAIN; Table::CAPACITY];
    // The array by position: of the trains that `zip` lends, no proof knows what they are afterwards.
    for (position, numbers) in records.iter().enumerate() {
        trains[position] = Entry::from(*numbers)
            .in_ticks(tick)
            .ok_or(Refusal::TimeTooLong(position))?;
    }
    Ok(Table {
        tick,
        count: records.len(),
        trains,
    })
}

// The table of a row, or its refusal: 1; then train by train 2, 3 and 4; then 5 over the table; then 6.
#[tactic(auto, using(crate::proofs::Following::checked_length, crate::proofs::Readings::read_tick), unfolding(crate::specs::Answer::reading, crate::specs::Answer::refusal))]
pub fn read(row: &[u32]) -> Result<Table, Refusal>
    ensures value { result ≡ reading row.now }
    ensures capacity { Table.CAPACITY ≡ capacity }
    ensures numbers { Table.NUMBERS ≡ numbers }
    ensures longest_row { Table.LONGEST_ROW ≡ longest_row }
    ensures record_length { Table.RECORD_LENGTH ≡ record_length }
{
    check(row)?;
    let multiple = common_multiple(row)?;
    read_ticks(
        row,
        Fraction {
            numerator: 1,
            denominator: multiple,
        },
    )
}
