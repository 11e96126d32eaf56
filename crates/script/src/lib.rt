// Reads a line that says a call of a dispatcher: `fresh C`, `admit DELAY PERIOD DURATION`, `withdraw PLACE` or `step C`.
// `read` has no `requires`: of a line that says no call it answers `None`.
#![tactic(auto)]

ghost use Rattle.std.specs.Prelude.{◌≡◌, MatchOption};
ghost use Rattle.decimal.specs.Answer.{nothing, found};
ghost use Rattle.script.specs.Says.{longest};
ghost use Rattle.script.specs.Answer.{spaced_in, single_in, delay_of, spelt, call_in};

// What a line says.
#[derive(Clone, Copy)]
pub enum Call {
    Fresh(u32),
    // The delay, the period and the duration.
    // They are no `Train`: what a line says need not be one, and this crate knows of none.
    Admit(u32, u32, u32),
    Withdraw(u32),
    Step(u32),
}

impl Call {
    // The bytes of the longest line that may say a call, without its line end.
    pub const LONGEST: usize = 80;
}

// The number that a space and digits say at the front of a text, and the text behind it.
fn spaced(text: &[u8]) -> Option<(u32, &[u8])>
    ensures { MatchOption result (spaced_in text.now ≡ nothing) (λ said. spaced_in text.now ≡ found said.0 said.1.now) }
{
    let digits = text.strip_prefix(b" ")?;
    let number = decimal::read(digits, 0)?;
    Some((number.value, &digits[number.end..]))
}

// The number that a text says, if nothing follows it.
fn single(text: &[u8]) -> Option<u32>
    ensures { result ≡ single_in text.now }
{
    let (value, rest) = spaced(text)?;
    rest.is_empty().then_some(value)
}

// The call `admit` with the three numbers behind its word.
fn admit(text: &[u8]) -> Option<Call>
    ensures { result ≡ delay_of (spaced_in text.now) }
{
    let (delay, rest) = spaced(text)?;
    let (period, last) = spaced(rest)?;
    let duration = single(last)?;
    Some(Call::Admit(delay, period, duration))
}

// The call that a text says by its first word.
// One test after the other and no `match` on the word: where the word ends would have to be looked for first.
fn call_in(text: &[u8]) -> Option<Call>
    ensures { result ≡ spelt text.now }
{
    if let Some(numbers) = text.strip_prefix(b"step") {
        return single(numbers).map(Call::Step);
    }
    if let Some(numbers) = text.strip_prefix(b"admit") {
        return admit(numbers);
    }
    if let Some(numbers) = text.strip_prefix(b"withdraw") {
        return single(numbers).map(Call::Withdraw);
    }
    single(text.strip_prefix(b"fresh")?).map(Call::Fresh)
}

// What a line says, which is handed over without its newline. A CR at its end is dropped.
pub fn read(line: &[u8]) -> Option<Call>
    ensures answer { result ≡ call_in line.now }
    ensures constants { Call.LONGEST ≡ longest }
{
    let text = line.strip_suffix(b"\r").unwrap_or(line);
    if text.len() > Call::LONGEST {
        return None;
    }
    call_in(text)
}
