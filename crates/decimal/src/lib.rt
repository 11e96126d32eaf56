// Numbers as text, both ways: the decimal notation of a number is written to lent memory, and digits are read as a number.
// No public function has a `requires`: without room nothing is written, and where no number of 32 bits stands the answer is `None`.
// The digits are written by hand and not by `write!`: there is no heap, and which bytes `write!` puts into lent memory stands in
// no contract.
#![tactic(auto)]

ghost use Rattle.std.specs.Prelude.{◌≡◌, ◌≤◌, ◌<◌, ◌^◌, length, drop, SomeIff};
ghost use Rattle.lent.specs.Lent.{fitted, end_in};
ghost use Rattle.decimal.specs.Answer.{decimal, digits_from, indexed, number_at};
ghost use Rattle.decimal.specs.Answer.{longer as Answer·longer};

// A number that was read.
#[derive(Clone, Copy)]
pub struct Number {
    pub value: u32,
    // The index behind its last digit.
    pub end: usize,
}

// How many digits n has: one more than the power of ten that it reaches, and 0 has as many as 1.
pub fn width(n: u64) -> usize
    ensures { (result ≡ length (decimal n)) × (result ≤ 20) }
{
    // `as`, since a usize has no `From` of 32 bits.
    n.max(1).ilog10() as usize + 1
}

// Writes the digits of n, for which there is just room, the last first, since it is the one that division finds first.
fn put_digits(n: u64, digits: &mut [u8])
    requires { length digits.old ≡ length (decimal n) }
    ensures { digits.new ≡ decimal n }
{
    let mut left = n;
    // By places and not `iter_mut().rev()`: what such a loop has written to the slice is in no fact that a proof can name.
    for place in (0..digits.len()).rev() {
        // `as`, since a u8 has no `From` of 64 bits; a digit is below ten.
        digits[place] = b'0' + (left % 10) as u8;
        left /= 10;
    }
}

// Writes the decimal notation of n at `at`, and answers where it ends. Without room for all of it nothing is written, and
// `at` is answered.
// The answer is a number and no Option: `at` where nothing is written is promised to each caller.
pub fn put(n: u64, out: &mut [u8], at: usize) -> usize
    ensures end { result ≡ end_in (length out.old) at (decimal n) }
    ensures bytes { out.new ≡ fitted out.old at (decimal n) }
{
    let taken = width(n);
    if out.len() < at || out.len() - at < taken {
        return at;
    }
    let end = at + taken;
    put_digits(n, &mut out[at..end]);
    end
}

// The number before, with one more digit at its end, if it is one of 32 bits.
fn longer(value: u32, digit: u8) -> Option<u32>
    requires { 48 ≤ digit }
    ensures { SomeIff result (Answer·longer value digit < 2 ^ 32) (Answer·longer value digit) }
{
    value.checked_mul(10)?.checked_add(u32::from(digit - b'0'))
}

// The number whose digits begin there, if it is one of 32 bits. No digit counts as 0, so the caller looks at the first.
// A loop and no `position` with a `try_fold`, which would go over the digits twice.
fn digits(text: &[u8], at: usize) -> Option<Number>
    requires { at ≤ length text.now }
    ensures { result ≡ indexed (length text.now) (digits_from 0 (drop at text.now)) }
{
    let mut value = 0;
    for (passed, digit) in text[at..].iter().enumerate() {
        if !digit.is_ascii_digit() {
            return Some(Number {
                value,
                end: at + passed,
            });
        }
        value = longer(value, *digit)?;
    }
    Some(Number {
        value,
        end: text.len(),
    })
}

// The number whose digits begin at an index of a text and go on as far as they go. Zeros may lead.
// An index goes in and one comes out, and no slice: both are promised to callers.
pub fn read(text: &[u8], at: usize) -> Option<Number>
    ensures { result ≡ number_at text.now at }
{
    if !text.get(at)?.is_ascii_digit() {
        return None;
    }
    digits(text, at)
}
