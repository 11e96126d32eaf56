// Fractions n/m of 32 bits: lowest terms, the order by cross products, the running least common multiple of
// denominators, and the whole ticks of a time. No quotient stands in for a fraction; no public call has a `requires`.
#![tactic(auto)]

ghost use Rattle.std.specs.Prelude.{◌≡◌, ◌*◌, ◌/◌};
ghost use Rattle.fraction.specs.Answer.{lowest, is_lowest, above, limit, limited, included, whole_ticks};
ghost use Rattle.euclid.specs.Answer.{gcd, lcm};

#[derive(Clone, Copy)]
pub struct Fraction {
    pub numerator: u32,
    pub denominator: u32,
}

// The largest multiple of denominators that a table takes: the tick is no finer than a millionth of a millisecond.
pub const LIMIT: u32 = 1_000_000;

// The whole product of two numbers of 32 bits.
fn product(a: u32, b: u32) -> u64
    ensures { result ≡ a * b }
{
    u64::from(a) * u64::from(b)
}

// A number of 32 bits divided by one of 64; by 0 it is 0, as the library's quotient is.
fn part(n: u32, divisor: u64) -> u32
    ensures { result ≡ n / divisor }
{
    // `as`, since the quotient is no larger than n; a `try_from` could not fail.
    u64::from(n).checked_div(divisor).unwrap_or(0) as u32
}

// The greatest common divisor of two numbers of 32 bits.
fn divisor_of(a: u32, b: u32) -> u64
    ensures { result ≡ gcd a b }
{
    euclid::common_divisor(u64::from(a), u64::from(b)).divisor
}

impl Fraction {
    // The same fraction in lowest terms: 0/m becomes 0/1. A fraction without a denominator is handed back as it came.
    #[tactic(auto, unfolding(crate::specs::Answer::lowest))]
    pub fn lowest(self) -> Fraction
        ensures { result ≡ lowest self }
    {
        if self.denominator == 0 {
            return self;
        }
        let divisor = divisor_of(self.numerator, self.denominator);
        Fraction {
            numerator: part(self.numerator, divisor),
            denominator: part(self.denominator, divisor),
        }
    }

    // Whether this fraction is in lowest terms. One without a denominator is not.
    #[tactic(auto, unfolding(crate::specs::Answer::is_lowest))]
    pub fn is_lowest(self) -> bool
        ensures { result ≡ is_lowest self }
    {
        self.denominator != 0 && divisor_of(self.numerator, self.denominator) == 1
    }

    // Whether this fraction is above the other, by cross products.
    // It is no PartialOrd, whose equality would be of values: 1/2 and 2/4 are two fractions.
    pub fn above(self, other: Fraction) -> bool
        ensures { result ≡ above self other }
    {
        product(other.numerator, self.denominator) < product(self.numerator, other.denominator)
    }

    // How many ticks this time is, where the tick is a fraction too. Where a denominator or the tick's numerator is 0
    // there is no whole number of ticks.
    #[tactic(auto, unfolding(crate::specs::Answer::whole_ticks))]
    pub fn ticks(self, tick: Fraction) -> Option<u64>
        ensures { result ≡ whole_ticks self tick }
    {
        let time = product(self.numerator, tick.denominator);
        let unit = product(self.denominator, tick.numerator);
        let rest = time.checked_rem(unit)?;
        (rest == 0).then_some(time / unit)
    }
}

// The multiple of some denominators and one more, as long as it is within the limit. Where it has passed the limit there is none,
// and stays none: so it takes an Option, as is promised.
pub fn including(multiple: Option<u32>, denominator: u32) -> Option<u32>
    ensures answer { result ≡ included multiple denominator }
    ensures constant { LIMIT ≡ limit }
{
    least(multiple?, denominator)
}

// The least common multiple of two numbers, or None where it is above the limit.
#[tactic(auto, unfolding(euclid::specs::Answer::lcm))]
fn least(a: u32, b: u32) -> Option<u32>
    ensures { result ≡ limited (lcm a b) }
{
    let multiple = u32::try_from(product(part(a, divisor_of(a, b)), b)).ok()?;
    (multiple <= LIMIT).then_some(multiple)
}
