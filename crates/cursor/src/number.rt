// Digits into a number, each step rounded once.
ghost use Rattle.std.specs.Prelude.{◌≡◌};
ghost use Rattle.cursor.specs.Number.{add_digit, times_odd, pow_ten, digit_added, dotted, takes_dot, size, sign, value, read_digits};

use crate::{Cursor, bump, to_digit};

// The digits before the dot and after it so far, how many stand after it, and whether it was read:
// number, number_after_dot, digits_after_dot and had_dot of the Rust.
#[derive(Clone, Copy)]
pub struct Sum {
    pub whole: f64,
    pub fraction: f64,
    pub places: usize,
    pub dot: bool,
}

#[derive(Clone, Copy)]
pub struct Digits {
    pub sum: Sum,
    pub end: Cursor,
}

// The digits and the one dot from c on, added to a sum.
pub fn read_digits(s: &[u8], c: Cursor, sum: Sum) -> Digits
    ensures { result ≡ read_digits s.now c sum }
{
    let mut d = c;
    let mut x = sum;
    while let Ok((k, e)) = d.next_char(s) {
        x = match to_digit(k, 10) {
            Some(v) => x.digit_added(v),
            None if x.takes_dot(k) => x.dotted(),
            None => break,
        };
        d = e;
    }
    Digits { sum: x, end: d }
}

impl Sum {
    fn digit_added(self, digit: u8) -> Self
        ensures { result ≡ digit_added self digit }
    {
        if self.dot {
            return Sum {
                fraction: add_digit(self.fraction, digit),
                places: bump(self.places),
                ..self
            };
        }
        Sum {
            whole: add_digit(self.whole, digit),
            ..self
        }
    }

    fn dotted(self) -> Self
        ensures { result ≡ dotted self }
    {
        Sum { dot: true, ..self }
    }

    fn takes_dot(self, k: u32) -> bool
        ensures { result ≡ takes_dot self k }
    {
        !self.dot && k == 46
    }

    // The whole part and the fraction.
    #[tactic(auto, unfolding(base::specs::Choice::pick, crate::specs::Number::size))]
    fn size(self) -> f64
        ensures { result ≡ size self }
    {
        if self.places == 0 {
            return self.whole;
        }
        self.whole + self.fraction / pow_ten(self.places)
    }

    #[tactic(auto, unfolding(crate::specs::Number::value))]
    pub fn value(self, minus: bool) -> f64
        ensures { result ≡ value self minus }
    {
        sign(minus) * self.size()
    }
}

#[tactic(auto, unfolding(base::specs::Choice::pick, crate::specs::Number::sign))]
fn sign(minus: bool) -> f64
    ensures { result ≡ sign minus }
{
    if minus { -1.0 } else { 1.0 }
}

#[tactic(auto, unfolding(crate::specs::Number::add_digit))]
fn add_digit(number: f64, digit: u8) -> f64
    ensures { result ≡ add_digit number digit }
{
    10.0 * number + f64::from(digit)
}

// 10 to the n: result × base on a set bit, from the low bit on, then base × base while bits remain.
pub fn pow_ten(n: usize) -> f64
    ensures { result ≡ pow_ten n }
{
    let mut result = 1.0;
    let mut base = 10.0;
    let mut left = n;
    loop {
        result = times_odd(left, result, base);
        left /= 2;
        if left == 0 {
            return result;
        }
        base = base * base;
    }
}

#[tactic(auto, unfolding(base::specs::Choice::pick, crate::specs::Number::times_odd))]
fn times_odd(n: usize, res: f64, base: f64) -> f64
    ensures { result ≡ times_odd n res base }
{
    if n % 2 == 1 { res * base } else { res }
}
