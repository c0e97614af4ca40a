// The numbers that a tag's value spells.
#![tactic(auto)]

ghost use Rattle.std.specs.Prelude.{◌≡◌, map, ◌-◌, ◌<◌, ◌^◌, pos, neg_ℤ, ◌-ℤ◌, true, length};
ghost use Rattle.std.proofs.Math.Option.{some};
ghost use Rattle.std.specs.Float.{inf};
ghost use Rattle.base.specs.Bytes.{same};
ghost use Rattle.cascade.specs.Number.{is_digit, lower_case, negative, unsigned, digits, after_digits, with_sign, ranged, as_integer, decimals, after_decimals, decimal_of, whole, signed, scaled, value_of, unsigned_number, tag_number};
ghost use Rattle.tag_number.specs.Told.{told, layer_told};
ghost use Rattle.tag_number.specs.Grown.{grown, grown_from, whole_text, written_power, power_of, decimal};

// Why a tag's value gives no number.
#[derive(Clone, Copy)]
pub enum NumberError {
    Malformed,
    OutOfRange,
}

// 10 ^ 0 to 10 ^ 22, which are exact.
const TENS: [f64; 23] = [
    1.0,
    10.0,
    100.0,
    1000.0,
    10000.0,
    100000.0,
    1000000.0,
    10000000.0,
    100000000.0,
    1000000000.0,
    10000000000.0,
    100000000000.0,
    1000000000000.0,
    10000000000000.0,
    100000000000000.0,
    1000000000000000.0,
    10000000000000000.0,
    100000000000000000.0,
    1000000000000000000.0,
    10000000000000000000.0,
    100000000000000000000.0,
    1000000000000000000000.0,
    10000000000000000000000.0,
];

// The number that a tag's value spells, as Rust reads an f64, where one operation on exact operands gives it.
#[tactic(auto, unfolding(cascade::specs::Number::tag_number))]
pub fn tag_number(v: &[u8]) -> Result<f64, NumberError>
    ensures { result ≡ told (tag_number v.now) }
{
    let (minus, t) = split_sign(v);
    unsigned_number(t, minus)
}

// The i64 that a tag's value spells, as Rust reads it.
pub fn layer_tag(v: &[u8]) -> Option<i64>
    ensures { result ≡ layer_told (as_integer v.now) }
{
    let (minus, t) = split_sign(v);
    if is_whole_text(t) {
        return layer_of(minus, spell(t, 0));
    }
    None
}

// A layer of a sign and a size.
fn layer_of(minus: bool, n: u64) -> Option<i64>
    ensures { result ≡ layer_told (ranged (some (with_sign minus n))) }
{
    if minus {
        return 0i64.checked_sub_unsigned(n);
    }
    i64::try_from(n).ok()
}

// What stands behind the sign: a word or a decimal.
#[tactic(auto, using(crate::proofs::Decimals::nan_read), unfolding(cascade::specs::Number::unsigned_number, crate::specs::Told::told))]
fn unsigned_number(t: &[u8], minus: bool) -> Result<f64, NumberError>
    ensures { result ≡ told (unsigned_number minus t.now) }
{
    if is_word(t, b"inf") || is_word(t, b"infinity") {
        return Ok(infinite(minus));
    }
    if is_word(t, b"nan") {
        return Ok(f64::NAN);
    }
    decimal_number(t, minus)
}

// An infinity.
fn infinite(minus: bool) -> f64
    ensures { result ≡ inf minus }
{
    if minus {
        f64::NEG_INFINITY
    } else {
        f64::INFINITY
    }
}

// Whether a text is a word, in any case.
fn is_word(t: &[u8], w: &[u8]) -> bool
    ensures { result ≡ same (map lower_case t.now) (map lower_case w.now) }
{
    t.eq_ignore_ascii_case(w)
}

// Digits, a dot and digits, and an exponent.
fn decimal_number(t: &[u8], minus: bool) -> Result<f64, NumberError>
    ensures { result ≡ told (value_of (decimal_of minus t.now)) }
{
    let (ds, r) = split_digits(t);
    let (fs, e) = split_decimals(r);
    let (down, p) = power_of(e).ok_or(NumberError::Malformed)?;
    let n = fs.len();
    if ds.len() + n == 0 {
        return Err(NumberError::Malformed);
    }
    value_of(minus, spell(fs, spell(ds, 0)), down, p, n)
}

// The sign and the digits of a number that a float holds as they are.
#[derive(Clone, Copy)]
struct Significand {
    minus: bool,
    d: u64,
    ghost exact: { d < 2 ^ 53 },
}

// The number of digits d and the exponent ± p less n decimals.
#[tactic(auto, unfolding(cascade::specs::Number::value_of, crate::specs::Told::told))]
fn value_of(minus: bool, d: u64, down: bool, p: u64, n: usize) -> Result<f64, NumberError>
    requires { n < 2 ^ 63 }
    ensures { result ≡ told (value_of (some (decimal minus d (with_sign down p -ℤ pos n)))) }
{
    if d == 0 {
        return Ok(with_sign(Significand { minus, d: 0 }));
    }
    if d < 9007199254740992 {
        return scale(Significand { minus, d }, down, p, n as u64);
    }
    Err(NumberError::OutOfRange)
}

// x times ten to the exponent ± p less n.
fn scale(x: Significand, down: bool, p: u64, n: u64) -> Result<f64, NumberError>
    requires { n < 2 ^ 63 }
    ensures { result ≡ told (scaled x.minus x.d (with_sign down p -ℤ pos n)) }
{
    if down {
        if 22 < p {
            return Err(NumberError::OutOfRange);
        }
        return divide(x, p + n);
    }
    if p < n {
        return divide(x, n - p);
    }
    multiply(x, p - n)
}

// One multiplication of exact operands.
#[tactic(auto, unfolding(cascade::specs::Number::scaled, crate::specs::Told::told))]
fn multiply(x: Significand, k: u64) -> Result<f64, NumberError>
    ensures { result ≡ told (scaled x.minus x.d (pos k)) }
{
    if k <= 22 {
        return Ok(with_sign(x) * ten(k as usize));
    }
    Err(NumberError::OutOfRange)
}

// One division of exact operands; by 10 ^ 0 it is the multiplication.
fn divide(x: Significand, k: u64) -> Result<f64, NumberError>
    ensures { result ≡ told (scaled x.minus x.d (neg_ℤ (pos k))) }
{
    if k == 0 {
        return multiply(x, 0);
    }
    if k <= 22 {
        return Ok(with_sign(x) / ten(k as usize));
    }
    Err(NumberError::OutOfRange)
}

// 10 ^ k.
fn ten(k: usize) -> f64
    requires { k < 23 }
    ensures { result ≡ whole (10 ^ k) }
{
    TENS[k]
}

// d with its sign.
fn with_sign(x: Significand) -> f64
    ensures { result ≡ signed x.minus x.d }
{
    let d = x.d as f64;
    if x.minus { -d } else { d }
}

// Whether a minus stands first, and what follows an optional sign.
#[tactic(auto, unfolding(cascade::specs::Number::negative, cascade::specs::Number::unsigned))]
fn split_sign(v: &[u8]) -> (bool, &[u8])
    ensures minus { result.0 ≡ negative v.now }
    ensures rest { result.1.now ≡ unsigned v.now }
{
    match v {
        [b'-', rest @ ..] => (true, rest),
        [b'+', rest @ ..] => (false, rest),
        _ => (false, v),
    }
}

fn is_digit(b: u8) -> bool
    ensures { result ≡ is_digit b }
{
    b.is_ascii_digit()
}

// How many digits stand first.
fn digit_count(v: &[u8]) -> usize
    ensures { result ≡ length (digits v.now) }
{
    v.iter().position(|b| !is_digit(*b)).unwrap_or(v.len())
}

// The digits that stand first, and what follows them.
fn split_digits(v: &[u8]) -> (&[u8], &[u8])
    ensures first { result.0.now ≡ digits v.now }
    ensures rest { result.1.now ≡ after_digits v.now }
{
    v.split_at(digit_count(v))
}

// The digits behind a dot, and what follows them.
#[tactic(auto, unfolding(cascade::specs::Number::decimals, cascade::specs::Number::after_decimals))]
fn split_decimals(v: &[u8]) -> (&[u8], &[u8])
    ensures first { result.0.now ≡ decimals v.now }
    ensures rest { result.1.now ≡ after_decimals v.now }
{
    match v {
        [b'.', rest @ ..] => split_digits(rest),
        _ => v.split_at(0),
    }
}

// Whether a text is digits, at least one, and nothing else.
fn is_whole_text(v: &[u8]) -> bool
    ensures { result ≡ whole_text v.now }
{
    !v.is_empty() && digit_count(v) == v.len()
}

// The exponent that a text is.
#[tactic(auto, unfolding(base::specs::Choice::pick, crate::specs::Grown::power_of))]
fn power_of(v: &[u8]) -> Option<(bool, u64)>
    ensures { result ≡ power_of v.now }
{
    match v {
        [] => Some((false, 0)),
        [b'e' | b'E', rest @ ..] => written_power(rest),
        _ => None,
    }
}

// The exponent behind its letter.
#[tactic(auto, unfolding(base::specs::Choice::pick, crate::specs::Grown::written_power))]
fn written_power(v: &[u8]) -> Option<(bool, u64)>
    ensures { result ≡ written_power v.now }
{
    let (minus, t) = split_sign(v);
    is_whole_text(t).then_some((minus, spell(t, 0)))
}

// The whole number that digits spell behind a number, as far as it is needed.
fn spell(v: &[u8], start: u64) -> u64
    ensures { result ≡ grown_from start v.now }
{
    v.iter().fold(start, |n, &b| grow(n, b))
}

// A number with one digit more; where there may be no room for it, the largest.
#[tactic(auto, unfolding(base::specs::Choice::pick, crate::specs::Grown::grown))]
fn grow(n: u64, b: u8) -> u64
    ensures { result ≡ grown n b }
{
    if n < 1844674407370955140 {
        return n * 10 + digit_of(b);
    }
    u64::MAX
}

fn digit_of(b: u8) -> u64
    ensures { result ≡ b - 48 }
{
    u64::from(b.saturating_sub(b'0'))
}
