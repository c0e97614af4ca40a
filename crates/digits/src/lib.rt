// Whole numbers and their decimal digits.
#![tactic(auto)]

ghost use Rattle.std.specs.Prelude.{◌≡◌, true, not, T, is_nan};
ghost use Rattle.base.specs.Bytes.{same};
ghost use Rattle.sheet.specs.Digits.{has_minus, unsigned_of, size_of, is_whole, natural_digits, digits_for};

// Whether a number of a text test is whole: at most 2 ^ 53 - 1 in size, without a fraction.
pub fn is_whole(x: f64) -> bool
    ensures { result ≡ is_whole x }
{
    if x.is_nan() {
        return false;
    }
    let a = without_sign(x);
    a < 9007199254740992.0 && std::num::truncating_f64_to_u64(a) as f64 == a
}

// Whether a text is the decimal digits of a whole number; of any other number it is no text.
#[tactic(auto, unfolding(sheet::specs::Digits::digits_for, base::specs::Choice::pick, base::specs::Bytes::same), using(crate::proofs::Wholes::whole_number_lem, crate::proofs::Written::same_none))]
pub fn is_digits_of(v: &[u8], x: f64) -> bool
    ensures { result ≡ same v.now (digits_for x) }
{
    if is_whole(x) {
        let n = size_of(x);
        if has_minus(x) {
            return match v {
                [b'-', rest @ ..] => is_natural(rest, n),
                _ => false,
            };
        }
        return is_natural(v, n);
    }
    v.is_empty()
}

// Whether the sign bit is set.
fn has_minus(x: f64) -> bool
    requires { T (not (is_nan x)) }
    ensures { result ≡ has_minus x }
{
    x.is_sign_negative()
}

// A number without its sign.
fn without_sign(x: f64) -> f64
    requires { T (not (is_nan x)) }
    ensures { result ≡ unsigned_of x }
{
    x.abs()
}

// The size of a whole number.
fn size_of(x: f64) -> u64
    requires { is_whole x ≡ true }
    ensures { result ≡ size_of x }
{
    std::num::truncating_f64_to_u64(without_sign(x))
}

// Whether a text is the decimal digits of n, compared from the last one on.
fn is_natural(v: &[u8], n: u64) -> bool
    ensures { result ≡ same v.now (natural_digits n) }
{
    let mut rest = n;
    for i in (0..v.len()).rev() {
        let b = u64::from(v[i]);
        if rest < 10 {
            return i == 0 && b == 48 + rest;
        }
        if b != 48 + rest % 10 {
            return false;
        }
        rest /= 10;
    }
    false
}
