ghost use Rattle.std.specs.Prelude.{◌≡◌, ◌∷◌, [], ◌<◌, IfSome};
ghost use Rattle.ris_base.specs.Number.{number_of};
ghost use Rattle.ris_script.specs.Digits.{digit_of};

use ris_base::read_number;

/// The number that a field spells, by the rule of `read_number`, but without a loop where it has up to six digits.
/// `None` exactly where the field spells none.
pub(crate) fn number_in(field: &[u8]) -> Option<u64>
    ensures { result ≡ number_of field.now }
{
    match field {
        [a] => one_digit(*a),
        [a, b] => two_digits(*a, *b),
        [a, b, c] => three_digits(*a, *b, *c),
        [a, b, c, d] => four_digits(*a, *b, *c, *d),
        [a, b, c, d, e] => five_digits(*a, *b, *c, *d, *e),
        [a, b, c, d, e, f] => six_digits(*a, *b, *c, *d, *e, *f),
        _ => read_number(field),
    }
}

/// The number that one byte spells. `None` exactly where it spells none.
#[inline(always)]
#[tactic(auto, using(crate::proofs::DigitLemmas::one_digit))]
fn one_digit(a: u8) -> Option<u64>
    ensures value { result ≡ number_of (a ∷ []) }
    ensures small { IfSome result (λ value. value < 10) }
{
    digit(a)
}

/// The number that two bytes spell. `None` exactly where they spell none.
#[inline(always)]
#[tactic(auto, using(crate::proofs::DigitLemmas::two_digits))]
fn two_digits(a: u8, b: u8) -> Option<u64>
    ensures value { result ≡ number_of (a ∷ b ∷ []) }
    ensures small { IfSome result (λ value. value < 100) }
{
    Some(10 * one_digit(a)? + digit(b)?)
}

/// The number that three bytes spell. `None` exactly where they spell none.
#[inline(always)]
#[tactic(auto, using(crate::proofs::DigitLemmas::three_digits))]
fn three_digits(a: u8, b: u8, c: u8) -> Option<u64>
    ensures value { result ≡ number_of (a ∷ b ∷ c ∷ []) }
    ensures small { IfSome result (λ value. value < 1000) }
{
    Some(10 * two_digits(a, b)? + digit(c)?)
}

/// The number that four bytes spell. `None` exactly where they spell none.
#[inline(always)]
#[tactic(auto, using(crate::proofs::DigitLemmas::four_digits))]
fn four_digits(a: u8, b: u8, c: u8, d: u8) -> Option<u64>
    ensures value { result ≡ number_of (a ∷ b ∷ c ∷ d ∷ []) }
    ensures small { IfSome result (λ value. value < 10000) }
{
    Some(10 * three_digits(a, b, c)? + digit(d)?)
}

/// The number that five bytes spell. `None` exactly where they spell none.
#[inline(always)]
#[tactic(auto, using(crate::proofs::DigitLemmas::five_digits))]
fn five_digits(a: u8, b: u8, c: u8, d: u8, e: u8) -> Option<u64>
    ensures value { result ≡ number_of (a ∷ b ∷ c ∷ d ∷ e ∷ []) }
    ensures small { IfSome result (λ value. value < 100000) }
{
    Some(10 * four_digits(a, b, c, d)? + digit(e)?)
}

/// The number that six bytes spell. `None` exactly where they spell none.
#[inline(always)]
#[tactic(auto, using(crate::proofs::DigitLemmas::six_digits))]
fn six_digits(a: u8, b: u8, c: u8, d: u8, e: u8, f: u8) -> Option<u64>
    ensures value { result ≡ number_of (a ∷ b ∷ c ∷ d ∷ e ∷ f ∷ []) }
    ensures small { IfSome result (λ value. value < 1000000) }
{
    Some(10 * five_digits(a, b, c, d, e)? + digit(f)?)
}

/// The value of a decimal digit. `None` exactly where the byte is none.
#[inline(always)]
fn digit(byte: u8) -> Option<u64>
    ensures value { result ≡ digit_of byte }
    ensures small { IfSome result (λ value. value < 10) }
{
    if byte.is_ascii_digit() {
        Some(u64::from(byte - b'0'))
    } else {
        None
    }
}
