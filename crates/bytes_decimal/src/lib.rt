// Numbers in decimal: their digits, and what is read of digits.
#![tactic(auto)]

ghost use Rattle.std.specs.Prelude.{◌≡◌};
ghost use Rattle.std.proofs.Math.Option.{some};
ghost use Rattle.spec_lists.specs.Options.{optional_of};
ghost use Rattle.spec_decimal.specs.Decimal.{read_decimal, negative, read_signed_decimal};
ghost use Rattle.bytes_decimal.specs.Read.{with_digit, read_digits};
ghost use Rattle.bytes_decimal.specs.Print.{HoldsDigits};

// A number's digits: those from index start on.
#[derive(Clone, Copy)]
pub struct Digits {
    pub bytes: [u8; Digits::MOST],
    pub start: usize,
}

impl Digits {
    // A u64 has no more.
    pub const MOST: usize = 20;
}

// The number n with one digit more after its own.
fn with_digit(n: u64, byte: u8) -> Option<u64>
    ensures { optional_of result ≡ with_digit n byte }
{
    if !byte.is_ascii_digit() {
        return None;
    }
    n.checked_mul(10)?.checked_add(u64::from(byte - b'0'))
}

// The number that the bytes spell, if all are digits; leading zeros are taken.
fn read_digits(text: &[u8]) -> Option<u64>
    ensures { optional_of result ≡ read_digits 0 text.now }
{
    let mut n = 0;
    for byte in text {
        n = with_digit(n, *byte)?;
    }
    Some(n)
}

#[tactic(auto, using(crate::proofs::Reading::none_empty, crate::proofs::Reading::leading_zero, crate::proofs::Reading::one_digit, crate::proofs::Reading::no_zero_leads))]
pub fn read_u64(text: &[u8]) -> Option<u64>
    ensures { optional_of result ≡ read_decimal text.now }
{
    match text {
        [] | [b'0', _, ..] => None,
        digits => read_digits(digits),
    }
}

// The number −n. The magnitude of the least i64 is no i64, so one less is made negative.
fn to_negative(n: u64) -> Option<i64>
    ensures { optional_of result ≡ negative (some n) }
{
    Some(-1 - i64::try_from(n.checked_sub(1)?).ok()?)
}

pub fn read_i64(text: &[u8]) -> Option<i64>
    ensures { optional_of result ≡ read_signed_decimal text.now }
{
    match text {
        [b'-', digits @ ..] => to_negative(read_u64(digits)?),
        digits => i64::try_from(read_u64(digits)?).ok(),
    }
}

// The digits of n at the end of an array, with zeros before them.
pub fn digits_of(n: u64) -> Digits
    ensures { HoldsDigits n result }
{
    let mut bytes = [0u8; Digits::MOST];
    let mut rest = n;
    let mut start: usize = Digits::MOST - 1;
    // The last digit ends the loop, not the last place: a `for` over the places would need a break and the place beside it.
    while 10 <= rest {
        bytes[start] = 48 + (rest % 10) as u8;
        rest = rest / 10;
        start -= 1;
    }
    bytes[start] = 48 + rest as u8;
    Digits { bytes, start }
}
