//! The numbers of LEF and DEF.
ghost use Rattle.std.specs.Prelude.{◌≡◌, ◌≤◌, ◌+◌, ◌^◌, ◌*◌, ◌-◌, ◌==◌, not, min, true, length};
ghost use Rattle.std.specs.List.{list_all, prefix_len};
ghost use Rattle.std.specs.Str.Parse.{digits_value};
ghost use Rattle.def_tokens.specs.Numbers.{is_digit, has_minus, unsigned, with_sign, is_integer, integer_of, whole_of, fraction_of, is_decimal, decimal_of};

/// The greatest size of a decimal, in millionths.
const MOST_MILLIONTHS: u128 = 2_000_000_000_000;

fn has_minus(bytes: &[u8]) -> bool
    ensures value { result ≡ has_minus bytes.now }
{
    matches!(bytes, [b'-', ..])
}

/// The bytes behind a sign, or all where none stands first.
fn unsigned(bytes: &[u8]) -> &[u8]
    ensures value { result.now ≡ unsigned bytes.now }
{
    match bytes {
        [b'+' | b'-', digits @ ..] => digits,
        _ => bytes,
    }
}

fn are_digits(bytes: &[u8]) -> bool
    ensures value { result ≡ list_all is_digit bytes.now }
{
    bytes.iter().all(|b| b.is_ascii_digit())
}

/// The number that digits write; the greatest of 64 bits where it is greater.
fn digits_value(digits: &[u8]) -> u64
    requires digits { list_all is_digit digits.now ≡ true }
    ensures value { result ≡ min (digits_value 10 digits.now) (2 ^ 64 - 1) }
{
    let mut value: u64 = 0;
    for digit in digits {
        value = value
            .saturating_mul(10)
            .saturating_add(u64::from(*digit - b'0'));
    }
    value
}

fn with_sign(bytes: &[u8], size: u64) -> i128
    ensures value { result ≡ with_sign bytes.now size }
{
    if has_minus(bytes) {
        -i128::from(size)
    } else {
        i128::from(size)
    }
}

/// An optional `+` or `-`, and one digit or more (LEF/DEF 5.8). Takes no memory.
pub fn is_integer(bytes: &[u8]) -> bool
    ensures value { result ≡ is_integer bytes.now }
{
    let digits = unsigned(bytes);
    are_digits(digits) && !digits.is_empty()
}

/// The value of an integer; None exactly where the bytes are no integer or it lies outside `i64`. Takes no memory.
#[tactic(auto, unfolding(crate::specs::Numbers::integer_of))]
pub fn read_integer(bytes: &[u8]) -> Option<i64>
    ensures value { result ≡ integer_of bytes.now }
{
    if !is_integer(bytes) {
        return None;
    }
    let size = digits_value(unsigned(bytes));
    i64::try_from(with_sign(bytes, size)).ok()
}

/// How many bytes stand before the first point; all where there is none.
fn point_at(digits: &[u8]) -> usize
    ensures value { result ≡ prefix_len (λ b. not (b == 46)) digits.now }
    ensures within { result ≤ length digits.now }
{
    digits.iter().take_while(|b| **b != b'.').count()
}

/// The digits before a decimal's point, and those behind it.
fn parts(bytes: &[u8]) -> (&[u8], &[u8])
    ensures whole { result.0.now ≡ whole_of bytes.now }
    ensures fraction { result.1.now ≡ fraction_of bytes.now }
{
    let digits = unsigned(bytes);
    let (whole, rest) = digits.split_at(point_at(digits));
    match rest {
        [_, fraction @ ..] => (whole, fraction),
        [] => (whole, rest),
    }
}

/// An optional `+` or `-`, and digits, optionally with a point before, among or behind them, one digit at least; no exponent
/// (LEF/DEF 5.8). Takes no memory.
pub fn is_decimal(bytes: &[u8]) -> bool
    ensures value { result ≡ is_decimal bytes.now }
{
    let (whole, fraction) = parts(bytes);
    are_digits(whole) && are_digits(fraction) && 0 < whole.len() + fraction.len()
}

/// The value of a decimal in millionths; None exactly where the bytes are no decimal, have more than six digits behind the
/// point, or exceed two millions in size. Takes no memory.
#[tactic(auto, unfolding(crate::specs::Numbers::decimal_of))]
pub fn read_decimal(bytes: &[u8]) -> Option<i64>
    ensures value { result ≡ decimal_of bytes.now }
{
    let (whole, fraction) = parts(bytes);
    if !is_decimal(bytes) || fraction.len() > 6 {
        return None;
    }
    let size = millionths(whole, fraction);
    if size > MOST_MILLIONTHS {
        return None;
    }
    Some(with_sign(bytes, size as u64) as i64)
}

/// The size of a decimal with these digits before and behind its point, in millionths; of a very large one, some large one.
fn millionths(whole: &[u8], fraction: &[u8]) -> u128
    requires whole { list_all is_digit whole.now ≡ true }
    requires fraction { list_all is_digit fraction.now ≡ true }
    requires short { length fraction.now ≤ 6 }
    ensures value { result ≡ min (digits_value 10 whole.now) (2 ^ 64 - 1) * 10 ^ 6 + digits_value 10 fraction.now * 10 ^ (6 - length fraction.now) }
{
    let scale = 10_u128.pow(6 - fraction.len() as u32);
    u128::from(digits_value(whole)) * 1_000_000 + u128::from(digits_value(fraction)) * scale
}
