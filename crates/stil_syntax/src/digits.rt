//! Numbers written in digits.
ghost use Rattle.std.specs.Prelude.{◌≡◌, true};
ghost use Rattle.std.specs.List.{list_all};
ghost use Rattle.stil_syntax.specs.Digits.{is_digit, counted, count_from};

/// Whether the byte is a decimal digit.
pub fn is_digit(b: u8) -> bool
    ensures value { result ≡ is_digit b }
{
    b'0' <= b && b <= b'9'
}

/// A number with one digit more; the greatest where it would be greater.
pub fn counted(number: u64, digit: u8) -> u64
    requires digit { is_digit digit ≡ true }
    ensures value { result ≡ counted number digit }
{
    number
        .saturating_mul(10)
        .saturating_add(u64::from(digit - b'0'))
}

/// The number that digits write; the greatest where it would be greater.
pub fn count_from(digits: &[u8]) -> u64
    requires digits { list_all is_digit digits.now ≡ true }
    ensures value { result ≡ count_from 0 digits.now }
{
    let mut number = 0;
    let mut at = 0;
    while at < digits.len() {
        number = counted(number, digits[at]);
        at += 1;
    }
    number
}
