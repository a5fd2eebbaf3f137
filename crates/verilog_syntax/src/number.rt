ghost use Rattle.std.specs.Prelude.{◌≡◌, ◌≤◌, length};
ghost use Rattle.std.specs.List.{prefix_len};
ghost use Rattle.verilog_syntax.specs.VerilogTokens.{is_digit, is_digit_of, digits_len, based_len, number_len};

/// A digit of a constant with this base letter, `b`, `o`, `d` or `h` of either case.
#[tactic(auto, unfolding(crate::specs::VerilogTokens::is_digit_of))]
pub fn is_digit_of(base: u8, digit: u8) -> bool
    ensures { result ≡ is_digit_of base digit }
{
    let unknown = matches!(digit, b'x' | b'z' | b'X' | b'Z' | b'?');
    if base == b'b' || base == b'B' {
        digit == b'0' || digit == b'1' || unknown
    } else if base == b'o' || base == b'O' {
        matches!(digit, b'0'..=b'7') || unknown
    } else if base == b'd' || base == b'D' {
        digit.is_ascii_digit()
    } else if base == b'h' || base == b'H' {
        digit.is_ascii_hexdigit() || unknown
    } else {
        false
    }
}

/// How far the digits of this base go on, with `_` between two of them.
fn digits_len(base: u8, bytes: &[u8]) -> usize
    ensures value { result ≡ digits_len base bytes.now }
    ensures within { result ≤ length bytes.now }
{
    let mut len = 0;
    let mut at = 0;
    while at < bytes.len() {
        if is_digit_of(base, bytes[at]) {
            len = at + 1;
        } else if bytes[at] != b'_' {
            return len;
        }
        at += 1;
    }
    len
}

/// Behind a decimal, what makes it a constant: the quote, the base letter and the digits.
#[tactic(auto, unfolding(crate::specs::VerilogTokens::based_len))]
fn based_len(bytes: &[u8]) -> usize
    ensures value { result ≡ based_len bytes.now }
    ensures within { result ≤ length bytes.now }
{
    match bytes {
        [b'\'', base, digit, rest @ ..] if is_digit_of(*base, *digit) => 3
            + digits_len(*base, rest),
        _ => 0,
    }
}

fn digit_len(bytes: &[u8]) -> usize
    ensures value { result ≡ prefix_len is_digit bytes.now }
    ensures within { result ≤ length bytes.now }
{
    bytes.iter().take_while(|b| b.is_ascii_digit()).count()
}

/// Behind a digit, how far the decimal or the constant goes on.
#[tactic(auto, unfolding(crate::specs::VerilogTokens::number_len))]
pub fn number_len(bytes: &[u8]) -> usize
    ensures value { result ≡ number_len bytes.now }
    ensures within { result ≤ length bytes.now }
{
    let (digits, rest) = bytes.split_at(digit_len(bytes));
    digits.len() + based_len(rest)
}
