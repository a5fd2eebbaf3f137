//! The kinds of bytes in a Verilog text (IEEE 1364-2005, section 3).
ghost use Rattle.std.specs.Prelude.{◌≡◌};
ghost use Rattle.verilog_syntax.specs.VerilogTokens.{is_blank, is_digit, is_word_start, is_word};

/// 1 at a blank, 2 at a letter or `_`, 3 at a digit, 4 at `$`
#[rattlefmt::skip]
static KINDS: [u8; 256] = [
    0, 0, 0, 0, 0, 0, 0, 0, 0, 1, 1, 0, 0, 1, 0, 0,
    0, 0, 0, 0, 0, 0, 0, 0, 0, 0, 0, 0, 0, 0, 0, 0,
    1, 0, 0, 0, 4, 0, 0, 0, 0, 0, 0, 0, 0, 0, 0, 0,
    3, 3, 3, 3, 3, 3, 3, 3, 3, 3, 0, 0, 0, 0, 0, 0,
    0, 2, 2, 2, 2, 2, 2, 2, 2, 2, 2, 2, 2, 2, 2, 2,
    2, 2, 2, 2, 2, 2, 2, 2, 2, 2, 2, 0, 0, 0, 0, 2,
    0, 2, 2, 2, 2, 2, 2, 2, 2, 2, 2, 2, 2, 2, 2, 2,
    2, 2, 2, 2, 2, 2, 2, 2, 2, 2, 2, 0, 0, 0, 0, 0,
    0, 0, 0, 0, 0, 0, 0, 0, 0, 0, 0, 0, 0, 0, 0, 0,
    0, 0, 0, 0, 0, 0, 0, 0, 0, 0, 0, 0, 0, 0, 0, 0,
    0, 0, 0, 0, 0, 0, 0, 0, 0, 0, 0, 0, 0, 0, 0, 0,
    0, 0, 0, 0, 0, 0, 0, 0, 0, 0, 0, 0, 0, 0, 0, 0,
    0, 0, 0, 0, 0, 0, 0, 0, 0, 0, 0, 0, 0, 0, 0, 0,
    0, 0, 0, 0, 0, 0, 0, 0, 0, 0, 0, 0, 0, 0, 0, 0,
    0, 0, 0, 0, 0, 0, 0, 0, 0, 0, 0, 0, 0, 0, 0, 0,
    0, 0, 0, 0, 0, 0, 0, 0, 0, 0, 0, 0, 0, 0, 0, 0,
];

/// A space, a tab, a line feed or a carriage return.
#[inline(always)]
pub fn is_blank(b: u8) -> bool
    ensures value { result ≡ is_blank b }
{
    KINDS[usize::from(b)] == 1
}

/// A letter or `_`.
#[inline(always)]
pub fn is_word_start(b: u8) -> bool
    ensures value { result ≡ is_word_start b }
{
    KINDS[usize::from(b)] == 2
}

/// A decimal digit.
#[inline(always)]
pub fn is_digit(b: u8) -> bool
    ensures value { result ≡ is_digit b }
{
    KINDS[usize::from(b)] == 3
}

/// A letter, a digit, `_` or `$`.
#[inline(always)]
pub fn is_word(b: u8) -> bool
    ensures value { result ≡ is_word b }
{
    KINDS[usize::from(b)] > 1
}
