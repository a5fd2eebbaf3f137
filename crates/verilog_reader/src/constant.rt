//! The bits of a constant.
ghost use Rattle.std.specs.Prelude.{◌≡◌, ℕ, ◌^◌, ◌%◌, ◌/◌, ◌<◌, ◌≤◌, ◌++◌, List, [], false, if◌then◌else◌, IfOk};
ghost use Rattle.std.specs.List.{flat_map};
ghost use Rattle.verilog_syntax.specs.VerilogTokens.{is_unknown};
ghost use Rattle.netlist_core.specs.declared.netlist.Bit.{Bit};
ghost use Rattle.verilog_names.specs.Values.{decimal_value};
ghost use Rattle.verilog_reader.specs.Constants.{constant_base, constant_digits, digit_width, digit_value, digit_bits, is_decimal_base, fill_of, bits_in, constant_bits};
ghost use Rattle.verilog_reader.specs.LastBits.{masked_bit, masked_bits, without_underscores, AreLastBits};
ghost use Rattle.verilog_checks.specs.Faults.{is_bad_size};

use base_types::{NoMemory, Rows};
use netlist_core::Bit;
use std::alloc::Global;
use verilog_checks::{constant_size, size_digits};

fn is_unknown(digit: u8) -> bool
    ensures value { result ≡ is_unknown digit }
{
    matches!(digit, b'x' | b'z' | b'X' | b'Z' | b'?')
}

fn is_decimal_base(base: u8) -> bool
    ensures value { result ≡ is_decimal_base base }
{
    base == b'd' || base == b'D'
}

fn radix_of(base: u8) -> u128
    ensures value { result ≡ 2 ^ digit_width base }
{
    if base == b'b' || base == b'B' {
        2
    } else if base == b'o' || base == b'O' {
        8
    } else {
        16
    }
}

fn digit_value(digit: u8) -> u8
    ensures value { result ≡ digit_value digit }
{
    if digit <= b'9' {
        digit.saturating_sub(b'0')
    } else if digit <= b'F' {
        digit - (b'A' - 10)
    } else {
        digit.saturating_sub(b'a' - 10)
    }
}

/// The last bits of a constant: which are 1, and which are unknown. A size is at most 128, so those before them never show.
#[derive(Clone, Copy)]
struct LastBits {
    ones: u128,
    unknown: u128,
}

/// The bits of one digit.
fn digit_bits(base: u8, digit: u8) -> LastBits
    ensures value { masked_bits (digit_width base) result.ones result.unknown ≡ digit_bits (digit_width base) digit }
    ensures ones { result.ones < 2 ^ digit_width base }
    ensures unknown { result.unknown < 2 ^ digit_width base }
{
    let radix = radix_of(base);
    if is_unknown(digit) {
        LastBits {
            ones: 0,
            unknown: radix - 1,
        }
    } else {
        LastBits {
            ones: u128::from(digit_value(digit)) % radix,
            unknown: 0,
        }
    }
}

/// Puts a digit behind the others; the first bits are lost.
fn with_digit(last: LastBits, base: u8, digit: u8) -> LastBits
    ensures value { (fill : Bit) (bits : List Bit) → AreLastBits fill bits last → AreLastBits fill (bits ++ digit_bits (digit_width base) digit) result }
{
    let radix = radix_of(base);
    let added = digit_bits(base, digit);
    LastBits {
        ones: last.ones.wrapping_mul(radix).wrapping_add(added.ones),
        unknown: last.unknown.wrapping_mul(radix).wrapping_add(added.unknown),
    }
}

/// Whether the first digit is unknown.
fn begins_unknown(digits: &[u8]) -> bool
    ensures value { (if result then Bit.Unknown else Bit.Zero) ≡ fill_of (without_underscores digits.now) }
{
    for digit in digits {
        if *digit != b'_' {
            return is_unknown(*digit);
        }
    }
    false
}

/// What stands in front of the digits: zeros, or unknown bits where the first digit is one.
fn fill(digits: &[u8]) -> LastBits
    ensures value { AreLastBits (fill_of (without_underscores digits.now)) [] result }
{
    let unknown = if begins_unknown(digits) { u128::MAX } else { 0 };
    LastBits { ones: 0, unknown }
}

/// The bits of binary, octal or hexadecimal digits.
fn based_bits(base: u8, digits: &[u8]) -> LastBits
    ensures value { let plain_digits = without_underscores digits.now in AreLastBits (fill_of plain_digits) (flat_map (digit_bits (digit_width base)) plain_digits) result }
{
    let mut last = fill(digits);
    for digit in digits {
        if *digit != b'_' {
            last = with_digit(last, base, *digit);
        }
    }
    last
}

/// The last 128 bits of the number that decimal digits write.
fn decimal_bits(digits: &[u8]) -> u128
    ensures value { result ≡ decimal_value (without_underscores digits.now) % 2 ^ 128 }
{
    let mut value = 0u128;
    for digit in digits {
        if *digit != b'_' {
            let added = u128::from(digit.saturating_sub(b'0'));
            value = value.wrapping_mul(10).wrapping_add(added);
        }
    }
    value
}

fn last_bits(base: u8, digits: &[u8]) -> LastBits
    ensures value { (n : ℕ) → n ≤ 128 → masked_bits n result.ones result.unknown ≡ bits_in n base (without_underscores digits.now) }
{
    if is_decimal_base(base) {
        LastBits {
            ones: decimal_bits(digits),
            unknown: 0,
        }
    } else {
        based_bits(base, digits)
    }
}

fn bit_at(last: LastBits, place: u32) -> Bit
    requires place { place < 128 }
    ensures value { result ≡ masked_bit (last.ones / 2 ^ place % 2) (last.unknown / 2 ^ place % 2) }
{
    if (last.unknown >> place) % 2 != 0 {
        Bit::Unknown
    } else if (last.ones >> place) % 2 != 0 {
        Bit::One
    } else {
        Bit::Zero
    }
}

/// The last so many bits, from the left.
fn bits_of(alloc: Global, size: u32, last: LastBits) -> Result<Rows<Bit>, NoMemory>
    requires size { size ≤ 128 }
    ensures value { IfOk result (λ bits. bits ≡ masked_bits size last.ones last.unknown) }
{
    let mut bits = Vec::new(alloc);
    for place in (0..size).rev() {
        bits.push(bit_at(last, place))?;
    }
    Ok(Rows::of(bits))
}

/// The base letter and what stands behind it, 0 and nothing where no letter stands there.
fn base_and_digits(text: &[u8]) -> (u8, &[u8])
    ensures base { result.0 ≡ constant_base text.now }
    ensures digits { without_underscores result.1.now ≡ constant_digits text.now }
{
    match &text[size_digits(text).len()..] {
        [_, base, digits @ ..] => (*base, digits),
        _ => (0, &[]),
    }
}

/// The bits of a constant, from the left.
pub(crate) fn constant_bits(alloc: Global, text: &[u8]) -> Result<Rows<Bit>, NoMemory>
    requires size { is_bad_size text.now ≡ false }
    ensures value { IfOk result (λ bits. bits ≡ constant_bits text.now) }
{
    let size = constant_size(text);
    let (base, digits) = base_and_digits(text);
    bits_of(alloc, size, last_bits(base, digits))
}
