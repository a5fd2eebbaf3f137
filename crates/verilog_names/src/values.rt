//! Names and numbers as values.
ghost use Rattle.std.specs.Prelude.{◌≡◌, ◌<◌, ◌≤◌, ◌++◌, ◌∷◌, [], length, take, not, MatchOption, IfSome, OnOk, OnErr};
ghost use Rattle.std.specs.List.{prefix_len};
ghost use Rattle.verilog_syntax.specs.VerilogTokens.{is_blank};
ghost use Rattle.verilog_names.specs.Values.{unescaped, decimal_value, bit_name};

use base_types::NoMemory;
use std::alloc::Global;
use token_forms::TokenText;
use verilog_syntax::is_blank;

fn name_len(bytes: &[u8]) -> usize
    ensures value { result ≡ prefix_len (λ c. not (is_blank c)) bytes.now }
    ensures within { result ≤ length bytes.now }
{
    bytes.iter().take_while(|b| !is_blank(**b)).count()
}

fn without_escape(text: &[u8]) -> &[u8]
    ensures value { result.now ≡ unescaped text.now }
{
    match text {
        [b'\\', name @ ..] => &name[..name_len(name)],
        _ => text,
    }
}

/// A name without its escape.
pub fn unescaped<'a>(name: &TokenText<'a>) -> &'a [u8]
    ensures value { result.now ≡ unescaped name.now }
{
    without_escape(name.text())
}

/// The value of a decimal, None where it exceeds a limit.
fn value_within(limit: u32, digits: &[u8]) -> Option<u32>
    requires limit { limit ≤ 65535 }
    ensures value { MatchOption result (limit < decimal_value digits.now) (λ v. decimal_value digits.now ≡ v) }
    ensures small { IfSome result (λ v. v ≤ limit) }
{
    let mut value = 0u32;
    for digit in digits {
        value = value * 10 + u32::from(digit.saturating_sub(b'0'));
        if value > limit {
            return None;
        }
    }
    Some(value)
}

/// The value of a decimal that is an index, None where it exceeds 65535.
pub fn index_value(digits: &[u8]) -> Option<u32>
    ensures value { MatchOption result (65535 < decimal_value digits.now) (λ v. decimal_value digits.now ≡ v) }
    ensures small { IfSome result (λ v. v ≤ 65535) }
{
    value_within(65535, digits)
}

/// Appends a name, an opening bracket, a number and a closing one; what stood before stays.
fn push_bracketed(out: &mut Vec<u8>, name: &[u8], number: &[u8]) -> Result<(), NoMemory>
    ensures value { OnOk result (out.new.items ≡ out.old.items ++ (name.now ++ (91 ∷ (number.now ++ (93 ∷ []))))) }
    ensures front { take (length out.old.items) out.new.items ≡ out.old.items }
{
    out.extend_from_slice(name)?;
    out.push(b'[')?;
    out.extend_from_slice(number)?;
    out.push(b']')?;
    Ok(())
}

/// Appends the plain name of a bit of a vector; want of memory leaves what stood there.
pub fn push_bit_name(
    alloc: Global,
    out: &mut Vec<u8>,
    name: &[u8],
    index: u32,
) -> Result<(), NoMemory>
    ensures value { OnOk result (out.new.items ≡ out.old.items ++ bit_name name.now index) }
    ensures unchanged { OnErr result (out.new.items ≡ out.old.items) }
{
    let number = format!(in alloc; "{index}")?;
    let len = out.len();
    match push_bracketed(out, name, number.as_bytes()) {
        Ok(()) => Ok(()),
        Err(NoMemory) => {
            out.truncate(len);
            Err(NoMemory)
        }
    }
}
