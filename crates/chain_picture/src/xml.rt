//! Texts of XML.
ghost use Rattle.std.specs.Prelude.{◌≡◌, ◌++◌, ◌∷◌, [], ◌<◌, codes, decimal, OnOk};
ghost use Rattle.std.specs.Fmt.{signed_decimal};
ghost use Rattle.chain_picture.specs.Xml.{attribute, digit, escaped, escaped_byte, place, size};

use base_types::{NoMemory, Point};
use itoa::Buffer;

/// Appends a whole number of no sign.
pub(crate) fn push_size(text: &mut Vec<u8>, n: u128) -> Result<(), NoMemory>
    ensures value { OnOk result (text.new.items ≡ text.old.items ++ decimal n) }
{
    let mut digits = Buffer::new();
    text.extend_from_slice(digits.format(n).as_bytes())?;
    Ok(())
}

/// Appends the first coordinate of a point.
pub(crate) fn push_x(text: &mut Vec<u8>, p: Point) -> Result<(), NoMemory>
    ensures value { OnOk result (text.new.items ≡ text.old.items ++ signed_decimal p.x) }
{
    let mut digits = Buffer::new();
    text.extend_from_slice(digits.format(p.x).as_bytes())?;
    Ok(())
}

/// Appends the second one.
pub(crate) fn push_y(text: &mut Vec<u8>, p: Point) -> Result<(), NoMemory>
    ensures value { OnOk result (text.new.items ≡ text.old.items ++ signed_decimal p.y) }
{
    let mut digits = Buffer::new();
    text.extend_from_slice(digits.format(p.y).as_bytes())?;
    Ok(())
}

/// Appends an attribute.
#[tactic(auto, unfolding(crate::specs::Xml::attribute))]
pub(crate) fn push_attribute(text: &mut Vec<u8>, name: &[u8], value: &[u8]) -> Result<(), NoMemory>
    ensures value { OnOk result (text.new.items ≡ text.old.items ++ attribute name.now value.now) }
{
    text.extend_from_slice(b" ")?;
    text.extend_from_slice(name)?;
    text.extend_from_slice(b"=\"")?;
    text.extend_from_slice(value)?;
    text.extend_from_slice(b"\"")?;
    Ok(())
}

/// Appends an attribute whose value is a size.
#[tactic(auto, unfolding(crate::specs::Xml::size))]
pub(crate) fn push_size_of(text: &mut Vec<u8>, name: &[u8], n: u128) -> Result<(), NoMemory>
    ensures value { OnOk result (text.new.items ≡ text.old.items ++ size name.now n) }
{
    let mut digits = Buffer::new();
    push_attribute(text, name, digits.format(n).as_bytes())
}

/// Appends an attribute whose value is the first coordinate of a point.
#[tactic(auto, unfolding(crate::specs::Xml::place))]
pub(crate) fn push_x_of(text: &mut Vec<u8>, name: &[u8], p: Point) -> Result<(), NoMemory>
    ensures value { OnOk result (text.new.items ≡ text.old.items ++ place name.now p.x) }
{
    let mut digits = Buffer::new();
    push_attribute(text, name, digits.format(p.x).as_bytes())
}

/// Appends an attribute whose value is the second one.
#[tactic(auto, unfolding(crate::specs::Xml::place))]
pub(crate) fn push_y_of(text: &mut Vec<u8>, name: &[u8], p: Point) -> Result<(), NoMemory>
    ensures value { OnOk result (text.new.items ≡ text.old.items ++ place name.now p.y) }
{
    let mut digits = Buffer::new();
    push_attribute(text, name, digits.format(p.y).as_bytes())
}

/// One of the sixteen digits.
fn digit(n: u8) -> u8
    requires small { n < 16 }
    ensures value { result ≡ digit n }
{
    b"0123456789ABCDEF"[n as usize]
}

/// Appends a byte of a name.
fn push_byte(text: &mut Vec<u8>, byte: u8) -> Result<(), NoMemory>
    ensures value { OnOk result (text.new.items ≡ text.old.items ++ escaped_byte byte) }
{
    if byte == 38 {
        text.extend_from_slice(b"&amp;")?;
    } else if byte == 60 {
        text.extend_from_slice(b"&lt;")?;
    } else if byte == 62 {
        text.extend_from_slice(b"&gt;")?;
    } else if byte == 34 {
        text.extend_from_slice(b"&quot;")?;
    } else if 31 < byte && byte < 127 && byte != 92 {
        text.push(byte)?;
    } else {
        text.extend_from_slice(&[92, 120, digit(byte / 16), digit(byte % 16)])?;
    }
    Ok(())
}

/// Appends a name, whatever bytes it holds.
pub(crate) fn push_escaped(text: &mut Vec<u8>, name: &[u8]) -> Result<(), NoMemory>
    ensures value { OnOk result (text.new.items ≡ text.old.items ++ escaped name.now) }
{
    for byte in name {
        push_byte(text, *byte)?;
    }
    Ok(())
}
