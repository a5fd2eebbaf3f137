//! Lists in a text: a piece for each number.
ghost use Rattle.std.specs.Prelude.{◌≡◌, ◌<◌, ◌≤◌, ◌^◌, ℕ, List, ◌++◌, OnOk, string_bytes};
ghost use Rattle.design_maker.specs.Pieces.{pieces, between};

use base_types::NoMemory;

/// A piece of text for each number below a limit.
pub(crate) trait Piece {
    ghost piece: { Self → ℕ → List ℕ };

    ghost limit: { ℕ };

    /// Appends the piece of a number.
    fn push(&self, out: &mut String, number: u32) -> Result<(), NoMemory>
        requires { number < limit }
        ensures value { OnOk result (string_bytes out.new ≡ string_bytes out.old ++ piece self.now number) };
}

/// Appends a text.
pub(crate) fn push_text(out: &mut String, text: &str) -> Result<(), NoMemory>
    ensures value { OnOk result (string_bytes out.new ≡ string_bytes out.old ++ text.now) }
{
    out.push_str(text)?;
    Ok(())
}

/// Appends the pieces of the numbers below a count, in rising order.
pub(crate) fn push_pieces<P: Piece>(out: &mut String, each: &P, count: u32) -> Result<(), NoMemory>
    requires { count ≤ P.limit }
    ensures value { OnOk result (string_bytes out.new ≡ string_bytes out.old ++ pieces (P.piece each.now) count) }
{
    for number in 0..count {
        each.push(out, number)?;
    }
    Ok(())
}

/// Each number between two texts.
#[derive(Drop)]
pub(crate) struct Between {
    pub before: &'static str,
    pub after: &'static str,
}

impl Piece for Between {
    ghost piece = { λ b. between b.before.now b.after.now };

    ghost limit = { 2 ^ 32 };

    fn push(&self, out: &mut String, number: u32) -> Result<(), NoMemory> {
        let before = self.before;
        let after = self.after;
        write!(out, "{before}{number}{after}")?;
        Ok(())
    }
}
