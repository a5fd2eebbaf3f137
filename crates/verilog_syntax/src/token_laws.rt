ghost use Rattle.verilog_syntax.specs.Seams.{TextsLaw, ReplacedLaw, PlainLaw, PlainBitLaw, EscapedLaw, EscapedBitLaw};
ghost use Rattle.verilog_syntax.specs.VerilogSplit.{OnlyLaw};

/// Only the tokens of a Verilog text are a split of it: what a split is says all. It does nothing; its contract is the
/// law.
pub fn split_law()
    ensures only { OnlyLaw }
{}

/// What a writer may rest on: where the tokens between two marks of a Verilog text are replaced, by a text with tokens
/// of its own, no other token changes. It does nothing; its contract is the law.
pub fn seam_law()
    ensures texts { TextsLaw }
    ensures replaced { ReplacedLaw }
{}

/// The texts of net bits have tokens of their own, which are these. It does nothing; its contract is the law.
pub fn name_law()
    ensures plain { PlainLaw }
    ensures plain_bit { PlainBitLaw }
    ensures escaped { EscapedLaw }
    ensures escaped_bit { EscapedBitLaw }
{}
