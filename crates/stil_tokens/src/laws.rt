//! Laws of the definitions, each carried by a contract.
ghost use Rattle.stil_tokens.specs.StilSplit.{OnlyLaw};
ghost use Rattle.stil_tokens.specs.StilStatements.{OnlyStatementsLaw, StatementsLaw, FirstLaw};

/// Only the tokens of a STIL text are a split of it: what a split is says all. It does nothing; its contract is the law.
pub fn split_law()
    ensures only { OnlyLaw }
{}

/// Tokens have one split into statements, which is what `statement_len` cuts from them, one after the other. It does
/// nothing; its contract is the law.
pub fn statement_law()
    ensures split { StatementsLaw }
    ensures only { OnlyStatementsLaw }
    ensures first { FirstLaw }
{}
