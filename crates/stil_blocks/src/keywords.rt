//! The names in UserKeywords.
ghost use Rattle.std.specs.Prelude.{◌≡◌, ◌++◌, ◌+◌, ℕ, length, OnOk, IfOk};
ghost use Rattle.std.specs.List.{flat_map};
ghost use Rattle.stil_syntax.specs.Shapes.{body_statements};
ghost use Rattle.stil_blocks.specs.Callees.{names_within, statement_keywords};

use crate::block::{behind_word, has_word, skip};
use base_types::{Name, NoMemory, Rows};
use std::alloc::Global;
use stil_syntax::{Stretch, body_statement};

/// Takes the name at the front and adds it; leaves the first token out where none stands there.
fn add_name(
    alloc: Global,
    rest: &mut Stretch<'_, '_>,
    names: &mut Rows<Name>,
) -> Result<(), NoMemory>
    ensures value { OnOk result ((n : ℕ) → names.new ++ names_within n rest.new ≡ names.old ++ names_within (n + 1) rest.old) }
{
    let mut behind = rest.again();
    match behind.name() {
        Some(name) => {
            let plain = name.to_plain_name(alloc)?;
            names.push(plain)?;
            *rest = behind;
            Ok(())
        }
        None => {
            skip(rest);
            Ok(())
        }
    }
}

/// Adds the names among some tokens.
fn add_names(
    alloc: Global,
    tokens: &Stretch<'_, '_>,
    names: &mut Rows<Name>,
) -> Result<(), NoMemory>
    ensures value { OnOk result (names.new ≡ names.old ++ names_within (length tokens.now) tokens.now) }
{
    let mut rest = tokens.again();
    let mut left = tokens.len();
    while 0 < left {
        add_name(alloc, &mut rest, names)?;
        left -= 1;
    }
    Ok(())
}

/// Adds the names of a statement of the head, if it is UserKeywords.
#[tactic(auto, unfolding(crate::specs::Callees::statement_keywords))]
fn add_keywords(alloc: Global, s: &Stretch<'_, '_>, names: &mut Rows<Name>) -> Result<(), NoMemory>
    ensures value { OnOk result (names.new ≡ names.old ++ statement_keywords s.now) }
{
    if !has_word(s, b"UserKeywords") {
        return Ok(());
    }
    add_names(alloc, &behind_word(s), names)
}

/// The names in the UserKeywords statements of a head.
pub fn read_keywords(alloc: Global, tokens: &Stretch<'_, '_>) -> Result<Rows<Name>, NoMemory>
    ensures value { IfOk result (λ names. names ≡ flat_map statement_keywords (body_statements tokens.now)) }
{
    let mut rest = tokens.again();
    let mut names = Rows::new(alloc);
    while let Some(s) = body_statement(&mut rest) {
        add_keywords(alloc, &s, &mut names)?;
    }
    Ok(names)
}
