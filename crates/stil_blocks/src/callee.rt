//! Procedures and macros.
ghost use Rattle.std.specs.Prelude.{◌≡◌, ◌++◌, ◌&&◌, is_some, OnOk, IfOk};
ghost use Rattle.std.specs.List.{flat_map};
ghost use Rattle.stil_syntax.specs.Shapes.{body_statements};
ghost use Rattle.stil_blocks.specs.Chains.{listed};
ghost use Rattle.stil_blocks.specs.Callees.{begins_shift, holds_shift, callee_at, block_callees};

use crate::block::{behind_word, has_word, is_whole, opens, opens_named, start_of, take_text};
use base_types::{NoMemory, Rows};
use std::alloc::Global;
use stil_syntax::{Stretch, begins_behind, behind_labels, body_statement, in_block};
use stil_types::Callee;

/// A procedure or macro that is defined.
#[derive(Drop)]
pub struct ReadCallee {
    /// Where its statement begins.
    pub place: u32,
    /// Its name, and whether it holds a Shift.
    pub callee: Callee,
}

/// `Shift { .. }`
#[tactic(auto, unfolding(crate::specs::Callees::begins_shift))]
pub fn begins_shift(tokens: &Stretch<'_, '_>) -> bool
    ensures value { result ≡ begins_shift tokens.now }
{
    has_word(tokens, b"Shift") && opens(&behind_word(tokens))
}

/// Whether a Shift begins where a statement may begin or not.
pub fn shift_begins(begins: bool, tokens: &Stretch<'_, '_>) -> bool
    ensures value { result ≡ (begins && begins_shift tokens.now) }
{
    begins && begins_shift(tokens)
}

/// Whether the statements of a block hold a Shift, at whatever depth.
pub fn holds_shift(body: &Stretch<'_, '_>) -> bool
    ensures value { result ≡ holds_shift body.now }
{
    let mut rest = body.again();
    let mut begins = true;
    while rest.len() != 0 {
        if shift_begins(begins, &rest) {
            return true;
        }
        begins = begins_behind(take_text(&mut rest));
    }
    false
}

/// Whether a statement defines a procedure or macro: `name { .. }`.
#[tactic(auto, unfolding(crate::specs::Callees::callee_at, crate::specs::Statements::opens_named))]
pub fn is_callee(s: &Stretch<'_, '_>) -> bool
    ensures value { result ≡ is_some (callee_at s.now) }
{
    is_whole(s) && opens_named(&behind_labels(s))
}

/// The procedure or macro that a statement defines, if it is of its form.
#[tactic(auto, unfolding(crate::specs::Callees::callee_at))]
fn callee_at(alloc: Global, s: &Stretch<'_, '_>) -> Result<Option<ReadCallee>, NoMemory>
    ensures value { IfOk result (λ callee. callee ≡ callee_at s.now) }
{
    if !is_whole(s) {
        return Ok(None);
    }
    let mut rest = behind_labels(s);
    match rest.name() {
        Some(name) if opens(&rest) => {
            let callee = Callee {
                name: name.to_plain_name(alloc)?,
                scan: holds_shift(&in_block(s)),
            };
            let place = start_of(s);
            Ok(Some(ReadCallee { place, callee }))
        }
        _ => Ok(None),
    }
}

/// Adds the procedure or macro of a statement, if it is one.
fn add_callee(
    alloc: Global,
    s: &Stretch<'_, '_>,
    callees: &mut Rows<ReadCallee>,
) -> Result<(), NoMemory>
    ensures value { OnOk result (callees.new ≡ callees.old ++ listed (callee_at s.now)) }
{
    match callee_at(alloc, s)? {
        Some(callee) => {
            callees.push(callee)?;
            Ok(())
        }
        None => Ok(()),
    }
}

/// Adds the procedures or macros of a block.
fn add_callees(
    alloc: Global,
    block: &Stretch<'_, '_>,
    callees: &mut Rows<ReadCallee>,
) -> Result<(), NoMemory>
    ensures value { OnOk result (callees.new ≡ callees.old ++ flat_map (λ p. listed (callee_at p)) (body_statements block.now)) }
{
    let mut rest = block.again();
    while let Some(s) = body_statement(&mut rest) {
        add_callee(alloc, &s, callees)?;
    }
    Ok(())
}

/// Adds the procedures or macros of a statement of the head that has the word.
#[tactic(auto, unfolding(crate::specs::Callees::block_callees))]
fn add_block(
    alloc: Global,
    word: &[u8],
    s: &Stretch<'_, '_>,
    callees: &mut Rows<ReadCallee>,
) -> Result<(), NoMemory>
    ensures value { OnOk result (callees.new ≡ callees.old ++ block_callees word.now s.now) }
{
    if !has_word(s, word) {
        return Ok(());
    }
    add_callees(alloc, &in_block(s), callees)
}

/// The procedures or macros that a head defines under a word, in order.
pub fn read_callees(
    alloc: Global,
    word: &[u8],
    tokens: &Stretch<'_, '_>,
) -> Result<Rows<ReadCallee>, NoMemory>
    ensures value { IfOk result (λ callees. callees ≡ flat_map (block_callees word.now) (body_statements tokens.now)) }
{
    let mut rest = tokens.again();
    let mut callees = Rows::new(alloc);
    while let Some(s) = body_statement(&mut rest) {
        add_block(alloc, word, &s, &mut callees)?;
    }
    Ok(callees)
}
