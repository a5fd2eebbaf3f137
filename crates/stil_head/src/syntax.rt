//! Statements of no form.
ghost use Rattle.std.specs.Prelude.{◌≡◌, IfOk, OnOk, codes};
ghost use Rattle.std.specs.List.{flat_map, list_any};
ghost use Rattle.stil_syntax.specs.Shapes.{body_statements};
ghost use Rattle.list_laws.specs.Leasts.{least_of};
ghost use Rattle.stil_blocks.specs.Statements.{has_word};
ghost use Rattle.stil_head.specs.Faults.{ends_or_opens, is_stil, is_unread, first_places, is_bad_item, item_places, open_places, callee_faults, block_faults, is_read, is_bad, statement_faults, syntax_in};

use base_types::{Lines, NoMemory};
use list_laws::{found_if, lesser_place};
use std::alloc::Global;
use stil_blocks::{
    behind_word, chain_at, has_word, is_callee, is_whole, is_worded, opens_maybe_named, start_of,
};
use stil_syntax::{Stretch, behind_labels, body_statement, in_block};

/// `;` or `{`.
fn ends_or_opens(text: &[u8]) -> bool
    ensures value { result ≡ ends_or_opens text.now }
{
    text == b";".as_slice() || text == b"{".as_slice()
}

/// Whether a statement is `STIL 1.0`.
#[tactic(auto, unfolding(crate::specs::Faults::is_stil))]
fn is_stil(s: &Stretch<'_, '_>) -> bool
    ensures value { result ≡ is_stil s.now }
{
    let mut rest = behind_labels(s);
    let Some(word) = rest.next() else {
        return false;
    };
    let Some(version) = rest.next() else {
        return false;
    };
    match rest.next() {
        Some(end) => {
            word.text == b"STIL".as_slice()
                && version.text == b"1.0".as_slice()
                && ends_or_opens(end.text)
        }
        None => false,
    }
}

/// The first statement, where it is another than `STIL 1.0`.
fn first_place(tokens: &Stretch<'_, '_>) -> Option<u32>
    ensures value { result ≡ least_of (first_places (body_statements tokens.now)) }
{
    let mut rest = tokens.again();
    let first = body_statement(&mut rest)?;
    found_if(!is_stil(&first), start_of(&first))
}

/// Whether a ScanStructures stands among the statements.
fn has_structures(tokens: &Stretch<'_, '_>) -> bool
    ensures value { result ≡ list_any (has_word (codes "ScanStructures")) (body_statements tokens.now) }
{
    let mut rest = tokens.again();
    while let Some(s) = body_statement(&mut rest) {
        if has_word(&s, b"ScanStructures") {
            return true;
        }
    }
    false
}

/// Whether a statement in ScanStructures hasn't its end, or is a ScanChain of no form.
#[tactic(auto, unfolding(crate::specs::Faults::is_bad_item))]
fn is_bad_item(alloc: Global, lines: &mut Lines<'_>, s: &Stretch<'_, '_>) -> Result<bool, NoMemory>
    ensures value { IfOk result (λ bad. bad ≡ is_bad_item lines.old s.now) }
    ensures same { lines.new ≡ lines.old }
{
    if !is_whole(s) {
        return Ok(true);
    }
    if !has_word(s, b"ScanChain") {
        return Ok(false);
    }
    Ok(chain_at(alloc, lines, s)?.is_none())
}

/// The least place of such a statement in a block.
fn item_place(
    alloc: Global,
    lines: &mut Lines<'_>,
    block: &Stretch<'_, '_>,
) -> Result<Option<u32>, NoMemory>
    ensures value { IfOk result (λ place. place ≡ least_of (item_places lines.old (body_statements block.now))) }
    ensures same { lines.new ≡ lines.old }
{
    let mut rest = block.again();
    let mut least = None;
    while let Some(s) = body_statement(&mut rest) {
        let bad = is_bad_item(alloc, lines, &s)?;
        least = lesser_place(least, found_if(bad, start_of(&s)));
    }
    Ok(least)
}

/// The least place of a statement in a block that hasn't its end.
fn open_place(block: &Stretch<'_, '_>) -> Option<u32>
    ensures value { result ≡ least_of (open_places (body_statements block.now)) }
{
    let mut rest = block.again();
    let mut least = None;
    while let Some(s) = body_statement(&mut rest) {
        least = lesser_place(least, found_if(!is_whole(&s), start_of(&s)));
    }
    least
}

/// The least fault of a statement in Procedures or MacroDefs.
#[tactic(auto, unfolding(crate::specs::Faults::callee_faults))]
fn callee_fault(s: &Stretch<'_, '_>) -> Option<u32>
    ensures value { result ≡ least_of (callee_faults s.now) }
{
    if is_callee(s) {
        open_place(&in_block(s))
    } else {
        Some(start_of(s))
    }
}

/// The least of these in a block.
fn callees_fault(block: &Stretch<'_, '_>) -> Option<u32>
    ensures value { result ≡ least_of (flat_map callee_faults (body_statements block.now)) }
{
    let mut rest = block.again();
    let mut least = None;
    while let Some(s) = body_statement(&mut rest) {
        least = lesser_place(least, callee_fault(&s));
    }
    least
}

/// The least fault in the block of a statement.
#[tactic(auto, unfolding(crate::specs::Faults::block_faults))]
fn block_fault(
    alloc: Global,
    lines: &mut Lines<'_>,
    s: &Stretch<'_, '_>,
) -> Result<Option<u32>, NoMemory>
    ensures value { IfOk result (λ place. place ≡ least_of (block_faults lines.old s.now)) }
    ensures same { lines.new ≡ lines.old }
{
    if has_word(s, b"ScanStructures") {
        return item_place(alloc, lines, &in_block(s));
    }
    if has_word(s, b"Procedures") || has_word(s, b"MacroDefs") {
        return Ok(callees_fault(&in_block(s)));
    }
    Ok(None)
}

/// Whether the block of a statement is read.
#[tactic(auto, unfolding(crate::specs::Faults::is_read))]
fn is_read(s: &Stretch<'_, '_>) -> bool
    ensures value { result ≡ is_read s.now }
{
    has_word(s, b"ScanStructures") || has_word(s, b"Procedures") || has_word(s, b"MacroDefs")
}

/// Whether a statement of the head matches no form.
#[tactic(auto, unfolding(crate::specs::Faults::is_bad, crate::specs::Faults::is_unread))]
fn is_bad(s: &Stretch<'_, '_>) -> bool
    ensures value { result ≡ is_bad s.now }
{
    !(is_whole(s) && is_worded(s)) || is_read(s) && !opens_maybe_named(&behind_word(s))
}

/// The least fault of a statement of the head.
#[tactic(auto, unfolding(crate::specs::Faults::statement_faults))]
fn statement_fault(
    alloc: Global,
    lines: &mut Lines<'_>,
    s: &Stretch<'_, '_>,
) -> Result<Option<u32>, NoMemory>
    ensures value { IfOk result (λ place. place ≡ least_of (statement_faults lines.old s.now)) }
    ensures same { lines.new ≡ lines.old }
{
    if is_bad(s) {
        return Ok(Some(start_of(s)));
    }
    block_fault(alloc, lines, s)
}

/// The least of these.
fn statements_fault(
    alloc: Global,
    lines: &mut Lines<'_>,
    tokens: &Stretch<'_, '_>,
) -> Result<Option<u32>, NoMemory>
    ensures value { IfOk result (λ place. place ≡ least_of (flat_map (statement_faults lines.old) (body_statements tokens.now))) }
{
    let mut rest = tokens.again();
    let mut least = None;
    while let Some(s) = body_statement(&mut rest) {
        let place = statement_fault(alloc, lines, &s)?;
        least = lesser_place(least, place);
    }
    Ok(least)
}

/// The least place in a head at which a statement matches no form; the text's beginning where ScanStructures is missing.
pub(crate) fn syntax_place(
    alloc: Global,
    lines: &mut Lines<'_>,
    tokens: &Stretch<'_, '_>,
) -> Result<Option<u32>, NoMemory>
    ensures value { IfOk result (λ place. place ≡ least_of (syntax_in lines.old (body_statements tokens.now))) }
{
    let first = first_place(tokens);
    let missing = found_if(!has_structures(tokens), 0);
    let inner = statements_fault(alloc, lines, tokens)?;
    Ok(lesser_place(first, lesser_place(inner, missing)))
}
