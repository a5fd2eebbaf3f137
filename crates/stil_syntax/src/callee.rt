//! What a statement calls.
ghost use Rattle.std.specs.Prelude.{◌≡◌, false, ◌&&◌, IfOk};
ghost use Rattle.stil_syntax.specs.Shapes.{is_call, scans_by, callees, calls_scan, is_scan_call, holds_scan};

use crate::labels::{begins_behind, behind_labels};
use crate::name::NameText;
use crate::stretch::Stretch;
use base_types::NoMemory;
use std::alloc::Global;
use stil_types::StilHead;

/// `Call` or `Macro`.
pub(crate) fn is_call(word: &[u8]) -> bool
    ensures value { result ≡ is_call word.now }
{
    word == b"Call".as_slice() || word == b"Macro".as_slice()
}

/// Whether the procedure or macro that a `Call` or `Macro` names is a scan procedure; None where none has the name.
pub(crate) fn callee_of(
    alloc: Global,
    head: &StilHead,
    word: &[u8],
    name: &NameText<'_>,
) -> Result<Option<bool>, NoMemory>
    ensures value { IfOk result (λ scan. scan ≡ scans_by (callees head.now word.now) name.now) }
{
    let plain = name.to_plain_name(alloc)?;
    if word == b"Call".as_slice() {
        Ok(head.procedures.scan_of(plain.bytes()))
    } else {
        Ok(head.macros.scan_of(plain.bytes()))
    }
}

/// Whether a word and what stands behind it are a `Call` or `Macro` of a scan procedure.
fn calls_scan(alloc: Global, head: &StilHead, tokens: &Stretch<'_, '_>) -> Result<bool, NoMemory>
    ensures value { IfOk result (λ is. is ≡ calls_scan head.now tokens.now) }
{
    let mut rest = tokens.again();
    let Some(word) = rest.next() else {
        return Ok(false);
    };
    if !is_call(word.text) {
        return Ok(false);
    }
    match rest.name() {
        Some(name) => Ok(callee_of(alloc, head, word.text, &name)? == Some(true)),
        None => Ok(false),
    }
}

/// Whether a statement is a scan call, of whatever form.
pub(crate) fn is_scan_call(
    alloc: Global,
    head: &StilHead,
    tokens: &Stretch<'_, '_>,
) -> Result<bool, NoMemory>
    ensures value { IfOk result (λ is. is ≡ is_scan_call head.now tokens.now) }
{
    calls_scan(alloc, head, &behind_labels(tokens))
}

/// Whether a scan call begins where a statement may begin or not.
fn scan_begins(
    alloc: Global,
    head: &StilHead,
    begins: bool,
    tokens: &Stretch<'_, '_>,
) -> Result<bool, NoMemory>
    ensures value { IfOk result (λ is. is ≡ (begins && is_scan_call head.now tokens.now)) }
{
    if begins {
        is_scan_call(alloc, head, tokens)
    } else {
        Ok(false)
    }
}

/// Whether a scan call stands in the blocks of a statement.
pub(crate) fn holds_scan(
    alloc: Global,
    head: &StilHead,
    tokens: &Stretch<'_, '_>,
) -> Result<bool, NoMemory>
    ensures value { IfOk result (λ holds. holds ≡ holds_scan head.now false tokens.now) }
{
    let mut rest = tokens.again();
    let mut begins = false;
    loop {
        let found = scan_begins(alloc, head, begins, &rest)?;
        if found {
            return Ok(true);
        }
        let Some(token) = rest.next() else {
            return Ok(false);
        };
        begins = begins_behind(token.text);
    }
}
