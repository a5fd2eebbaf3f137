//! The names in ScanCells, as they stand.
ghost use Rattle.std.specs.Prelude.{◌≡◌, ◌<◌, ◌≤◌, ◌-◌, ◌^◌, ◌++◌, length, take, drop, codes, IfOk, OnOk, MatchOption, Some, None};
ghost use Rattle.std.specs.List.{flat_map};
ghost use Rattle.stil_blocks.specs.Statements.{begins_word};
ghost use Rattle.head_writer.specs.NewChains.{with_names, named_bits, all_named};
ghost use Rattle.head_writer.specs.Cells.{text_at, behind_mark, names_in, IsAllNamed, GoesOn};

use crate::names::NamedBit;
use base_types::{Name, NoMemory};
use chain_trace::{BitId, PathBits};
use std::alloc::Global;
use stil_syntax::Stretch;
use stil_tokens::stil_tokens;
use stil_types::ScanChainDecl;

/// Appends the bytes of the first so many tokens.
fn put_tokens(out: &mut Vec<u8>, tokens: &Stretch<'_, '_>, count: usize) -> Result<(), NoMemory>
    ensures value { OnOk result (out.new.items ≡ out.old.items ++ flat_map (λ t. t.text) (take count tokens.now)) }
{
    let mut rest = tokens.again();
    let mut left = count;
    while 0 < left {
        let Some(token) = rest.next() else {
            return Ok(());
        };
        out.extend_from_slice(token.text)?;
        left -= 1;
    }
    Ok(())
}

/// Takes the name at the front, and gives its bytes with its quotes. Where none stands there, the tokens are as before.
fn take_name<'a, 's>(alloc: Global, tokens: &mut Stretch<'a, 's>) -> Result<Option<Name>, NoMemory>
    ensures value { IfOk result (λ name. MatchOption name (text_at tokens.old ≡ None) (λ bytes. text_at tokens.old ≡ Some (bytes, tokens.new))) }
{
    let mut behind = tokens.again();
    let Some(_name) = behind.name() else {
        return Ok(None);
    };
    let mut bytes = Vec::new(alloc);
    put_tokens(&mut bytes, tokens, tokens.len() - behind.len())?;
    *tokens = behind;
    Ok(Some(Name::copy(alloc, bytes.as_slice())?))
}

/// Takes a `!` at the front, and tells whether one stood there.
fn take_mark<'a, 's>(tokens: &mut Stretch<'a, 's>) -> bool
    ensures value { result ≡ begins_word (codes "!") tokens.old }
    ensures rest { tokens.new ≡ behind_mark tokens.old }
{
    let mut behind = tokens.again();
    let Some(token) = behind.next() else {
        return false;
    };
    if token.text != b"!".as_slice() {
        return false;
    }
    *tokens = behind;
    true
}

/// Passes a `!`, or puts the next bit with the name at the front behind others. It gives the bits that are left; none where no name stands
/// there, or no bit is left.
fn put_cell<'a, 's, 'b>(
    alloc: Global,
    named: &mut Vec<NamedBit>,
    cells: &mut Stretch<'a, 's>,
    bits: &'b [BitId],
) -> Result<Option<&'b [BitId]>, NoMemory>
    ensures value { IfOk result (λ left. MatchOption left (IsAllNamed named.old.items named.new.items bits.now cells.old)
        (λ left. GoesOn named.old.items named.new.items bits.now left.now cells.old cells.new)) }
{
    if take_mark(cells) {
        return Ok(Some(bits));
    }
    let Some((bit, left)) = bits.split_first() else {
        return Ok(None);
    };
    let Some(name) = take_name(alloc, cells)? else {
        return Ok(None);
    };
    named.push(NamedBit { bit: *bit, name })?;
    Ok(Some(left))
}

/// Puts the bits of a path with the names of a list behind others.
fn put_cells(
    alloc: Global,
    named: &mut Vec<NamedBit>,
    cells: &[u8],
    bits: &[BitId],
) -> Result<(), NoMemory>
    requires size { length cells.now < 2 ^ 32 }
    ensures value { OnOk result (named.new.items ≡ named.old.items ++ with_names bits.now (names_in cells.now)) }
{
    let spans = stil_tokens(alloc, cells)?;
    let mut rest = Stretch::of(cells, &spans);
    let mut count = rest.len();
    let mut left = bits;
    while 0 < count {
        let Some(more) = put_cell(alloc, named, &mut rest, left)? else {
            return Ok(());
        };
        left = more;
        count -= 1;
    }
    Ok(())
}

/// The bytes from one place up to another, as far as there are any.
fn between(text: &[u8], from: usize, to: usize) -> &[u8]
    ensures value { result.now ≡ take (to - from) (drop from text.now) }
    ensures within { length result.now ≤ length text.now }
{
    let end = if to < text.len() { to } else { text.len() };
    if from < end {
        &text[from..end]
    } else {
        &text[..0]
    }
}

/// Puts the bits of a chain's read path with their names behind others.
fn put_named(
    alloc: Global,
    named: &mut Vec<NamedBit>,
    text: &[u8],
    chain: &ScanChainDecl,
    bits: &[BitId],
) -> Result<(), NoMemory>
    requires size { length text.now < 2 ^ 32 }
    ensures value { OnOk result (named.new.items ≡ named.old.items ++ named_bits text.now chain.now bits.now) }
{
    let Some(at) = chain.cells_at else {
        return Ok(());
    };
    let cells = between(text, at.start as usize, at.end as usize);
    put_cells(alloc, named, cells, bits)
}

/// The bits of all chains' read paths with their names.
pub(crate) fn all_named(
    alloc: Global,
    text: &[u8],
    chains: &[ScanChainDecl],
    paths: &[PathBits],
) -> Result<Vec<NamedBit>, NoMemory>
    requires size { length text.now < 2 ^ 32 }
    ensures value { IfOk result (λ named. named.items ≡ all_named text.now chains.now paths.now) }
{
    let mut named = Vec::new(alloc);
    let mut rest = chains;
    let mut left = paths;
    while let Some((chain, others)) = rest.split_first() {
        let Some((path, more)) = left.split_first() else {
            return Ok(named);
        };
        put_named(alloc, &mut named, text, chain, path.bits.as_slice())?;
        rest = others;
        left = more;
    }
    Ok(named)
}
