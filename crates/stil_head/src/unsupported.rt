//! What a head may not have in this profile.
ghost use Rattle.std.specs.Prelude.{◌≡◌, ◌&&◌, false, true, codes, List, ℕ, ◌||◌, IfOk, OnOk};
ghost use Rattle.std.specs.List.{flat_map, count_by};
ghost use Rattle.std.specs.Str.{bytes_eq};
ghost use Rattle.token_forms.specs.Classes.{is_among};
ghost use Rattle.stil_syntax.specs.Shapes.{body_statements};
ghost use Rattle.stil_head.specs.TopWords.{first_words, further_words};
ghost use Rattle.list_laws.specs.Leasts.{least_of};
ghost use Rattle.stil_blocks.specs.Statements.{has_word};
ghost use Rattle.stil_head.specs.Unsupported.{top_words, is_unlisted, unlisted_places, later_places, structures_again, out_length_places, scan_names, is_name_of, names_one, calls_scan, is_barred, has_mark, outer_marks, is_odd_shift, odd_shifts, scan_places, places_at, body_places, callee_places, bodies_places, unlisted_in, unsupported_in};

use crate::marks::{has_mark, has_outer_mark};
use crate::names::Names;
use crate::shift::{inner_shifts, later_shift};
use crate::truth::{both, either};
use base_types::NoMemory;
use list_laws::{found_if, lesser_place};
use std::alloc::Global;
use stil_blocks::{
    ReadCallee, ReadChain, begins_shift, behind_word, has_word, holds_shift, start_of, take_text,
};
use stil_syntax::{Stretch, begins_behind, behind_labels, body_statement, in_block, is_word};

/// The names of scan procedures, and those of scan macros.
#[derive(Drop)]
struct ScanNames<'a> {
    procedures: Names<'a>,
    macros: Names<'a>,
}

/// A word of signals, structures, timing or patterns.
fn is_first_word(word: &[u8]) -> bool
    ensures value { result ≡ is_among first_words word.now }
{
    word == b"Header".as_slice()
        || word == b"Signals".as_slice()
        || word == b"SignalGroups".as_slice()
        || word == b"ScanStructures".as_slice()
        || word == b"Spec".as_slice()
        || word == b"Selector".as_slice()
        || word == b"Timing".as_slice()
        || word == b"PatternBurst".as_slice()
        || word == b"PatternExec".as_slice()
}

/// A word of what patterns call, or another.
fn is_further_word(word: &[u8]) -> bool
    ensures value { result ≡ is_among further_words word.now }
{
    word == b"Procedures".as_slice()
        || word == b"MacroDefs".as_slice()
        || word == b"UserKeywords".as_slice()
        || word == b"UserFunctions".as_slice()
        || word == b"DCLevels".as_slice()
        || word == b"DCSets".as_slice()
        || word == b"Environment".as_slice()
        || word == b"Variables".as_slice()
        || word == b"Ann".as_slice()
        || word == b"Pattern".as_slice()
}

/// A word that may stand at the top.
fn is_top_word(word: &[u8]) -> bool
    ensures value { result ≡ is_among top_words word.now }
{
    either(is_first_word(word), is_further_word(word))
}

/// Whether a statement has another word.
#[tactic(auto, unfolding(crate::specs::Unsupported::is_unlisted))]
fn is_unlisted(s: &Stretch<'_, '_>) -> bool
    ensures value { result ≡ is_unlisted s.now }
{
    let mut rest = behind_labels(s);
    match rest.next() {
        Some(token) => is_word(token.text) && !is_top_word(token.text),
        None => false,
    }
}

/// The least place of a statement behind the first with such a word.
fn unlisted_place(tokens: &Stretch<'_, '_>) -> Option<u32>
    ensures value { result ≡ least_of (unlisted_places (body_statements tokens.now)) }
{
    let mut rest = tokens.again();
    let _first = body_statement(&mut rest)?;
    unlisted_from(rest)
}

fn unlisted_from(mut rest: Stretch<'_, '_>) -> Option<u32>
    ensures value { result ≡ least_of (unlisted_in (body_statements rest.entry)) }
{
    let mut least = None;
    while let Some(s) = body_statement(&mut rest) {
        least = lesser_place(least, found_if(is_unlisted(&s), start_of(&s)));
    }
    least
}

/// The least place of a second ScanStructures.
fn structures_again(tokens: &Stretch<'_, '_>) -> Option<u32>
    ensures value { result ≡ least_of (structures_again (body_statements tokens.now)) }
{
    let mut rest = tokens.again();
    let mut least = None;
    let mut seen = false;
    while let Some(s) = body_statement(&mut rest) {
        let here = has_word(&s, b"ScanStructures");
        least = lesser_place(least, found_if(both(seen, here), start_of(&s)));
        seen = either(seen, here);
    }
    least
}

/// The least place of a ScanChain with a ScanOutLength.
fn out_length_place(chains: &[ReadChain]) -> Option<u32>
    ensures value { result ≡ least_of (out_length_places chains.now) }
{
    let mut least = None;
    for chain in chains {
        least = lesser_place(least, found_if(chain.out_length, chain.place));
    }
    least
}

/// Adds the name of one that scans.
fn add_scan<'a>(names: &mut Names<'a>, callee: &'a ReadCallee) -> Result<(), NoMemory>
    ensures value { OnOk result ((q : List ℕ) → is_name_of names.new q ≡ (is_name_of names.old q || (callee.now.callee.scan && bytes_eq q callee.now.callee.name))) }
{
    if callee.callee.scan {
        let _known = names.add(callee.callee.name.bytes())?;
    }
    Ok(())
}

/// The names of those that scan.
fn scan_names<'a>(alloc: Global, callees: &'a [ReadCallee]) -> Result<Names<'a>, NoMemory>
    ensures value { IfOk result (λ names. (q : List ℕ) → is_name_of names q ≡ is_name_of (scan_names callees.now) q) }
{
    let mut names = Names::new(alloc);
    for callee in callees {
        add_scan(&mut names, callee)?;
    }
    Ok(names)
}

/// Whether the name in front of some tokens is there, without its backslashes.
fn names_one(alloc: Global, names: &Names<'_>, tokens: &Stretch<'_, '_>) -> Result<bool, NoMemory>
    ensures value { IfOk result (λ is. is ≡ names_one (is_name_of names.now) tokens.now) }
{
    let mut rest = tokens.again();
    match rest.name() {
        Some(name) => Ok(names.has(name.to_plain_name(alloc)?.bytes())),
        None => Ok(false),
    }
}

/// Whether a statement is a Call of a scan procedure or a Macro of a scan macro.
#[tactic(auto, unfolding(crate::specs::Unsupported::calls_scan))]
fn calls_scan(alloc: Global, names: &ScanNames<'_>, s: &Stretch<'_, '_>) -> Result<bool, NoMemory>
    ensures value { IfOk result (λ is. is ≡ calls_scan (is_name_of names.now.procedures) (is_name_of names.now.macros) s.now) }
{
    if has_word(s, b"Call") {
        return names_one(alloc, &names.procedures, &behind_word(s));
    }
    if has_word(s, b"Macro") {
        return names_one(alloc, &names.macros, &behind_word(s));
    }
    Ok(false)
}

/// Whether no procedure, or no scan procedure, may hold a statement.
#[tactic(auto, unfolding(crate::specs::Unsupported::is_barred))]
fn is_barred(
    alloc: Global,
    names: &ScanNames<'_>,
    scan: bool,
    s: &Stretch<'_, '_>,
) -> Result<bool, NoMemory>
    ensures value { IfOk result (λ is. is ≡ is_barred (is_name_of names.now.procedures) (is_name_of names.now.macros) scan s.now) }
{
    if has_word(s, b"MatchLoop") || has_word(s, b"Goto") || scan && has_word(s, b"ScanChain") {
        return Ok(true);
    }
    calls_scan(alloc, names, s)
}

/// Whether such a statement begins where one may begin or not.
fn bar_begins(
    alloc: Global,
    names: &ScanNames<'_>,
    scan: bool,
    begins: bool,
    s: &Stretch<'_, '_>,
) -> Result<bool, NoMemory>
    ensures value { IfOk result (λ is. is ≡ (begins && is_barred (is_name_of names.now.procedures) (is_name_of names.now.macros) scan s.now)) }
{
    if begins {
        is_barred(alloc, names, scan, s)
    } else {
        Ok(false)
    }
}

/// The least place of such a statement, at whatever depth.
fn barred_place(
    alloc: Global,
    names: &ScanNames<'_>,
    scan: bool,
    body: &Stretch<'_, '_>,
) -> Result<Option<u32>, NoMemory>
    ensures value { IfOk result (λ place. place ≡ least_of (places_at (is_barred (is_name_of names.now.procedures) (is_name_of names.now.macros) scan) true body.now)) }
{
    let mut rest = body.again();
    let mut least = None;
    let mut begins = true;
    while rest.len() != 0 {
        let bad = bar_begins(alloc, names, scan, begins, &rest)?;
        least = lesser_place(least, found_if(bad, start_of(&rest)));
        begins = begins_behind(take_text(&mut rest));
    }
    Ok(least)
}

/// The least place of a statement directly in a scan procedure with a `#` outside Shift.
fn outer_mark(body: &Stretch<'_, '_>) -> Option<u32>
    ensures value { result ≡ least_of (outer_marks (body_statements body.now)) }
{
    let mut rest = body.again();
    let mut least = None;
    while let Some(s) = body_statement(&mut rest) {
        least = lesser_place(least, found_if(has_outer_mark(&s), start_of(&s)));
    }
    least
}

/// How many statements of a block have a `#`.
fn mark_count(block: &Stretch<'_, '_>) -> usize
    ensures value { result ≡ count_by (has_mark false) (body_statements block.now) }
{
    let mut rest = block.again();
    let most = block.len();
    let mut count = 0;
    while let Some(s) = body_statement(&mut rest) {
        count += usize::from(has_mark(&s));
    }
    count
}

/// Whether a statement is a Shift in which not exactly one statement has a `#`.
#[tactic(auto, unfolding(crate::specs::Unsupported::is_odd_shift))]
fn is_odd_shift(s: &Stretch<'_, '_>) -> bool
    ensures value { result ≡ is_odd_shift s.now }
{
    begins_shift(s) && mark_count(&in_block(s)) != 1
}

/// The least place of such a Shift directly in a scan procedure.
fn odd_shift(body: &Stretch<'_, '_>) -> Option<u32>
    ensures value { result ≡ least_of (odd_shifts (body_statements body.now)) }
{
    let mut rest = body.again();
    let mut least = None;
    while let Some(s) = body_statement(&mut rest) {
        least = lesser_place(least, found_if(is_odd_shift(&s), start_of(&s)));
    }
    least
}

/// The least place of what a scan procedure may not have besides.
fn scan_place(body: &Stretch<'_, '_>) -> Option<u32>
    ensures value { result ≡ least_of (scan_places body.now) }
{
    let marks = lesser_place(outer_mark(body), odd_shift(body));
    lesser_place(later_shift(body), lesser_place(inner_shifts(body), marks))
}

/// The least place in the block of a procedure or macro.
#[tactic(auto, unfolding(crate::specs::Unsupported::body_places))]
fn body_place(
    alloc: Global,
    names: &ScanNames<'_>,
    body: &Stretch<'_, '_>,
) -> Result<Option<u32>, NoMemory>
    ensures value { IfOk result (λ place. place ≡ least_of (body_places (is_name_of names.now.procedures) (is_name_of names.now.macros) body.now)) }
{
    let scan = holds_shift(body);
    let barred = barred_place(alloc, names, scan, body)?;
    if scan {
        Ok(lesser_place(barred, scan_place(body)))
    } else {
        Ok(barred)
    }
}

/// The least place in the procedures or macros of a block.
fn bodies_place(
    alloc: Global,
    names: &ScanNames<'_>,
    block: &Stretch<'_, '_>,
) -> Result<Option<u32>, NoMemory>
    ensures value { IfOk result (λ place. place ≡ least_of (bodies_places (is_name_of names.now.procedures) (is_name_of names.now.macros) (body_statements block.now))) }
{
    let mut rest = block.again();
    let mut least = None;
    while let Some(s) = body_statement(&mut rest) {
        let place = body_place(alloc, names, &in_block(&s))?;
        least = lesser_place(least, place);
    }
    Ok(least)
}

/// The least place in the procedures or macros of a statement of the head.
#[tactic(auto, unfolding(crate::specs::Unsupported::callee_places))]
fn callee_place(
    alloc: Global,
    names: &ScanNames<'_>,
    s: &Stretch<'_, '_>,
) -> Result<Option<u32>, NoMemory>
    ensures value { IfOk result (λ place. place ≡ least_of (callee_places (is_name_of names.now.procedures) (is_name_of names.now.macros) s.now)) }
{
    if has_word(s, b"Procedures") || has_word(s, b"MacroDefs") {
        bodies_place(alloc, names, &in_block(s))
    } else {
        Ok(None)
    }
}

/// The least place in the procedures and macros of a head.
fn callees_place(
    alloc: Global,
    names: &ScanNames<'_>,
    tokens: &Stretch<'_, '_>,
) -> Result<Option<u32>, NoMemory>
    ensures value { IfOk result (λ place. place ≡ least_of (flat_map (callee_places (is_name_of names.now.procedures) (is_name_of names.now.macros)) (body_statements tokens.now))) }
{
    let mut rest = tokens.again();
    let mut least = None;
    while let Some(s) = body_statement(&mut rest) {
        let place = callee_place(alloc, names, &s)?;
        least = lesser_place(least, place);
    }
    Ok(least)
}

/// The least place of what a head may not have, by its chains, procedures and macros.
pub(crate) fn unsupported_place(
    alloc: Global,
    chains: &[ReadChain],
    procedures: &[ReadCallee],
    macros: &[ReadCallee],
    tokens: &Stretch<'_, '_>,
) -> Result<Option<u32>, NoMemory>
    ensures value { IfOk result (λ place. place ≡ least_of (unsupported_in chains.now procedures.now macros.now (body_statements tokens.now))) }
{
    let scanning = scan_names(alloc, procedures)?;
    let scanned = scan_names(alloc, macros)?;
    let names = ScanNames {
        procedures: scanning,
        macros: scanned,
    };
    let inner = callees_place(alloc, &names, tokens)?;
    let again = lesser_place(structures_again(tokens), inner);
    let top = lesser_place(unlisted_place(tokens), again);
    let least = lesser_place(out_length_place(chains), top);
    Ok(least)
}
