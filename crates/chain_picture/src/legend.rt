//! The legend of a picture.
ghost use Rattle.std.specs.Prelude.{◌≡◌, ◌++◌, ◌∷◌, [], ◌<◌, ◌≤◌, ◌+◌, ◌*◌, ◌^◌, codes, decimal, length, OnOk, IfOk, Some};
ghost use Rattle.chain_picture.specs.Pictures.{colour, dashes, foot, heads, keys, label, legend, longest, mark_at, nowhere, numbers, rows, rows_from, scale, swatch, table, totals_of, word_at, word_until};
ghost use Rattle.chain_picture.specs.Xml.{attribute, size};

use crate::chain::DrawnChain;
use crate::layers::{push_colour, push_ring, push_square};
use crate::sheet::Sheet;
use crate::totals::Totals;
use crate::xml::{push_escaped, push_size, push_size_of};
use base_types::{NoMemory, Point};
use itoa::Buffer;
use std::alloc::Global;

/// Appends the beginning of a word from a place on.
fn push_at(text: &mut Vec<u8>, x: u128, row: u128) -> Result<(), NoMemory>
    requires row { row ≤ 2 ^ 20 }
    ensures value { OnOk result (text.new.items ≡ text.old.items ++ codes "<text" ++ size (codes "x") x ++ size (codes "y") (15 * row + 10)) }
{
    text.extend_from_slice(b"<text")?;
    push_size_of(text, b"x", x)?;
    push_size_of(text, b"y", 15 * row + 10)?;
    Ok(())
}

/// Appends a word from a place on.
#[tactic(auto, unfolding(crate::specs::Pictures::word_at))]
fn push_word(text: &mut Vec<u8>, x: u128, row: u128, word: &[u8]) -> Result<(), NoMemory>
    requires row { row ≤ 2 ^ 20 }
    ensures value { OnOk result (text.new.items ≡ text.old.items ++ word_at x row [] word.now) }
{
    push_at(text, x, row)?;
    text.extend_from_slice(b">")?;
    text.extend_from_slice(word)?;
    text.extend_from_slice(b"</text>\n")?;
    Ok(())
}

/// Appends a word that ends at a place.
#[tactic(auto, unfolding(crate::specs::Pictures::word_until, crate::specs::Pictures::word_at, crate::specs::Xml::attribute))]
fn push_until(text: &mut Vec<u8>, x: u128, row: u128, word: &[u8]) -> Result<(), NoMemory>
    requires row { row ≤ 2 ^ 20 }
    ensures value { OnOk result (text.new.items ≡ text.old.items ++ word_until x row word.now) }
{
    push_at(text, x, row)?;
    text.extend_from_slice(b" text-anchor=\"end\">")?;
    text.extend_from_slice(word)?;
    text.extend_from_slice(b"</text>\n")?;
    Ok(())
}

/// Appends a number that ends at a place.
fn push_number(text: &mut Vec<u8>, x: u128, row: u128, n: u128) -> Result<(), NoMemory>
    requires row { row ≤ 2 ^ 20 }
    ensures value { OnOk result (text.new.items ≡ text.old.items ++ word_until x row (decimal n)) }
{
    let mut digits = Buffer::new();
    push_until(text, x, row, digits.format(n).as_bytes())
}

/// Appends a note where a point stands nowhere.
fn push_nowhere(text: &mut Vec<u8>, note: &[u8], point: Option<Point>) -> Result<(), NoMemory>
    ensures value { OnOk result (text.new.items ≡ text.old.items ++ nowhere note.now point) }
{
    if point.is_none() {
        text.extend_from_slice(note)?;
    }
    Ok(())
}

/// Appends the name of a chain, and which of its ends stand nowhere.
#[tactic(auto, unfolding(crate::specs::Pictures::label))]
fn push_label(text: &mut Vec<u8>, chain: &DrawnChain) -> Result<(), NoMemory>
    ensures value { OnOk result (text.new.items ≡ text.old.items ++ label chain.now) }
{
    push_escaped(text, chain.name.bytes())?;
    push_nowhere(text, b" (start stands nowhere)", chain.start)?;
    push_nowhere(text, b" (stop stands nowhere)", chain.stop)?;
    Ok(())
}

/// How many bytes the label of a chain has.
fn label_len(alloc: Global, chain: &DrawnChain) -> Result<usize, NoMemory>
    ensures value { IfOk result (λ len. len ≡ length (label chain.now)) }
{
    let mut text = Vec::new(alloc);
    push_label(&mut text, chain)?;
    Ok(text.len())
}

/// How many bytes the longest label has.
pub(crate) fn longest(alloc: Global, chains: &[DrawnChain]) -> Result<usize, NoMemory>
    ensures value { IfOk result (λ len. len ≡ longest chains.now) }
{
    let mut most = 0;
    for chain in chains {
        most = label_len(alloc, chain)?.max(most);
    }
    Ok(most)
}

/// Appends the numbers of a row.
#[tactic(auto, unfolding(crate::specs::Pictures::numbers))]
fn push_numbers(
    text: &mut Vec<u8>,
    totals: &Totals,
    row: u128,
    units: u128,
    bits: u128,
    length: u128,
) -> Result<(), NoMemory>
    requires row { row ≤ 2 ^ 20 }
    ensures value { OnOk result (text.new.items ≡ text.old.items ++ numbers totals.now row units bits length) }
{
    push_number(text, 60, row, units)?;
    push_number(text, 114, row, bits)?;
    push_number(text, totals.lengths_end, row, length)?;
    Ok(())
}

/// Appends the swatch of a chain's colour.
#[tactic(auto, unfolding(crate::specs::Pictures::swatch, crate::specs::Xml::attribute))]
fn push_swatch(text: &mut Vec<u8>, number: usize) -> Result<(), NoMemory>
    requires few { number ≤ 65536 }
    ensures value { OnOk result (text.new.items ≡ text.old.items ++ swatch number) }
{
    text.extend_from_slice(b"<rect")?;
    push_size_of(text, b"y", 15 * (number as u128 + 3) + 1)?;
    text.extend_from_slice(b" width=\"18\" height=\"10\"")?;
    push_colour(text, b"fill", number)?;
    text.extend_from_slice(b"/>\n")?;
    Ok(())
}

/// Appends the label of a chain in its row.
#[tactic(auto, unfolding(crate::specs::Pictures::word_at))]
fn push_named(
    text: &mut Vec<u8>,
    begin: u128,
    number: usize,
    chain: &DrawnChain,
) -> Result<(), NoMemory>
    requires few { number ≤ 65536 }
    ensures value { OnOk result (text.new.items ≡ text.old.items ++ word_at begin (number + 3) (attribute (codes "fill") (colour number)) (label chain.now)) }
{
    push_at(text, begin, number as u128 + 3)?;
    push_colour(text, b"fill", number)?;
    text.extend_from_slice(b">")?;
    push_label(text, chain)?;
    text.extend_from_slice(b"</text>\n")?;
    Ok(())
}

/// Appends the row of a chain.
#[tactic(auto, unfolding(crate::specs::Pictures::rows_from))]
fn push_row(
    text: &mut Vec<u8>,
    totals: &Totals,
    number: usize,
    chain: &DrawnChain,
) -> Result<(), NoMemory>
    requires few { number ≤ 65536 }
    ensures value { OnOk result (text.new.items ≡ text.old.items ++ rows_from totals.now number (chain.now ∷ [])) }
{
    push_swatch(text, number)?;
    push_numbers(
        text,
        totals,
        number as u128 + 3,
        u128::from(chain.units),
        u128::from(chain.bits),
        u128::from(chain.length),
    )?;
    push_named(text, totals.labels_begin, number, chain)?;
    Ok(())
}

/// Appends the rows of the chains.
#[tactic(auto, unfolding(crate::specs::Pictures::rows_from))]
fn push_rows(text: &mut Vec<u8>, totals: &Totals, chains: &[DrawnChain]) -> Result<(), NoMemory>
    requires few { length chains.now ≤ 65536 }
    ensures value { OnOk result (text.new.items ≡ text.old.items ++ rows_from totals.now 0 chains.now) }
{
    for number in 0..chains.len() {
        push_row(text, totals, number, &chains[number])?;
    }
    Ok(())
}

/// Appends what the dashes mean, in a row.
#[tactic(auto, unfolding(crate::specs::Pictures::dashes, crate::specs::Xml::attribute))]
fn push_dashes(text: &mut Vec<u8>, row: u128) -> Result<(), NoMemory>
    requires row { row ≤ 2 ^ 20 }
    ensures value { OnOk result (text.new.items ≡ text.old.items ++ dashes row) }
{
    text.extend_from_slice(b"<path stroke=\"#222\" stroke-dasharray=\"3\" d=\"M0 ")?;
    push_size(text, 15 * row + 6)?;
    text.extend_from_slice(b"h18\"/>\n")?;
    push_word(text, 24, row, b"unit of several cells, from entry to exit")?;
    Ok(())
}

/// The place of a mark in a row.
fn mark_at(row: u32) -> Option<Point>
    requires row { row ≤ 2 ^ 20 }
    ensures value { result ≡ Some (mark_at row) }
{
    Some(Point {
        x: 9,
        y: i64::from(15 * row + 6),
    })
}

/// Appends what the marks and the dashes mean, and the unit of lengths, from a row on.
#[tactic(auto, unfolding(crate::specs::Pictures::keys, crate::specs::Xml::attribute))]
fn push_keys(text: &mut Vec<u8>, row: u32) -> Result<(), NoMemory>
    requires row { row ≤ 2 ^ 19 }
    ensures value { OnOk result (text.new.items ≡ text.old.items ++ keys row) }
{
    text.extend_from_slice(b"<g stroke=\"#222\">\n")?;
    push_ring(text, 4, mark_at(row))?;
    text.extend_from_slice(b"</g>\n")?;
    push_word(text, 24, u128::from(row), b"start")?;
    push_square(text, 4, mark_at(row + 1))?;
    push_word(text, 24, u128::from(row + 1), b"stop")?;
    push_dashes(text, u128::from(row + 2))?;
    push_word(
        text,
        24,
        u128::from(row + 3),
        b"lengths in half database units",
    )?;
    Ok(())
}

/// Appends the microns of the scale, and the heads of the columns.
#[tactic(auto, unfolding(crate::specs::Pictures::heads, crate::specs::Pictures::word_at))]
fn push_heads(text: &mut Vec<u8>, microns: u128, totals: &Totals) -> Result<(), NoMemory>
    ensures value { OnOk result (text.new.items ≡ text.old.items ++ heads microns totals.now) }
{
    push_at(text, 0, 1)?;
    text.extend_from_slice(b">")?;
    push_size(text, microns)?;
    text.extend_from_slice(b" &#181;m</text>\n")?;
    push_until(text, 60, 2, b"units")?;
    push_until(text, 114, 2, b"bits")?;
    push_until(text, totals.lengths_end, 2, b"length")?;
    push_word(text, totals.labels_begin, 2, b"chain")?;
    Ok(())
}

/// Appends the row of all chains, and the keys.
#[tactic(auto, unfolding(crate::specs::Pictures::foot))]
fn push_foot(text: &mut Vec<u8>, totals: &Totals, chains: usize) -> Result<(), NoMemory>
    requires few { chains ≤ 65536 }
    ensures value { OnOk result (text.new.items ≡ text.old.items ++ foot totals.now chains) }
{
    let row = chains as u128 + 3;
    push_numbers(text, totals, row, totals.units, totals.bits, totals.length)?;
    push_word(text, totals.labels_begin, row, b"all")?;
    push_keys(text, chains as u32 + 5)?;
    Ok(())
}

/// Appends the rows of the legend.
#[tactic(auto, unfolding(crate::specs::Pictures::rows))]
fn push_table_rows(
    text: &mut Vec<u8>,
    microns: u128,
    totals: &Totals,
    chains: &[DrawnChain],
) -> Result<(), NoMemory>
    requires few { length chains.now ≤ 65536 }
    ensures value { OnOk result (text.new.items ≡ text.old.items ++ rows microns totals.now chains.now) }
{
    push_heads(text, microns, totals)?;
    push_rows(text, totals, chains)?;
    push_foot(text, totals, chains.len())?;
    Ok(())
}

/// Appends the scale.
#[tactic(auto, unfolding(crate::specs::Pictures::scale, crate::specs::Xml::attribute))]
fn push_scale(text: &mut Vec<u8>, sheet: &Sheet, units: u64) -> Result<(), NoMemory>
    requires letter { sheet.now.letter ≤ 2 ^ 56 }
    requires microns { sheet.now.microns ≤ 2 ^ 62 }
    requires units { units ≤ 10 ^ 5 }
    ensures value { OnOk result (text.new.items ≡ text.old.items ++ scale sheet.now units) }
{
    text.extend_from_slice(b"<path fill=\"none\" stroke=\"#222\"")?;
    push_size_of(text, b"stroke-width", sheet.stroke)?;
    text.extend_from_slice(b" d=\"M0 0V")?;
    push_size(text, 10 * sheet.letter)?;
    text.extend_from_slice(b"H")?;
    push_size(text, 2 * u128::from(units) * sheet.microns)?;
    text.extend_from_slice(b"V0\"/>\n")?;
    Ok(())
}

/// Appends the rows by a size of their own.
#[tactic(auto, unfolding(crate::specs::Pictures::table, crate::specs::Xml::attribute))]
fn push_table(
    text: &mut Vec<u8>,
    sheet: &Sheet,
    totals: &Totals,
    chains: &[DrawnChain],
) -> Result<(), NoMemory>
    requires few { length chains.now ≤ 65536 }
    requires totals { totals.now ≡ totals_of chains.now }
    ensures value { OnOk result (text.new.items ≡ text.old.items ++ table sheet.now chains.now) }
{
    text.extend_from_slice(b"<g transform=\"scale(")?;
    push_size(text, sheet.letter)?;
    text.extend_from_slice(b")\" font-family=\"monospace\" font-size=\"10\" fill=\"#222\">\n")?;
    push_table_rows(text, sheet.microns, totals, chains)?;
    text.extend_from_slice(b"</g>\n")?;
    Ok(())
}

/// Appends the legend, a margin to the right of what is drawn.
#[tactic(auto, unfolding(crate::specs::Pictures::legend, crate::specs::Xml::attribute))]
pub(crate) fn push_legend(
    text: &mut Vec<u8>,
    sheet: &Sheet,
    units: u64,
    totals: &Totals,
    chains: &[DrawnChain],
) -> Result<(), NoMemory>
    requires few { length chains.now ≤ 65536 }
    requires units { units ≤ 10 ^ 5 }
    requires margin { sheet.now.margin ≤ 2 ^ 60 }
    requires letter { sheet.now.letter ≤ 2 ^ 56 }
    requires microns { sheet.now.microns ≤ 2 ^ 62 }
    requires totals { totals.now ≡ totals_of chains.now }
    ensures value { OnOk result (text.new.items ≡ text.old.items ++ legend sheet.now units chains.now) }
{
    text.extend_from_slice(b"<g transform=\"translate(")?;
    push_size(text, 2 * sheet.margin + u128::from(sheet.width))?;
    text.extend_from_slice(b" ")?;
    push_size(text, sheet.margin)?;
    text.extend_from_slice(b")\">\n")?;
    push_scale(text, sheet, units)?;
    push_table(text, sheet, totals, chains)?;
    text.extend_from_slice(b"</g>\n")?;
    Ok(())
}
