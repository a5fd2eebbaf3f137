//! The SVG text of a picture.
ghost use Rattle.std.specs.Prelude.{◌≡◌, ◌++◌, ◌<◌, ◌≤◌, ◌^◌, ◌+◌, ◌*◌, codes, length, All, IfOk, OnOk};
ghost use Rattle.chain_picture.specs.Sizes.{sheet_of};
ghost use Rattle.chain_picture.specs.Xml.{IsPlainByte, count_of};
ghost use Rattle.chain_picture.specs.Pictures.{legend_height, legend_width, link_count, svg_by, svg_of, totals_of, view};

use crate::chain::DrawnChain;
use crate::layers::push_drawing;
use crate::legend::{longest, push_legend};
use crate::sheet::{Sheet, sheet_of};
use crate::totals::{Totals, totals_of};
use crate::xml::push_size;
use base_types::{NoMemory, Text};
use std::alloc::Global;

/// How wide the legend is, in its own units.
fn legend_width(alloc: Global, totals: &Totals, chains: &[DrawnChain]) -> Result<u128, NoMemory>
    requires totals { totals.now ≡ totals_of chains.now }
    requires small { totals.now.labels_begin ≤ 412 }
    ensures value { IfOk result (λ width. width ≡ legend_width chains.now) }
    ensures small { IfOk result (λ width. width ≤ 2 ^ 68) }
{
    let longest = longest(alloc, chains)?;
    Ok((totals.labels_begin + 6 * longest as u128).max(280))
}

/// How high the legend is, in its own units.
fn legend_height(chains: usize) -> u128
    requires few { chains ≤ 65536 }
    ensures value { result ≡ 15 * (chains + 9) }
    ensures small { result ≤ 2 ^ 22 }
{
    15 * (chains as u128 + 9)
}

/// So many times a size.
fn times(letter: u128, n: u128) -> u128
    requires letter { letter ≤ 2 ^ 56 }
    requires n { n ≤ 2 ^ 68 }
    ensures value { result ≡ letter * n }
    ensures small { result ≤ 2 ^ 124 }
{
    letter * n
}

/// Appends the whole of the picture, with its margins.
#[tactic(auto, unfolding(crate::specs::Pictures::view))]
fn push_view(
    text: &mut Vec<u8>,
    sheet: &Sheet,
    width: u128,
    chains: &[DrawnChain],
) -> Result<(), NoMemory>
    requires few { length chains.now ≤ 65536 }
    requires margin { sheet.now.margin ≤ 2 ^ 60 }
    requires letter { sheet.now.letter ≤ 2 ^ 56 }
    requires width { width ≡ legend_width chains.now }
    requires small { width ≤ 2 ^ 68 }
    ensures value { OnOk result (text.new.items ≡ text.old.items ++ view sheet.now chains.now) }
{
    let height = times(sheet.letter, legend_height(chains.len()));
    text.extend_from_slice(b"0 0 ")?;
    push_size(
        text,
        3 * sheet.margin + u128::from(sheet.width) + times(sheet.letter, width),
    )?;
    text.extend_from_slice(b" ")?;
    push_size(
        text,
        2 * sheet.margin + height.max(u128::from(sheet.height)),
    )?;
    Ok(())
}

/// Appends the picture by its sizes.
#[tactic(auto, unfolding(crate::specs::Pictures::svg_by, crate::specs::Xml::attribute))]
fn push_svg(
    text: &mut Vec<u8>,
    sheet: &Sheet,
    units: u64,
    totals: &Totals,
    width: u128,
    chains: &[DrawnChain],
) -> Result<(), NoMemory>
    requires units { units ≤ 10 ^ 5 }
    requires few { length chains.now ≤ 65536 }
    requires margin { sheet.now.margin ≤ 2 ^ 60 }
    requires stroke { sheet.now.stroke ≤ 2 ^ 60 }
    requires mark { sheet.now.mark ≤ 2 ^ 60 }
    requires letter { sheet.now.letter ≤ 2 ^ 56 }
    requires microns { sheet.now.microns ≤ 2 ^ 62 }
    requires totals { totals.now ≡ totals_of chains.now }
    requires width { width ≡ legend_width chains.now }
    requires small { width ≤ 2 ^ 68 }
    ensures value { OnOk result (text.new.items ≡ text.old.items ++ svg_by sheet.now units chains.now) }
{
    text.extend_from_slice(b"<svg xmlns=\"http://www.w3.org/2000/svg\" viewBox=\"")?;
    push_view(text, sheet, width, chains)?;
    text.extend_from_slice(b"\">\n<rect width=\"100%\" height=\"100%\" fill=\"#fff\"/>\n")?;
    push_drawing(text, sheet, chains)?;
    push_legend(text, sheet, units, totals, chains)?;
    text.extend_from_slice(b"</svg>\n")?;
    Ok(())
}

/// The picture of at most 65536 chains, with so many database units a micron (1 to 100000, for the scale): an SVG text of printable ASCII and line
/// feeds, in half database units as the chains are, with one `line` for each link. Its one error is want of memory.
#[tactic(auto, unfolding(crate::specs::Pictures::svg_of))]
pub fn svg_of(alloc: Global, units: u64, chains: &[DrawnChain]) -> Result<Text, NoMemory>
    requires some { 0 < units }
    requires units { units ≤ 10 ^ 5 }
    requires few { length chains.now ≤ 65536 }
    ensures value { IfOk result (λ text. text ≡ svg_of units chains.now) }
    ensures plain { IfOk result (λ text. All IsPlainByte text) }
    ensures lines { IfOk result (λ text. count_of (codes "<line ") text ≡ link_count chains.now) }
{
    let sheet = sheet_of(units, chains);
    let totals = totals_of(chains);
    let width = legend_width(alloc, &totals, chains)?;
    let mut text = Vec::new(alloc);
    push_svg(&mut text, &sheet, units, &totals, width, chains)?;
    Ok(Text::of(text))
}

/// How many links are drawn, of all chains: as many as `line`s stand in their picture. Takes no memory.
pub fn link_count(chains: &[DrawnChain]) -> u128
    requires few { length chains.now ≤ 65536 }
    ensures value { result ≡ link_count chains.now }
{
    let mut count: u128 = 0;
    for chain in chains {
        count += chain.links.as_slice().len() as u128;
    }
    count
}
