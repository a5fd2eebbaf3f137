//! What is drawn of the chains, layer by layer.
ghost use Rattle.std.specs.Prelude.{◌≡◌, ◌++◌, ◌∷◌, [], ◌<◌, ◌≤◌, ◌+◌, ◌*◌, ◌%◌, ◌^◌, codes, decimal, length, take, drop, OnOk, Some};
ghost use Rattle.std.specs.Fmt.{signed_decimal};
ghost use Rattle.chain_picture.specs.Pictures.{boxes, cells_from, colour, colours, drawing, link, links, links_from, marks_from, point, ring, square, square_data, strokes, transform};
ghost use Rattle.chain_picture.specs.Xml.{attribute};

use crate::chain::{DrawnChain, Segment};
use crate::sheet::Sheet;
use crate::xml::{push_attribute, push_size, push_size_of, push_x, push_x_of, push_y, push_y_of};
use base_types::{NoMemory, Point};

/// Fourteen colours that are well apart, as six digits each.
#[tactic(auto, unfolding(crate::specs::Pictures::colours))]
fn colours() -> &'static [u8]
    ensures value { result.now ≡ colours }
    ensures len { length result.now ≡ 84 }
{
    b"e6194b3cb44b4363d8f58231911eb4469990f032e69a63248080000000758000001fa8c9bf9b006b6b6b"
}

/// The digits of a chain's colour.
fn digits_of(chain: usize) -> &'static [u8]
    ensures value { result.now ≡ take 6 (drop (6 * (chain % 14)) colours) }
{
    let at = 6 * (chain % 14);
    let colours = colours();
    &colours[at..at + 6]
}

/// Appends an attribute of a chain's colour; more chains than colours begin again.
#[tactic(auto, unfolding(crate::specs::Xml::attribute, crate::specs::Pictures::colour))]
pub(crate) fn push_colour(text: &mut Vec<u8>, name: &[u8], chain: usize) -> Result<(), NoMemory>
    ensures value { OnOk result (text.new.items ≡ text.old.items ++ attribute name.now (colour chain)) }
{
    text.extend_from_slice(b" ")?;
    text.extend_from_slice(name)?;
    text.extend_from_slice(b"=\"")?;
    text.extend_from_slice(b"#")?;
    text.extend_from_slice(digits_of(chain))?;
    text.extend_from_slice(b"\"")?;
    Ok(())
}

/// Appends a point of a path.
#[tactic(auto, unfolding(crate::specs::Pictures::point))]
fn push_point(text: &mut Vec<u8>, p: Point) -> Result<(), NoMemory>
    ensures value { OnOk result (text.new.items ≡ text.old.items ++ point p) }
{
    push_x(text, p)?;
    text.extend_from_slice(b" ")?;
    push_y(text, p)?;
    Ok(())
}

/// Appends a rectangle of a path.
#[tactic(auto, unfolding(crate::specs::Pictures::boxes))]
fn push_box(text: &mut Vec<u8>, s: Segment) -> Result<(), NoMemory>
    ensures value { OnOk result (text.new.items ≡ text.old.items ++ boxes (s ∷ [])) }
{
    text.extend_from_slice(b"M")?;
    push_point(text, s.from)?;
    text.extend_from_slice(b"H")?;
    push_x(text, s.to)?;
    text.extend_from_slice(b"V")?;
    push_y(text, s.to)?;
    text.extend_from_slice(b"H")?;
    push_x(text, s.from)?;
    text.extend_from_slice(b"z")?;
    Ok(())
}

/// Appends rectangles by opposite corners.
#[tactic(auto, unfolding(crate::specs::Pictures::boxes))]
fn push_boxes(text: &mut Vec<u8>, segments: &[Segment]) -> Result<(), NoMemory>
    ensures value { OnOk result (text.new.items ≡ text.old.items ++ boxes segments.now) }
{
    for segment in segments {
        push_box(text, *segment)?;
    }
    Ok(())
}

/// Appends a straight line of a path.
#[tactic(auto, unfolding(crate::specs::Pictures::strokes))]
fn push_stroke(text: &mut Vec<u8>, s: Segment) -> Result<(), NoMemory>
    ensures value { OnOk result (text.new.items ≡ text.old.items ++ strokes (s ∷ [])) }
{
    text.extend_from_slice(b"M")?;
    push_point(text, s.from)?;
    text.extend_from_slice(b"L")?;
    push_point(text, s.to)?;
    Ok(())
}

/// Appends straight lines.
#[tactic(auto, unfolding(crate::specs::Pictures::strokes))]
fn push_strokes(text: &mut Vec<u8>, segments: &[Segment]) -> Result<(), NoMemory>
    ensures value { OnOk result (text.new.items ≡ text.old.items ++ strokes segments.now) }
{
    for segment in segments {
        push_stroke(text, *segment)?;
    }
    Ok(())
}

/// Appends a link.
#[tactic(auto, unfolding(crate::specs::Pictures::link))]
fn push_link(text: &mut Vec<u8>, s: Segment) -> Result<(), NoMemory>
    ensures value { OnOk result (text.new.items ≡ text.old.items ++ link s) }
{
    text.extend_from_slice(b"<line")?;
    push_x_of(text, b"x1", s.from)?;
    push_y_of(text, b"y1", s.from)?;
    push_x_of(text, b"x2", s.to)?;
    push_y_of(text, b"y2", s.to)?;
    text.extend_from_slice(b"/>\n")?;
    Ok(())
}

/// Appends links.
#[tactic(auto, unfolding(crate::specs::Pictures::links))]
fn push_links(text: &mut Vec<u8>, segments: &[Segment]) -> Result<(), NoMemory>
    ensures value { OnOk result (text.new.items ≡ text.old.items ++ links segments.now) }
{
    for segment in segments {
        push_link(text, *segment)?;
    }
    Ok(())
}

/// Appends the mark of a start, where there is one: a ring of a radius.
#[tactic(auto, unfolding(crate::specs::Pictures::ring))]
pub(crate) fn push_ring(text: &mut Vec<u8>, radius: u128, at: Option<Point>) -> Result<(), NoMemory>
    ensures value { OnOk result (text.new.items ≡ text.old.items ++ ring radius at) }
{
    let Some(at) = at else {
        return Ok(());
    };
    text.extend_from_slice(b"<circle")?;
    push_x_of(text, b"cx", at)?;
    push_y_of(text, b"cy", at)?;
    push_size_of(text, b"r", radius)?;
    push_attribute(text, b"fill", b"#fff")?;
    text.extend_from_slice(b"/>\n")?;
    Ok(())
}

/// Appends the data of a square of twice a size round a point.
#[tactic(auto, unfolding(crate::specs::Pictures::square_data))]
fn push_square_data(text: &mut Vec<u8>, half: u128, at: Point) -> Result<(), NoMemory>
    requires half { half ≤ 2 ^ 60 }
    ensures value { OnOk result (text.new.items ≡ text.old.items ++ square_data half at) }
{
    text.extend_from_slice(b"M")?;
    push_point(text, at)?;
    text.extend_from_slice(b"m-")?;
    push_size(text, half)?;
    text.extend_from_slice(b" -")?;
    push_size(text, half)?;
    text.extend_from_slice(b"h")?;
    push_size(text, 2 * half)?;
    text.extend_from_slice(b"v")?;
    push_size(text, 2 * half)?;
    text.extend_from_slice(b"h-")?;
    push_size(text, 2 * half)?;
    text.extend_from_slice(b"z")?;
    Ok(())
}

/// Appends the mark of a stop, where there is one: a square of twice a size.
#[tactic(auto, unfolding(crate::specs::Pictures::square, crate::specs::Xml::attribute))]
pub(crate) fn push_square(text: &mut Vec<u8>, half: u128, at: Option<Point>) -> Result<(), NoMemory>
    requires half { half ≤ 2 ^ 60 }
    ensures value { OnOk result (text.new.items ≡ text.old.items ++ square half at) }
{
    let Some(at) = at else {
        return Ok(());
    };
    text.extend_from_slice(b"<path d=\"")?;
    push_square_data(text, half, at)?;
    text.extend_from_slice(b"\"/>\n")?;
    Ok(())
}

/// Appends the cells of a chain.
#[tactic(auto, unfolding(crate::specs::Pictures::cells_from, crate::specs::Xml::attribute))]
fn push_cells(text: &mut Vec<u8>, number: usize, chain: &DrawnChain) -> Result<(), NoMemory>
    ensures value { OnOk result (text.new.items ≡ text.old.items ++ cells_from number (chain.now ∷ [])) }
{
    text.extend_from_slice(b"<path")?;
    push_colour(text, b"fill", number)?;
    text.extend_from_slice(b" d=\"")?;
    push_boxes(text, chain.cells.as_slice())?;
    text.extend_from_slice(b"\"/>\n")?;
    Ok(())
}

/// Appends the links of a chain, and dashed its units of several cells.
#[tactic(auto, unfolding(crate::specs::Pictures::links_from, crate::specs::Xml::attribute))]
fn push_chain(
    text: &mut Vec<u8>,
    dash: u128,
    number: usize,
    chain: &DrawnChain,
) -> Result<(), NoMemory>
    ensures value { OnOk result (text.new.items ≡ text.old.items ++ links_from dash number (chain.now ∷ [])) }
{
    text.extend_from_slice(b"<g")?;
    push_colour(text, b"stroke", number)?;
    text.extend_from_slice(b">\n<path")?;
    push_size_of(text, b"stroke-dasharray", dash)?;
    text.extend_from_slice(b" d=\"")?;
    push_strokes(text, chain.spans.as_slice())?;
    text.extend_from_slice(b"\"/>\n")?;
    push_links(text, chain.links.as_slice())?;
    text.extend_from_slice(b"</g>\n")?;
    Ok(())
}

/// Appends the marks of a chain's start and stop.
#[tactic(auto, unfolding(crate::specs::Pictures::marks_from))]
fn push_marks(
    text: &mut Vec<u8>,
    mark: u128,
    number: usize,
    chain: &DrawnChain,
) -> Result<(), NoMemory>
    requires mark { mark ≤ 2 ^ 60 }
    ensures value { OnOk result (text.new.items ≡ text.old.items ++ marks_from mark number (chain.now ∷ [])) }
{
    text.extend_from_slice(b"<g")?;
    push_colour(text, b"stroke", number)?;
    push_colour(text, b"fill", number)?;
    text.extend_from_slice(b">\n")?;
    push_ring(text, mark, chain.start)?;
    push_square(text, mark, chain.stop)?;
    text.extend_from_slice(b"</g>\n")?;
    Ok(())
}

/// Appends the layer of the cells.
#[tactic(auto, unfolding(crate::specs::Pictures::cells_from))]
fn push_cell_layer(text: &mut Vec<u8>, chains: &[DrawnChain]) -> Result<(), NoMemory>
    ensures value { OnOk result (text.new.items ≡ text.old.items ++ cells_from 0 chains.now) }
{
    for number in 0..chains.len() {
        push_cells(text, number, &chains[number])?;
    }
    Ok(())
}

/// Appends the layer of the links.
#[tactic(auto, unfolding(crate::specs::Pictures::links_from))]
fn push_link_layer(text: &mut Vec<u8>, dash: u128, chains: &[DrawnChain]) -> Result<(), NoMemory>
    ensures value { OnOk result (text.new.items ≡ text.old.items ++ links_from dash 0 chains.now) }
{
    for number in 0..chains.len() {
        push_chain(text, dash, number, &chains[number])?;
    }
    Ok(())
}

/// Appends the layer of the marks.
#[tactic(auto, unfolding(crate::specs::Pictures::marks_from))]
fn push_mark_layer(text: &mut Vec<u8>, mark: u128, chains: &[DrawnChain]) -> Result<(), NoMemory>
    requires mark { mark ≤ 2 ^ 60 }
    ensures value { OnOk result (text.new.items ≡ text.old.items ++ marks_from mark 0 chains.now) }
{
    for number in 0..chains.len() {
        push_marks(text, mark, number, &chains[number])?;
    }
    Ok(())
}

/// Appends how places become those of the picture.
#[tactic(auto, unfolding(crate::specs::Pictures::transform))]
fn push_transform(text: &mut Vec<u8>, sheet: &Sheet) -> Result<(), NoMemory>
    ensures value { OnOk result (text.new.items ≡ text.old.items ++ transform sheet.now) }
{
    text.extend_from_slice(b"translate(")?;
    push_size(text, sheet.margin)?;
    text.extend_from_slice(b" ")?;
    push_size(text, sheet.margin)?;
    text.extend_from_slice(b")scale(-1 1)translate(")?;
    push_x(text, sheet.bounds.left)?;
    text.extend_from_slice(b" ")?;
    push_y(text, sheet.bounds.top)?;
    text.extend_from_slice(b")scale(-1 -1)")?;
    Ok(())
}

/// Appends what is drawn of the chains.
#[tactic(auto, unfolding(crate::specs::Pictures::drawing, crate::specs::Xml::attribute))]
pub(crate) fn push_drawing(
    text: &mut Vec<u8>,
    sheet: &Sheet,
    chains: &[DrawnChain],
) -> Result<(), NoMemory>
    requires stroke { sheet.now.stroke ≤ 2 ^ 60 }
    requires mark { sheet.now.mark ≤ 2 ^ 60 }
    ensures value { OnOk result (text.new.items ≡ text.old.items ++ drawing sheet.now chains.now) }
{
    text.extend_from_slice(b"<g transform=\"")?;
    push_transform(text, sheet)?;
    text.extend_from_slice(b"\">\n<g fill-opacity=\".25\">\n")?;
    push_cell_layer(text, chains)?;
    text.extend_from_slice(b"</g>\n<g")?;
    push_size_of(text, b"stroke-width", sheet.stroke)?;
    text.extend_from_slice(b" stroke-linecap=\"round\">\n")?;
    push_link_layer(text, 3 * sheet.stroke, chains)?;
    text.extend_from_slice(b"</g>\n<g")?;
    push_size_of(text, b"stroke-width", 2 * sheet.stroke)?;
    text.extend_from_slice(b">\n")?;
    push_mark_layer(text, sheet.mark, chains)?;
    text.extend_from_slice(b"</g>\n</g>\n")?;
    Ok(())
}
