//! What a chain names: components, with pins of them.
ghost use Rattle.std.specs.Prelude.{◌≡◌, option_map};
ghost use Rattle.std.specs.List.{position};
ghost use Rattle.std.specs.Str.{bytes_eq};
ghost use Rattle.def_reader.specs.Sound.{elements_in};
ghost use Rattle.design_elements.specs.CellPins.{pins_of, leaves_by, fits, path_among, out_among};
ghost use Rattle.design_elements.specs.Judging.{pins_at, name_at};

use base_types::Name;
use cell_table::{OutPin, ScanPath};
use def_reader::{Element, ElementList};

/// A component, and the in pin and the out pin that are named of it.
#[derive(Clone, Copy)]
pub(crate) struct Pins<'d> {
    pub component: &'d Name,
    pub input: Option<&'d Name>,
    pub output: Option<&'d Name>,
}

/// The elements of a list.
pub(crate) fn elements_in(list: &ElementList) -> &[Element]
    ensures value { result.now ≡ elements_in list.now }
{
    match list {
        ElementList::Floating(elements) => elements.as_slice(),
        ElementList::Ordered(elements) => elements.as_slice(),
    }
}

/// What an element names.
pub(crate) fn pins_of(element: &Element) -> Pins<'_>
    ensures value { pins_at result ≡ pins_of element.now }
{
    Pins {
        component: &element.component,
        input: element.input.as_ref(),
        output: element.output.as_ref(),
    }
}

fn leaves_by(path: &ScanPath, pin: &Name) -> bool
    ensures value { result ≡ leaves_by path.now pin.now }
{
    path.outs
        .as_slice()
        .iter()
        .any(|out| out.pin.bytes() == pin.bytes())
}

/// Whether the scan path has each pin that is named: it is entered by the in pin, and left by the out pin.
fn fits(input: Option<&Name>, output: Option<&Name>, path: &ScanPath) -> bool
    ensures value { result ≡ fits (name_at input.entry) (name_at output.entry) path.now }
{
    match (input, output) {
        (None, None) => true,
        (Some(input), None) => path.input.bytes() == input.bytes(),
        (None, Some(output)) => leaves_by(path, output),
        (Some(input), Some(output)) => {
            path.input.bytes() == input.bytes() && leaves_by(path, output)
        }
    }
}

fn first_fitting(paths: &[ScanPath], input: Option<&Name>, output: Option<&Name>) -> Option<usize>
    ensures value { result ≡ position (fits (name_at input.entry) (name_at output.entry)) paths.now }
{
    paths.iter().position(|path| fits(input, output, path))
}

/// The number of the scan path that the pins tell: the first that has each named pin; where none is named, the only one.
pub(crate) fn path_among(
    paths: &[ScanPath],
    input: Option<&Name>,
    output: Option<&Name>,
) -> Option<usize>
    ensures value { result ≡ path_among paths.now (name_at input.entry) (name_at output.entry) }
{
    if input.is_none() && (output.is_none() && paths.len() != 1) {
        None
    } else {
        first_fitting(paths, input, output)
    }
}

fn place_of(outs: &[OutPin], pin: &Name) -> Option<usize>
    ensures value { result ≡ position (λ o. bytes_eq o.pin pin.now) outs.now }
{
    outs.iter().position(|out| out.pin.bytes() == pin.bytes())
}

/// The number of the out pin that is named, among those of the scan path.
pub(crate) fn out_among(output: Option<&Name>, path: Option<&ScanPath>) -> Option<usize>
    ensures value { result ≡ out_among (name_at output.entry) (option_map (λ p. p.now) path.entry) }
{
    match (output, path) {
        (Some(output), Some(path)) => place_of(path.outs.as_slice(), output),
        (Some(_), None) | (None, _) => None,
    }
}
