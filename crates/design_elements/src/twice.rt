//! Elements that stand a second time.
ghost use Rattle.std.specs.Prelude.{◌≡◌, ◌∷◌, ◌++◌, [], ℕ, List, option_map, IfOk, OnOk};
ghost use Rattle.std.specs.List.{filter_map, flat_map, cons_option};
ghost use Rattle.def_reader.specs.Faults.{StandsAgain};
ghost use Rattle.def_reader.specs.Sound.{elements_in};
ghost use Rattle.list_laws.specs.Leasts.{IsLeast};
ghost use Rattle.design_elements.specs.Faults.{element_rows, all_rows};
ghost use Rattle.design_elements.specs.Seen.{IsSeenElements, row_of};

use crate::cells::Cells;
use crate::pins::{elements_in, pins_of};
use base_types::NoMemory;
use def_reader::{Element, ElementList, ScanChainText};
use list_laws::{lesser, line_if};
use std::alloc::Global;
use std::collections::HashSet;

/// The elements so far, each by its component and the number of its scan path, and the least line at which one stood again.
#[derive(Drop)]
pub(crate) struct SeenElements<'a> {
    elements: HashSet<(&'a [u8], usize)>,
    least: Option<u64>,
}

impl<'a> SeenElements<'a> {
    /// Nothing yet.
    fn new(alloc: Global) -> SeenElements<'a>
        ensures value { IsSeenElements result [] }
    {
        SeenElements {
            elements: HashSet::new(alloc),
            least: None,
        }
    }

    /// Adds a scan path of a component on a line.
    fn add(&mut self, component: &'a [u8], path: usize, line: u64) -> Result<(), NoMemory>
        ensures value { OnOk result ((rows : List ((List ℕ × ℕ) × ℕ)) → IsSeenElements self.old rows → IsSeenElements self.new (rows ++ ((component.now, path), line) ∷ [])) }
    {
        let again = !self.elements.insert((component, path))?;
        self.least = lesser(self.least, line_if(again, line));
        Ok(())
    }

    /// Adds an element, where its pins tell a scan path.
    fn add_element(
        &mut self,
        cells: &Cells<'_>,
        element: &'a Element,
        line: u64,
    ) -> Result<(), NoMemory>
        ensures value { OnOk result ((rows : List ((List ℕ × ℕ) × ℕ)) → IsSeenElements self.old rows → IsSeenElements self.new (rows ++ cons_option (row_of cells.now.0 cells.now.1 line element.now) [])) }
    {
        match cells.path_number(pins_of(element)) {
            Some(path) => self.add(element.component.bytes(), path, line),
            None => Ok(()),
        }
    }

    /// Adds the elements of a list.
    fn add_list(
        &mut self,
        cells: &Cells<'_>,
        elements: &'a [Element],
        line: u64,
    ) -> Result<(), NoMemory>
        ensures value { OnOk result ((rows : List ((List ℕ × ℕ) × ℕ)) → IsSeenElements self.old rows → IsSeenElements self.new (rows ++ filter_map (row_of cells.now.0 cells.now.1 line) elements.now)) }
    {
        for element in elements {
            self.add_element(cells, element, line)?;
        }
        Ok(())
    }

    /// Adds the elements of a chain.
    fn add_lists(
        &mut self,
        cells: &Cells<'_>,
        lists: &'a [ElementList],
        line: u64,
    ) -> Result<(), NoMemory>
        ensures value { OnOk result ((rows : List ((List ℕ × ℕ) × ℕ)) → IsSeenElements self.old rows → IsSeenElements self.new (rows ++ filter_map (row_of cells.now.0 cells.now.1 line) (flat_map elements_in lists.now))) }
    {
        for list in lists {
            self.add_list(cells, elements_in(list), line)?;
        }
        Ok(())
    }
}

/// The least line of a chain one of whose elements has the component and the scan path of one before it.
pub(crate) fn least_again(
    alloc: Global,
    cells: &Cells<'_>,
    chains: &[ScanChainText],
) -> Result<Option<u64>, NoMemory>
    ensures value { IfOk result (IsLeast (StandsAgain (all_rows cells.now.0 cells.now.1 chains.now))) }
{
    let mut seen = SeenElements::new(alloc);
    for chain in chains {
        seen.add_lists(cells, chain.lists.as_slice(), chain.line)?;
    }
    Ok(seen.least)
}
