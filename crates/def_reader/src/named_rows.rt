//! Rows that are found by their names.
ghost use Rattle.std.specs.Prelude.{◌≡◌, map, option_map, slice_get, IfOk};
ghost use Rattle.std.specs.List.{find, position};
ghost use Rattle.std.specs.Str.{bytes_eq};
ghost use Rattle.def_reader.specs.Faults.{StandsAgain};
ghost use Rattle.list_laws.specs.Leasts.{IsLeast};

use crate::index::Index;
use crate::named::Named;
use base_types::{NoMemory, Rows};
use std::alloc::Global;
use std::marker::Model;

/// Rows that are found by their names. Contracts see the rows.
pub struct NamedRows<T: Named> {
    rows: Rows<T>,
    index: Index,
}

// By hand, so that it is proved here and not again wherever rows are dropped.
impl<T: Named + Drop> Drop for NamedRows<T> {
    fn drop(self) {
        let NamedRows {
            rows: _rows,
            index: _index,
        } = self;
    }
}

impl<T: Named> Model for NamedRows<T> {
    ghost use Rattle.std.specs.Prelude.{List};
    ghost use Rattle.def_reader.specs.NamedRows.{IsIndexOf};

    ghost Value = { List T };

    ghost view = { λ n. n.rows };

    ghost invariant = { λ n. IsIndexOf T.name_of n.index n.rows };
}

fn row_at<T>(rows: &[T], place: usize) -> Option<&T>
    ensures value { option_map (λ row. row.now) result ≡ slice_get rows.now place }
{
    rows.get(place)
}

impl<T: Named + Drop> NamedRows<T> {
    /// The rows, and the least line at which a name stands that stood before.
    pub(crate) fn of(alloc: Global, rows: Rows<T>) -> Result<(NamedRows<T>, Option<u64>), NoMemory>
        ensures value { IfOk result (λ r. r.0 ≡ rows) }
        ensures least { IfOk result (λ r. IsLeast (StandsAgain (map (λ row. (T.name_of row, T.line_of row)) rows)) r.1) }
    {
        let (index, least) = Index::of(alloc, rows.as_slice())?;
        Ok((NamedRows { rows, index }, least))
    }
}

impl<T: Named> NamedRows<T> {
    /// The rows in order. Takes no memory.
    pub fn as_slice(&self) -> &[T]
        ensures value { result.now ≡ self.now }
    {
        self.rows.as_slice()
    }

    /// The first row of a name.
    pub fn find(&self, name: &[u8]) -> Option<&T>
        ensures value { option_map (λ row. row.now) result ≡ find (λ row. bytes_eq (T.name_of row) name.now) self.now }
    {
        let rows = self.rows.as_slice();
        match self.index.place(rows, name) {
            Some(place) => row_at(rows, place),
            None => None,
        }
    }
}

/// Rows that stand elsewhere, found by their names. Contracts see the rows.
#[derive(Drop)]
pub struct ByName<'r, T: Named> {
    rows: &'r [T],
    index: Index,
}

impl<'r, T: Named> Model for ByName<'r, T> {
    ghost use Rattle.std.specs.Prelude.{List};
    ghost use Rattle.def_reader.specs.NamedRows.{IsIndexOf};

    ghost Value = { List T };

    ghost view = { λ n. n.rows.now };

    ghost invariant = { λ n. IsIndexOf T.name_of n.index n.rows.now };
}

impl<'r, T: Named> ByName<'r, T> {
    /// Goes over the rows once, or answers want of memory.
    pub fn of(alloc: Global, rows: &'r [T]) -> Result<ByName<'r, T>, NoMemory>
        ensures value { IfOk result (λ named. named ≡ rows.now) }
    {
        let (index, _) = Index::of(alloc, rows)?;
        Ok(ByName { rows, index })
    }

    /// The place of the first row of a name.
    pub fn place(&self, name: &[u8]) -> Option<usize>
        ensures value { result ≡ position (λ row. bytes_eq (T.name_of row) name.now) self.now }
    {
        self.index.place(self.rows, name)
    }
}
