//! Where rows stand by their names.
ghost use Rattle.std.specs.Prelude.{◌≡◌, ◌+◌, ◌≤◌, ◌<◌, ℕ, Option, Some, length, map, take, slice_get, is_none, is_some, option_map, unwrap_or, false, IfSome, IfOk, OnOk};
ghost use Rattle.std.specs.List.{position};
ghost use Rattle.std.specs.Str.{bytes_eq};
ghost use Rattle.def_reader.specs.Faults.{StandsAgain};
ghost use Rattle.def_reader.specs.NamedRows.{key_of, bucket_of, Leads, AreEntered, IsIndexOf};
ghost use Rattle.list_laws.specs.Leasts.{IsLeast};

use crate::named::Named;
use base_types::NoMemory;
use list_laws::{lesser, line_if};
use std::alloc::Global;
use std::cell::Cell;
use std::hash::{DefaultHasher, FoldHasher, Hasher};

// How many buckets there are for a row: of so many few are shared, and each row of another name costs a way to it.
const BUCKETS: usize = 4;

/// Where rows stand by their names. Of rows of one name only the first is entered.
///
/// The rows of a bucket are a chain. A link is one more than the place of a row, or 0 where there is none: `heads` has a link for each
/// bucket, to the row that was entered last, and `links` one for each row, to the row of its bucket that was entered before it.
///
/// Files mostly name rows in their order. So where no two rows have one name, the row that was found last and the one behind it are tried
/// before the chains.
#[derive(Drop)]
pub(crate) struct Index {
    heads: Vec<u32>,
    links: Vec<u32>,
    key: u64,
    /// Whether no two rows have one name.
    apart: bool,
    /// The place that was found last.
    last: Cell<usize>,
}

/// Whether the row at a place has a name.
fn is_named<T: Named>(rows: &[T], place: usize, name: &[u8]) -> bool
    ensures value { result ≡ unwrap_or (option_map (λ row. bytes_eq (T.name_of row) name.now) (slice_get rows.now place)) false }
{
    match rows.get(place) {
        Some(row) => row.name() == name,
        None => false,
    }
}

/// A key from the names of all rows, so that who writes the names doesn't know it before they are written, nor which of them get one
/// bucket.
fn key_of<T: Named>(rows: &[T]) -> u64
    ensures value { result ≡ key_of T.name_of rows.now }
{
    let mut hasher = DefaultHasher::new();
    for row in rows {
        hasher.write(row.name());
    }
    hasher.finish()
}

impl Index {
    /// The bucket of a name.
    #[tactic(auto, unfolding(crate::specs::NamedRows::bucket_of))]
    fn bucket(&self, name: &[u8]) -> usize
        requires some { 0 < length self.now.heads.items }
        ensures value { result ≡ bucket_of self.now.key (length self.now.heads.items) name.now }
        ensures within { result < length self.now.heads.items }
    {
        let mut hasher = FoldHasher::default();
        hasher.write_u64(self.key);
        hasher.write(name);
        (hasher.finish() % self.heads.len() as u64) as usize
    }

    /// The place of the row of a name, by the chain from a link on.
    fn along<T: Named>(&self, rows: &[T], name: &[u8], head: u32) -> Option<usize>
        requires entered { AreEntered T.name_of self.now rows.now }
        requires head { head ≤ length self.now.links.items }
        ensures value { (found : Option ℕ) → Leads T.name_of rows.now self.now.links.items name.now head found → result ≡ found }
    {
        let mut link = head;
        while link != 0 {
            let place = link as usize - 1;
            if rows[place].name() == name {
                return Some(place);
            }
            link = self.links[place];
        }
        None
    }

    /// Enters the next row, unless one of its name stands before it, and says whether it did.
    fn enter<T: Named>(&mut self, rows: &[T], row: &T) -> Result<bool, NoMemory>
        requires entered { AreEntered T.name_of self.old rows.now }
        requires next { slice_get rows.now (length self.old.links.items) ≡ Some row.now }
        ensures entered { OnOk result (AreEntered T.name_of self.new rows.now) }
        ensures count { OnOk result (length self.new.links.items ≡ length self.old.links.items + 1) }
        ensures key { OnOk result (self.new.key ≡ self.old.key) }
        ensures added { IfOk result (λ added. added ≡ is_none (position (λ other. bytes_eq (T.name_of other) (T.name_of row.now)) (take (length self.old.links.items) rows.now))) }
    {
        let name = row.name();
        let bucket = self.bucket(name);
        let head = self.heads[bucket];
        if self.along(rows, name, head).is_some() {
            self.links.push(0)?;
            return Ok(false);
        }
        let Ok(link) = u32::try_from(self.links.len() + 1) else {
            return Err(NoMemory);
        };
        self.links.push(head)?;
        self.heads[bucket] = link;
        Ok(true)
    }

    /// The places of rows by their names, and the least line at which a name stands that stood before. More rows than 32 bits count
    /// would be want of memory.
    pub(crate) fn of<T: Named>(alloc: Global, rows: &[T]) -> Result<(Index, Option<u64>), NoMemory>
        ensures index { IfOk result (λ r. IsIndexOf T.name_of r.0 rows.now) }
        ensures key { IfOk result (λ r. r.0.key ≡ key_of T.name_of rows.now) }
        ensures least { IfOk result (λ r. IsLeast (StandsAgain (map (λ row. (T.name_of row, T.line_of row)) rows.now)) r.1) }
    {
        let mut index = Index {
            heads: vec![in alloc; 0; rows.len().saturating_mul(BUCKETS).max(1)]?,
            links: Vec::with_capacity(alloc, rows.len())?,
            key: key_of(rows),
            apart: false,
            last: Cell::new(0),
        };
        let mut least = None;
        for row in rows {
            let added = index.enter(rows, row)?;
            least = lesser(least, line_if(!added, row.line()));
        }
        index.apart = least.is_none();
        Ok((index, least))
    }

    /// The place of the row of a name, where that was found last or stands behind the one that was.
    fn near<T: Named>(&self, rows: &[T], name: &[u8]) -> Option<usize>
        requires index { IsIndexOf T.name_of self.now rows.now }
        ensures value { IfSome result (λ place. position (λ row. bytes_eq (T.name_of row) name.now) rows.now ≡ Some place) }
    {
        if !self.apart {
            return None;
        }
        let last = self.last.get();
        if is_named(rows, last, name) {
            return Some(last);
        }
        let next = last.saturating_add(1);
        if is_named(rows, next, name) {
            return Some(next);
        }
        None
    }

    /// The place of the first row of a name, by the chain of its bucket.
    fn far<T: Named>(&self, rows: &[T], name: &[u8]) -> Option<usize>
        requires index { IsIndexOf T.name_of self.now rows.now }
        ensures value { result ≡ position (λ row. bytes_eq (T.name_of row) name.now) rows.now }
    {
        let bucket = self.bucket(name);
        self.along(rows, name, self.heads[bucket])
    }

    /// The place of the first row of a name.
    pub(crate) fn place<T: Named>(&self, rows: &[T], name: &[u8]) -> Option<usize>
        requires index { IsIndexOf T.name_of self.now rows.now }
        ensures value { result ≡ position (λ row. bytes_eq (T.name_of row) name.now) rows.now }
    {
        let found = match self.near(rows, name) {
            Some(place) => Some(place),
            None => self.far(rows, name),
        };
        if let Some(place) = found {
            self.last.set(place);
        }
        found
    }
}
