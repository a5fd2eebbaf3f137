ghost use Rattle.std.specs.Prelude.{◌≡◌, ◌==◌, option_map};
ghost use Rattle.toml.specs.Data.{get_member};
ghost use Rattle.toml.specs.View.{view, array_view, table_view};
ghost use Rattle.cell_table.specs.Cells.{Gives, text_at, array_at, table_at, has_keys, members_len, bit_of};

use base_types::Stop;
use toml::value::Array;
use toml::{Table, Value};

/// The text at a key of a table.
pub(crate) fn text_at<'a>(value: &'a Value, key: &str) -> Option<&'a str>
    ensures { option_map (λ s. s.now) result ≡ text_at key.now (view value.now) }
{
    value.get(key)?.as_str()
}

/// The array at a key of a table.
pub(crate) fn array_at<'a>(value: &'a Value, key: &str) -> Option<&'a Array>
    ensures { option_map (λ items. array_view items.now) result ≡ array_at key.now (view value.now) }
{
    value.get(key)?.as_array()
}

/// The table at a key of a table.
pub(crate) fn table_at<'a>(value: &'a Value, key: &str) -> Option<&'a Table>
    ensures { option_map (λ members. table_view members.now) result ≡ table_at key.now (view value.now) }
{
    value.get(key)?.as_table()
}

/// Whether the value is a table of so many keys.
#[tactic(auto, using(crate::proofs::Views::members_len_view))]
pub(crate) fn has_keys(value: &Value, count: usize) -> bool
    ensures { result ≡ has_keys count (view value.now) }
{
    match value.as_table() {
        Some(table) => table.len() == count,
        None => false,
    }
}

/// What stands at a key of a table.
pub(crate) fn member_at<'a>(table: &'a Table, key: &str) -> Option<&'a Value>
    ensures { option_map (λ value. view value.now) result ≡ get_member key.now (table_view table.now) }
{
    table.get(key)
}

/// Whether the table has no key.
#[tactic(auto, using(crate::proofs::Views::members_len_view))]
pub(crate) fn is_empty(table: &Table) -> bool
    ensures { result ≡ (members_len (table_view table.now) == 0) }
{
    table.is_empty()
}

/// The bit that an integer writes.
#[tactic(auto, unfolding(crate::specs::Cells::bit_of))]
pub(crate) fn bit_of(value: &Value) -> Result<bool, Stop>
    ensures { Gives result (bit_of (view value.now)) }
{
    match value.as_integer() {
        Some(0) => Ok(false),
        Some(1) => Ok(true),
        _ => Err(Stop::NoForm),
    }
}
