//! Rows of tests, which are data: a TOML file for each subject, with `[[row]]` for each row and `[[wrong]]` for each whose
//! answer is wrong on purpose.
//!
//! Each subject says which keys its rows have. A text is empty where its key is left out, a list is empty too, a number is 0,
//! and a truth is false. What is under a key must have the key's form, which `scripts/check-sweeps` says.
use row_forms::items_of;
use toml::Value;

/// The text that a value is.
pub(crate) fn text_of(value: &Value) -> &str {
    value.as_str().unwrap_or("")
}

/// The number that a value is.
pub(crate) fn number_of(value: &Value) -> i64 {
    value.as_integer().unwrap_or(0)
}

/// The number of a unit, a chain or a place that a value is, or one that there isn't.
pub(crate) fn place_of(value: &Value) -> u32 {
    u32::try_from(number_of(value)).unwrap_or(u32::MAX)
}

/// The text at a key.
pub(crate) fn text<'t>(row: &'t Value, key: &str) -> &'t str {
    match row.get(key) {
        Some(value) => text_of(value),
        None => "",
    }
}

/// The number at a key.
pub(crate) fn number(row: &Value, key: &str) -> i64 {
    match row.get(key) {
        Some(value) => number_of(value),
        None => 0,
    }
}

/// The truth at a key.
pub(crate) fn truth(row: &Value, key: &str) -> bool {
    match row.get(key) {
        Some(value) => value.as_bool().unwrap_or(false),
        None => false,
    }
}

/// The list at a key.
pub(crate) fn list<'t>(row: &'t Value, key: &str) -> &'t [Value] {
    match row.get(key) {
        Some(value) => items_of(value),
        None => &[],
    }
}
