//! Rows of tests, which are data.
use toml::Value;

/// The items of an array; none where the value is no array.
pub fn items_of(value: &Value) -> &[Value] {
    match value {
        Value::Array(items) => items.as_slice(),
        _ => &[],
    }
}
