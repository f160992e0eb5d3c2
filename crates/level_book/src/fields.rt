// The fields of a JSON value for a book.
ghost use Rattle.std.specs.Prelude.{◌≡◌, ◌<◌, IfSome, map, codes, option_map, is_some};
ghost use Rattle.serde_json.specs.View.{view};
ghost use Rattle.level_book.specs.BookText.{number_in, text_in, slots_in, list_in};
ghost use Rattle.level_book.specs.BookFaults.{number_of, name_of, missing_in};

use serde_json::Value;

// The whole number in a field.
pub(crate) fn number(value: &Value, field: &str) -> Option<u64>
    ensures { result ≡ number_in field.now (view value.now) }
{
    value.get(field).and_then(Value::as_u64)
}

// A number field that must be there; 0 where it isn't.
pub(crate) fn number_or_zero(value: &Value, field: &str) -> u64
    ensures { result ≡ number_of field.now (view value.now) }
{
    number(value, field).unwrap_or(0)
}

// The text in the field `name`.
pub(crate) fn name(entry: &Value) -> Option<&str>
    ensures { option_map (λ text. text.now) result ≡ text_in (codes "name") (view entry.now) }
{
    entry.get("name").and_then(Value::as_str)
}

// Its bytes; none where it isn't there.
pub(crate) fn name_bytes(entry: &Value) -> &[u8]
    ensures { result.now ≡ name_of (view entry.now) }
{
    match name(entry) {
        Some(text) => text.as_bytes(),
        None => &[],
    }
}

// Whether the field `slots` has a whole number or null.
pub(crate) fn has_slots(entry: &Value) -> bool
    ensures { result ≡ is_some (slots_in (codes "slots") (view entry.now)) }
{
    match entry.get("slots") {
        Some(slots) => slots.is_null() || slots.is_u64(),
        None => false,
    }
}

// The list in the field `levels`.
pub(crate) fn list(value: &Value) -> Option<&[Value]>
    ensures { option_map (λ list. map view list.now) result ≡ list_in (codes "levels") (view value.now) }
{
    match value.get("levels") {
        Some(levels) => match levels.as_array() {
            Some(list) => Some(list.as_slice()),
            None => None,
        },
        None => None,
    }
}

// The first of the four fields that an entry lacks.
pub(crate) fn missing(entry: &Value) -> Option<u8>
    ensures value { result ≡ missing_in (view entry.now) }
    ensures range { IfSome result (λ field. field < 4) }
{
    if name(entry).is_none() {
        Some(0)
    } else if !has_slots(entry) {
        Some(1)
    } else if number(entry, "write").is_none() {
        Some(2)
    } else if number(entry, "read").is_none() {
        Some(3)
    } else {
        None
    }
}
