//! The fields of a record, as texts.

ghost use Rattle.std.specs.Prelude.{◌≡◌, ◌<◌, ◌≤◌, ℕ, List, [], Some, None, length, nat_lt, position, slice_index_or, take, true, false, MatchOption};
ghost use Rattle.std.specs.List.{list_all, list_any};
ghost use Rattle.std.specs.Str.{bytes_eq, is_utf8};
ghost use Rattle.csv.specs.Records.{fields_of};

use csv::ByteRecord;
use std::str;

fn field_bytes(fields: &ByteRecord, place: usize) -> &[u8]
    requires { place < length (fields_of fields.now) }
    ensures { result.now ≡ slice_index_or (fields_of fields.now) place [] }
{
    fields.get(place).unwrap()
}

/// The field at the place, if it is UTF-8.
pub fn field_text(fields: &ByteRecord, place: usize) -> Option<&str>
    requires { place < length (fields_of fields.now) }
    ensures { let field = slice_index_or (fields_of fields.now) place [] in MatchOption result (is_utf8 field ≡ false) (λ text. (text.now ≡ field) × (is_utf8 field ≡ true)) }
{
    match str::from_utf8(field_bytes(fields, place)) {
        Ok(text) => Some(text),
        Err(_) => None,
    }
}

/// The field at the place of a record whose fields are UTF-8.
pub(crate) fn utf8_field(fields: &ByteRecord, place: usize) -> &str
    requires inside { place < length (fields_of fields.now) }
    requires text { list_all is_utf8 (fields_of fields.now) ≡ true }
    ensures { result.now ≡ slice_index_or (fields_of fields.now) place [] }
{
    unsafe { str::from_utf8_unchecked(field_bytes(fields, place)) }
}

/// Whether each field is UTF-8.
pub(crate) fn is_text(fields: &ByteRecord) -> bool
    ensures { result ≡ list_all is_utf8 (fields_of fields.now) }
{
    for place in 0..fields.len() {
        if field_text(fields, place).is_none() {
            return false;
        }
    }
    true
}

/// Whether a field has more bytes than that.
pub fn has_longer_field(fields: &ByteRecord, most: u64) -> bool
    ensures { result ≡ list_any (λ (f : List ℕ). nat_lt most (length f)) (fields_of fields.now) }
{
    for place in 0..fields.len() {
        if field_bytes(fields, place).len() as u64 > most {
            return true;
        }
    }
    false
}

/// The place of the first of so many fields that is the given text.
pub(crate) fn place_of(fields: &ByteRecord, count: usize, text: &str) -> Option<usize>
    requires { count ≤ length (fields_of fields.now) }
    ensures { result ≡ position (λ (f : List ℕ). bytes_eq f text.now) (take count (fields_of fields.now)) }
{
    for place in 0..count {
        if field_bytes(fields, place) == text.as_bytes() {
            return Some(place);
        }
    }
    None
}
