//! What is asked of the texts of an edit.

ghost use Rattle.std.specs.Prelude.{◌≡◌, length, option_map, option_copied};
ghost use Rattle.std.specs.List.{list_all};
ghost use Rattle.line_grammar.specs.Faults.{IsUnlessMemory};
ghost use Rattle.bench_core.specs.Edited.{is_short, outside_domain, refusal_of, require_row, require_text};

use crate::edit::EditFault;
use schema_core::{Attr, Limits, Table, Text};

fn is_short(limits: &Limits, text: &Text) -> bool
    ensures { result ≡ is_short limits.now text.now }
{
    text.as_str().len() as u64 <= limits.cell_bytes
}

fn are_short(limits: &Limits, texts: &[Text]) -> bool
    ensures { result ≡ list_all (is_short limits.now) texts.now }
{
    texts.iter().all(|text| is_short(limits, text))
}

/// The first attribute whose domain lacks its text.
fn outside_domain<'a>(attrs: &'a [Attr], texts: &[Text]) -> Option<&'a Text>
    requires { length texts.now ≡ length attrs.now }
    ensures { option_map EditFault.NotInDomain (option_copied result) ≡ outside_domain attrs.now texts.now }
{
    for (place, attr) in attrs.iter().enumerate() {
        if !attr.domain.admits(texts[place].as_str()) {
            return Some(&attr.name);
        }
    }
    None
}

/// The texts are a row of the table.
pub(crate) fn check_row(limits: &Limits, table: &Table, texts: &[Text]) -> Result<(), EditFault>
    ensures { IsUnlessMemory refusal_of (require_row limits.now table.now texts.now) result }
{
    let attrs = table.attrs.as_slice();
    if texts.len() != attrs.len() {
        return Err(EditFault::WrongWidth);
    }
    if !are_short(limits, texts) {
        return Err(EditFault::TextTooLong);
    }
    match outside_domain(attrs, texts) {
        None => Ok(()),
        Some(attr) => Err(EditFault::NotInDomain(attr.clone()?)),
    }
}

/// The text may stand at the attribute.
pub(crate) fn check_text(limits: &Limits, attr: &Attr, text: &Text) -> Result<(), EditFault>
    ensures { IsUnlessMemory refusal_of (require_text limits.now attr.now text.now) result }
{
    if !is_short(limits, text) {
        return Err(EditFault::TextTooLong);
    }
    if !attr.domain.admits(text.as_str()) {
        return Err(EditFault::NotInDomain(attr.name.clone()?));
    }
    Ok(())
}
