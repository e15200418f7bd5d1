//! Tables and attributes by their numbers.

ghost use Rattle.std.specs.Prelude.{◌≡◌};
ghost use Rattle.schema_core.specs.Lookups.{attrs_at};
ghost use Rattle.rule_parser.specs.RuleText.{attr_name, table_name};

use schema_core::{Attr, Schema};

pub fn attrs_at(schema: &Schema, table: usize) -> &[Attr]
    ensures { result.now ≡ attrs_at schema.now table }
{
    match schema.tables.as_slice().get(table) {
        Some(table) => table.attrs.as_slice(),
        None => &[],
    }
}

pub fn table_name(schema: &Schema, table: usize) -> &str
    ensures { result.now ≡ table_name schema.now table }
{
    match schema.tables.as_slice().get(table) {
        Some(table) => table.name.as_str(),
        None => "",
    }
}

pub fn attr_name(attrs: &[Attr], attr: usize) -> &str
    ensures { result.now ≡ attr_name attrs.now attr }
{
    match attrs.get(attr) {
        Some(attr) => attr.name.as_str(),
        None => "",
    }
}
