//! Tables and attributes by their names, for declarations whose names may be unknown.

ghost use Rattle.std.specs.Prelude.{◌≡◌, drop, IfOk};
ghost use Rattle.std.specs.Option.{option_map_or};
ghost use Rattle.schema_core.specs.Schemas.{admits};
ghost use Rattle.schema_core.specs.declared.schema.Domain.TheVariants.{AnyText};
ghost use Rattle.schema_core.specs.Lookups.{table_number, attrs_of, master_at, place_of, attr_number, attr_numbers, domain_of};
ghost use Rattle.rule_model.specs.Rules.{pattern_attrs};

use crate::edit_rule::EditCell;
use schema_core::{Attr, Domain, List, Schema, Text, Texts};
use std::alloc::{AllocError, Global};

pub fn table_number(schema: &Schema, name: &Text) -> usize
    ensures { result ≡ table_number schema.now name.now }
{
    schema.table_named(name.as_str()).unwrap_or(0)
}

pub fn attrs_of<'a>(schema: &'a Schema, name: &Text) -> &'a [Attr]
    ensures { result.now ≡ attrs_of schema.now name.now }
{
    match schema.tables.as_slice().get(table_number(schema, name)) {
        Some(table) => table.attrs.as_slice(),
        None => &[],
    }
}

pub fn is_master(schema: &Schema, name: &Text) -> bool
    ensures { result ≡ master_at schema.now (table_number schema.now name.now) }
{
    match schema.tables.as_slice().get(table_number(schema, name)) {
        Some(table) => table.master,
        None => false,
    }
}

/// The place of the first attribute of that name.
pub fn place_of(attrs: &[Attr], name: &Text) -> Option<usize>
    ensures { result ≡ place_of attrs.now name.now }
{
    attrs.iter().position(|a| a.name.is(name.as_str()))
}

pub fn attr_number(attrs: &[Attr], name: &Text) -> usize
    ensures { result ≡ attr_number attrs.now name.now }
{
    place_of(attrs, name).unwrap_or(0)
}

pub fn attr_numbers(
    alloc: Global,
    attrs: &[Attr],
    names: &[Text],
) -> Result<List<usize>, AllocError>
    ensures { IfOk result (λ numbers. numbers ≡ attr_numbers attrs.now names.now) }
{
    let mut numbers = List::new(alloc);
    for name in names {
        numbers.push(attr_number(attrs, name))?;
    }
    Ok(numbers)
}

/// The domain of the attribute of that name; nothing stands for any text.
pub fn domain_of<'a>(attrs: &'a [Attr], name: &Text) -> Option<&'a Domain>
    ensures { option_map_or (λ domain. domain.now) result AnyText ≡ domain_of attrs.now name.now }
{
    match attrs.get(attr_number(attrs, name)) {
        Some(attr) => Some(&attr.domain),
        None => None,
    }
}

/// Whether the attribute of that name may have the text.
pub fn admits(attrs: &[Attr], name: &Text, text: &Text) -> bool
    ensures { result ≡ admits (domain_of attrs.now name.now) text.now }
{
    match attrs.get(attr_number(attrs, name)) {
        Some(attr) => attr.domain.admits(text.as_str()),
        None => true,
    }
}

/// The names of the attributes that a pattern asks something of.
pub fn pattern_attrs(alloc: Global, pattern: &[(Text, EditCell)]) -> Result<Texts, AllocError>
    ensures { IfOk result (λ names. names ≡ pattern_attrs pattern.now) }
{
    let mut names = List::new(alloc);
    for (name, _) in pattern {
        names.push(name.clone()?)?;
    }
    Ok(names)
}

/// What follows the first so many names.
pub fn after_first(names: &[Text], count: usize) -> &[Text]
    ensures { result.now ≡ drop count names.now }
{
    if count < names.len() {
        &names[count..]
    } else {
        &[]
    }
}
