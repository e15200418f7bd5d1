//! The tests of the names of a declaration. Each tells the first fault that it finds.

ghost use Rattle.std.specs.Prelude.{◌≡◌, ◌++◌};
ghost use Rattle.std.specs.Option.{option_copied, option_map};
ghost use Rattle.rule_model.specs.declared.fault.RuleFault.TheVariants.{RepeatedAttr};
ghost use Rattle.std.specs.List.{list_any, zip};
ghost use Rattle.std.specs.Str.{bytes_eq};
ghost use Rattle.text_lists.specs.Firsts.{first_in};
ghost use Rattle.text_lists.specs.Repeats.{repeated_after};
ghost use Rattle.rule_model.specs.Declarations.{name_of};
ghost use Rattle.schema_core.specs.Lookups.{attrs_of};
ghost use Rattle.rule_model.specs.Faults.{Finds, duplicate_rule, unknown_table_name, unknown_table, not_master, unknown_name, unknown_in, unknown_in_pair, unknown_in_pairs, unknown_attr, repeated_in, repeated_attr, no_match_column, target_in_x};

use crate::decl::{CfdDecl, CindDecl, Decl, EditDecl};
use crate::fault::{AddFault, RuleFault};
use crate::lookup::{after_first, attrs_of, is_master, pattern_attrs, place_of};
use schema_core::{Attr, Schema, Text};
use std::alloc::Global;

fn has_name(decls: &[Decl], name: &str) -> bool
    ensures { result ≡ list_any (λ decl. bytes_eq (name_of decl) name.now) decls.now }
{
    decls.iter().any(|decl| decl.name().is(name))
}

/// No earlier declaration has the name.
pub fn name_is_new(earlier: &[Decl], decl: &Decl) -> Result<(), AddFault>
    ensures { Finds result (duplicate_rule earlier.now decl.now) }
{
    let name = decl.name();
    if has_name(earlier, name.as_str()) {
        return Err(AddFault::Rule(RuleFault::DuplicateRule(name.clone()?)));
    }
    Ok(())
}

fn table_is_known(schema: &Schema, name: &Text) -> Result<(), AddFault>
    ensures { Finds result (unknown_table_name schema.now name.now) }
{
    if schema.table_named(name.as_str()).is_none() {
        return Err(AddFault::Rule(RuleFault::UnknownTable(name.clone()?)));
    }
    Ok(())
}

/// The schema has each table that is named.
pub fn tables_are_known(schema: &Schema, decl: &Decl) -> Result<(), AddFault>
    ensures { Finds result (unknown_table schema.now decl.now) }
{
    match decl {
        Decl::Cfd(cfd) => table_is_known(schema, &cfd.table),
        Decl::Cind(cind) => {
            table_is_known(schema, &cind.left)?;
            table_is_known(schema, &cind.right)
        }
        Decl::Edit(edit) => {
            table_is_known(schema, &edit.table)?;
            table_is_known(schema, &edit.master)
        }
    }
}

/// The master table of an editing rule is marked as one.
pub fn master_is_marked(schema: &Schema, decl: &Decl) -> Result<(), AddFault>
    ensures { Finds result (not_master schema.now decl.now) }
{
    match decl {
        Decl::Edit(edit) if !is_master(schema, &edit.master) => {
            Err(AddFault::Rule(RuleFault::NotMaster(edit.master.clone()?)))
        }
        _ => Ok(()),
    }
}

fn attr_is_known(attrs: &[Attr], name: &Text) -> Result<(), AddFault>
    ensures { Finds result (unknown_name attrs.now name.now) }
{
    if place_of(attrs, name).is_none() {
        return Err(AddFault::Rule(RuleFault::UnknownAttr(name.clone()?)));
    }
    Ok(())
}

fn attrs_in_are_known(attrs: &[Attr], names: &[Text]) -> Result<(), AddFault>
    ensures { Finds result (unknown_in attrs.now names.now) }
{
    for name in names {
        attr_is_known(attrs, name)?;
    }
    Ok(())
}

fn pair_is_known(
    attrs: &[Attr],
    masters: &[Attr],
    name: &Text,
    master: &Text,
) -> Result<(), AddFault>
    ensures { Finds result (unknown_in_pair attrs.now masters.now (name.now, master.now)) }
{
    attr_is_known(attrs, name)?;
    attr_is_known(masters, master)
}

fn pairs_are_known(
    attrs: &[Attr],
    masters: &[Attr],
    x: &[Text],
    xm: &[Text],
) -> Result<(), AddFault>
    ensures { Finds result (first_in (unknown_in_pair attrs.now masters.now) (zip x.now xm.now)) }
{
    for (name, master) in x.iter().zip(xm) {
        pair_is_known(attrs, masters, name, master)?;
    }
    Ok(())
}

#[tactic(auto, unfolding(crate::specs::Faults::unknown_in_pairs))]
fn columns_are_known(
    attrs: &[Attr],
    masters: &[Attr],
    x: &[Text],
    xm: &[Text],
) -> Result<(), AddFault>
    ensures { Finds result (unknown_in_pairs attrs.now masters.now x.now xm.now) }
{
    pairs_are_known(attrs, masters, x, xm)?;
    attrs_in_are_known(attrs, after_first(x, xm.len()))?;
    attrs_in_are_known(masters, after_first(xm, x.len()))
}

fn cfd_attrs_are_known(schema: &Schema, cfd: &CfdDecl) -> Result<(), AddFault>
    ensures { Finds result (unknown_attr schema.now (Decl.Cfd cfd.now)) }
{
    let attrs = attrs_of(schema, &cfd.table);
    attrs_in_are_known(attrs, cfd.x.as_slice())?;
    attrs_in_are_known(attrs, cfd.y.as_slice())
}

fn cind_attrs_are_known(schema: &Schema, cind: &CindDecl) -> Result<(), AddFault>
    ensures { Finds result (unknown_attr schema.now (Decl.Cind cind.now)) }
{
    let lefts = attrs_of(schema, &cind.left);
    attrs_in_are_known(lefts, cind.x.as_slice())?;
    attrs_in_are_known(lefts, cind.xp.as_slice())?;
    let rights = attrs_of(schema, &cind.right);
    attrs_in_are_known(rights, cind.y.as_slice())?;
    attrs_in_are_known(rights, cind.yp.as_slice())
}

fn edit_attrs_are_known(alloc: Global, schema: &Schema, edit: &EditDecl) -> Result<(), AddFault>
    ensures { Finds result (unknown_attr schema.now (Decl.Edit edit.now)) }
{
    let attrs = attrs_of(schema, &edit.table);
    let masters = attrs_of(schema, &edit.master);
    columns_are_known(attrs, masters, edit.x.as_slice(), edit.xm.as_slice())?;
    attr_is_known(attrs, &edit.target)?;
    attr_is_known(masters, &edit.source)?;
    let pattern = pattern_attrs(alloc, edit.when.as_slice())?;
    attrs_in_are_known(attrs, pattern.as_slice())
}

/// Each attribute that is named is in its table.
pub fn attrs_are_known(alloc: Global, schema: &Schema, decl: &Decl) -> Result<(), AddFault>
    ensures { Finds result (unknown_attr schema.now decl.now) }
{
    match decl {
        Decl::Cfd(cfd) => cfd_attrs_are_known(schema, cfd),
        Decl::Cind(cind) => cind_attrs_are_known(schema, cind),
        Decl::Edit(edit) => edit_attrs_are_known(alloc, schema, edit),
    }
}

#[tactic(auto, using(crate::proofs::Repeats::in_both))]
fn either_contains(front: &[Text], rest: &[Text], text: &Text) -> bool
    ensures { result ≡ list_any (λ other. bytes_eq other text.now) (front.now ++ rest.now) }
{
    front.contains(text) || rest.contains(text)
}

/// The first text that stands a second time, after those before the list.
pub fn find_repeated<'a>(before: &[Text], texts: &'a [Text]) -> Option<&'a Text>
    ensures { option_copied result ≡ repeated_after bytes_eq before.now texts.now }
{
    for (i, text) in texts.iter().enumerate() {
        if either_contains(before, &texts[..i], text) {
            return Some(text);
        }
    }
    None
}

fn are_new(before: &[Text], names: &[Text]) -> Result<(), AddFault>
    ensures { Finds result (option_map RepeatedAttr (repeated_after bytes_eq before.now names.now)) }
{
    match find_repeated(before, names) {
        Some(name) => Err(AddFault::Rule(RuleFault::RepeatedAttr(name.clone()?))),
        None => Ok(()),
    }
}

fn are_distinct(names: &[Text]) -> Result<(), AddFault>
    ensures { Finds result (repeated_in names.now) }
{
    are_new(&[], names)
}

fn both_are_distinct(names: &[Text], others: &[Text]) -> Result<(), AddFault>
    ensures { Finds result (repeated_in (names.now ++ others.now)) }
{
    are_new(&[], names)?;
    are_new(names, others)
}

/// No attribute stands twice where it may stand once.
pub fn attrs_are_distinct(alloc: Global, decl: &Decl) -> Result<(), AddFault>
    ensures { Finds result (repeated_attr decl.now) }
{
    match decl {
        Decl::Cfd(cfd) => {
            are_distinct(cfd.x.as_slice())?;
            are_distinct(cfd.y.as_slice())
        }
        Decl::Cind(cind) => {
            both_are_distinct(cind.x.as_slice(), cind.xp.as_slice())?;
            both_are_distinct(cind.y.as_slice(), cind.yp.as_slice())
        }
        Decl::Edit(edit) => {
            are_distinct(edit.x.as_slice())?;
            are_distinct(pattern_attrs(alloc, edit.when.as_slice())?.as_slice())
        }
    }
}

/// An editing rule matches a column.
pub fn column_is_matched(decl: &Decl) -> Result<(), AddFault>
    ensures { Finds result (no_match_column decl.now) }
{
    match decl {
        Decl::Edit(edit) if edit.x.as_slice().is_empty() => {
            Err(AddFault::Rule(RuleFault::NoMatchColumn))
        }
        _ => Ok(()),
    }
}

fn contains_name(names: &[Text], name: &str) -> bool
    ensures { result ≡ list_any (λ other. bytes_eq other name.now) names.now }
{
    names.iter().any(|other| other.is(name))
}

fn edit_target_is_outside(edit: &EditDecl) -> Result<(), AddFault>
    ensures { Finds result (target_in_x (Decl.Edit edit.now)) }
{
    if contains_name(edit.x.as_slice(), edit.target.as_str()) {
        return Err(AddFault::Rule(RuleFault::TargetInX(edit.target.clone()?)));
    }
    Ok(())
}

/// The target of an editing rule is none of its columns.
pub fn target_is_outside(decl: &Decl) -> Result<(), AddFault>
    ensures { Finds result (target_in_x decl.now) }
{
    match decl {
        Decl::Edit(edit) => edit_target_is_outside(edit),
        _ => Ok(()),
    }
}
