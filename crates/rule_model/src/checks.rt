//! The tests of a declaration, in the order in which a fault is told.

ghost use Rattle.std.specs.Prelude.{◌≡◌, ◌++◌, [], ◌∷◌};
ghost use Rattle.std.specs.Option.{option_map_or};
ghost use Rattle.std.specs.List.{list_all};
ghost use Rattle.schema_core.specs.Schemas.{admits};
ghost use Rattle.schema_core.specs.declared.schema.Domain.TheVariants.{AnyText};
ghost use Rattle.rule_model.specs.Counts.{counts_of};
ghost use Rattle.schema_core.specs.Lookups.{attrs_of, domain_of};
ghost use Rattle.rule_model.specs.Faults.{Finds, is_within, domain_mismatch, schema_tests, fault_of};
ghost use Rattle.text_lists.specs.Firsts.{first_of};

use crate::cells::{constants_fit, sets_are_distinct, widths_fit};
use crate::counts::Counts;
use crate::decl::{Decl, EditDecl};
use crate::fault::{AddFault, RuleFault};
use crate::lookup::{attrs_of, domain_of};
use crate::names::{
    attrs_are_distinct, attrs_are_known, column_is_matched, master_is_marked, name_is_new,
    tables_are_known, target_is_outside,
};
use schema_core::{Domain, Limits, Schema, Text};
use std::alloc::Global;

fn all_are_admitted(texts: &[Text], domain: &Domain) -> bool
    ensures { result ≡ list_all (admits domain.now) texts.now }
{
    texts.iter().all(|text| domain.admits(text.as_str()))
}

fn is_within(source: Option<&Domain>, target: Option<&Domain>) -> bool
    ensures { result ≡ is_within (option_map_or (λ d. d.now) source.entry AnyText) (option_map_or (λ d. d.now) target.entry AnyText) }
{
    match (source, target) {
        (_, None | Some(Domain::AnyText)) => true,
        (Some(Domain::Finite(texts)), Some(target)) => all_are_admitted(texts.as_slice(), target),
        _ => false,
    }
}

fn source_is_within(schema: &Schema, edit: &EditDecl) -> bool
    ensures { result ≡ is_within (domain_of (attrs_of schema.now edit.now.master) edit.now.source) (domain_of (attrs_of schema.now edit.now.table) edit.now.target) }
{
    let source = domain_of(attrs_of(schema, &edit.master), &edit.source);
    let target = domain_of(attrs_of(schema, &edit.table), &edit.target);
    is_within(source, target)
}

fn edit_domains_fit(schema: &Schema, edit: &EditDecl) -> Result<(), AddFault>
    ensures { Finds result (domain_mismatch schema.now (Decl.Edit edit.now)) }
{
    if !source_is_within(schema, edit) {
        return Err(AddFault::Rule(RuleFault::DomainMismatch(edit.target.clone()?)));
    }
    Ok(())
}

/// What the source of an editing rule may hold, its target may hold too.
fn domains_fit(schema: &Schema, decl: &Decl) -> Result<(), AddFault>
    ensures { Finds result (domain_mismatch schema.now decl.now) }
{
    match decl {
        Decl::Edit(edit) => edit_domains_fit(schema, edit),
        _ => Ok(()),
    }
}

/// The tests over a schema alone, in the order in which a fault is told.
pub fn check_over_schema(alloc: Global, schema: &Schema, decl: &Decl) -> Result<(), AddFault>
    ensures { Finds result (first_of (schema_tests schema.now decl.now)) }
{
    tables_are_known(schema, decl)?;
    master_is_marked(schema, decl)?;
    attrs_are_known(alloc, schema, decl)?;
    attrs_are_distinct(alloc, decl)?;
    column_is_matched(decl)?;
    target_is_outside(decl)?;
    widths_fit(decl)?;
    constants_fit(schema, decl)?;
    sets_are_distinct(decl)?;
    domains_fit(schema, decl)
}

/// All tests of a declaration after earlier ones, with the counts of all of them.
#[tactic(auto, unfolding(crate::specs::Faults::fault_of))]
pub fn check(
    alloc: Global,
    schema: &Schema,
    limits: &Limits,
    earlier: &[Decl],
    counts: &Counts,
    decl: &Decl,
) -> Result<(), AddFault>
    requires { counts.now ≡ counts_of (earlier.now ++ decl.now ∷ []) }
    ensures { Finds result (fault_of schema.now limits.now earlier.now decl.now) }
{
    name_is_new(earlier, decl)?;
    check_over_schema(alloc, schema, decl)?;
    counts.keep(limits)
}
