//! The attributes and the dependencies of one table.

ghost use Rattle.std.specs.Prelude.{◌≡◌, ◌<◌, Some, length, slice_get, IfOk};
ghost use Rattle.std.specs.List.{list_any};
ghost use Rattle.schema_core.specs.Lookups.{attrs_at};
ghost use Rattle.cell_values.specs.TableRules.{rules_with, occurs, stands_in};

use cfd_semantics::Dependency;
use rule_model::Dep;
use schema_core::{Attr, Schema, Text};
use std::alloc::{AllocError, Global};
use std::marker::Model;

/// The attributes of a table.
pub fn attrs_at(schema: &Schema, table: usize) -> &[Attr]
    requires { table < length schema.now.tables }
    ensures { result.now ≡ attrs_at schema.now table }
{
    schema.tables.as_slice()[table].attrs.as_slice()
}

pub type Rule = Dependency<Text>;

/// Dependencies of one table, borrowed from where they stand. Clauses see their list.
#[derive(Drop)]
pub struct TableRules<'a> {
    rules: Vec<&'a Rule>,
}

impl<'a> Model for TableRules<'a> {
    ghost use Rattle.std.specs.Prelude.{List, map};
    ghost use Rattle.std.specs.List.{list_any};
    ghost use Rattle.cell_values.specs.TableRules.{Rule};

    ghost Value = { List Rule };

    ghost view = { λ t. map (λ rule. rule.now) t.rules.items };
}

impl<'a> TableRules<'a> {
    /// Those of the table, in their order, and after them those that are asked, whatever their table.
    pub fn new(
        alloc: Global,
        table: usize,
        deps: &'a [Dep],
        asked: &'a [Dep],
    ) -> Result<TableRules<'a>, AllocError>
        ensures { IfOk result (λ rules. rules ≡ rules_with table deps.now asked.now) }
    {
        let mut rules = Vec::new(alloc);
        for dep in deps {
            if dep.table == table {
                rules.push(&dep.rule)?;
            }
        }
        for dep in asked {
            rules.push(&dep.rule)?;
        }
        Ok(TableRules { rules })
    }

    /// Whether the attribute stands on a side of one of them.
    pub fn occurs(&self, attr: usize) -> bool
        ensures { result ≡ occurs self.now attr }
    {
        any_stands_in(attr, &self.rules)
    }

    pub fn len(&self) -> usize
        ensures { result ≡ length self.now }
    {
        self.rules.len()
    }

    pub fn get(&self, place: usize) -> &Rule
        requires { place < length self.now }
        ensures { slice_get self.now place ≡ Some result.now }
    {
        self.rules[place]
    }
}

fn any_stands_in(attr: usize, rules: &[&Rule]) -> bool
    ensures { result ≡ list_any (λ rule. stands_in attr rule.now) rules.now }
{
    rules.iter().any(|rule| stands_in(attr, rule))
}

fn stands_in(attr: usize, rule: &Rule) -> bool
    ensures { result ≡ stands_in attr rule.now }
{
    rule.a == attr || rule.x.as_slice().contains(&attr)
}
