//! What is read of a schema file, group by group.

ghost use Rattle.std.specs.Prelude.{◌≡◌, IfOk, OnOk, Some};
ghost use Rattle.line_grammar.specs.Faults.{IsUnlessMemory, GivesUnlessMemory, line_tells};
ghost use Rattle.line_grammar.specs.Groups.{in_turn};
ghost use Rattle.text_lists.specs.Names.{IsFileName};
ghost use Rattle.schema_core.specs.ReadSchemas.{IsTableSoFar, IsSchemaSoFar};
ghost use Rattle.schema_core.specs.SchemaFiles.{schema_causes, has_table, has_attr, has_no_value, has_value_twice, has_too_many_values, table_fault, attr_fault, unless, add_attr, add_table, add_file, add_group};
ghost use Rattle.text_lists.specs.declared.limits.Limits.{Limits as AllLimits};
ghost use Rattle.schema_core.specs.declared.schema.Schema.{Schema as AnySchema};
ghost use Rattle.schema_core.specs.declared.schema.Table.{Table as AnyTable};

use crate::schema::{Attr, Domain, Schema, SchemaCause, SchemaFault, Table};
use crate::schema_lines::{AttrLine, HeadLine, SchemaHead};
use line_grammar::{Gather, Group, Line, LineCause, LineFault, gather_all, no_lines};
use std::alloc::{AllocError, Global};
use text_lists::{Limit, Limits, List, Text, first_repeated};

impl LineCause for SchemaCause {
    ghost causes = { schema_causes };

    fn not_utf8() -> SchemaCause {
        SchemaCause::NotUtf8
    }

    fn bad_line() -> SchemaCause {
        SchemaCause::BadLine
    }
}

fn has_table(tables: &[Table], name: &str) -> bool
    ensures { result ≡ has_table tables.now name.now }
{
    tables.iter().any(|table| table.name.is(name))
}

fn has_attr(attrs: &[Attr], name: &str) -> bool
    ensures { result ≡ has_attr attrs.now name.now }
{
    attrs.iter().any(|attr| attr.name.is(name))
}

fn has_no_value(domain: &Domain) -> bool
    ensures { result ≡ has_no_value domain.now }
{
    match domain {
        Domain::AnyText => false,
        Domain::Finite(values) => values.as_slice().is_empty(),
    }
}

fn has_value_twice(alloc: Global, domain: &Domain) -> Result<bool, AllocError>
    ensures { IfOk result (λ twice. twice ≡ has_value_twice domain.now) }
{
    match domain {
        Domain::AnyText => Ok(false),
        Domain::Finite(values) => Ok(first_repeated(alloc, values.as_slice())?.is_some()),
    }
}

fn has_too_many_values(limits: &Limits, domain: &Domain) -> bool
    ensures { result ≡ has_too_many_values limits.now domain.now }
{
    match domain {
        Domain::AnyText => false,
        Domain::Finite(values) => limits.values < values.as_slice().len() as u64,
    }
}

/// What is wrong with a table line.
fn table_fault(
    limits: &Limits,
    tables: &[Table],
    name: &str,
    members: &[Line<'_>],
) -> Option<SchemaCause>
    ensures { result ≡ table_fault limits.now tables.now name.now members.now }
{
    if members.is_empty() {
        Some(SchemaCause::BadLine)
    } else if has_table(tables, name) {
        Some(SchemaCause::DuplicateName)
    } else if limits.tables <= tables.len() as u64 {
        Some(SchemaCause::TooMany(Limit::Tables))
    } else {
        None
    }
}

/// What is wrong with an attribute behind others.
fn attr_fault(
    alloc: Global,
    limits: &Limits,
    attrs: &[Attr],
    attr: &Attr,
) -> Result<Option<SchemaCause>, AllocError>
    ensures { IfOk result (λ fault. fault ≡ attr_fault limits.now attrs.now attr.now) }
{
    if has_attr(attrs, attr.name.as_str()) {
        Ok(Some(SchemaCause::DuplicateName))
    } else if has_no_value(&attr.domain) {
        Ok(Some(SchemaCause::EmptyDomain))
    } else if has_value_twice(alloc, &attr.domain)? {
        Ok(Some(SchemaCause::DuplicateValue))
    } else if limits.attrs <= attrs.len() as u64 {
        Ok(Some(SchemaCause::TooMany(Limit::Attrs)))
    } else if has_too_many_values(limits, &attr.domain) {
        Ok(Some(SchemaCause::TooMany(Limit::Values)))
    } else {
        Ok(None)
    }
}

/// Nothing, or the fault of the line with that number.
fn unless(fault: Option<SchemaCause>, line: usize) -> Result<(), SchemaFault>
    ensures { IsUnlessMemory line_tells (unless fault line tt) result }
{
    match fault {
        None => Ok(()),
        Some(cause) => Err(LineFault::At { line, cause }),
    }
}

/// A table that `attr` lines add to.
#[derive(Drop)]
struct TableLines {
    limits: Limits,
    table: Table,
}

impl<'a> Gather<Line<'a>> for TableLines {
    type Cause = SchemaCause;

    ghost Gathered = { AnyTable };

    ghost Made = { AllLimits };

    ghost gathered = { λ lines. lines.table };

    ghost made = { λ lines. lines.limits };

    ghost with_item = { add_attr };

    ghost is_fit = { IsTableSoFar };

    #[tactic(auto, unfolding(crate::specs::SchemaFiles::add_attr))]
    fn add(&mut self, alloc: Global, line: Line<'a>) -> Result<(), SchemaFault> {
        let number = line.number;
        let attr = line.read::<AttrLine, SchemaCause>(alloc)?;
        let fault = attr_fault(alloc, &self.limits, self.table.attrs.as_slice(), &attr)?;
        unless(fault, number)?;
        self.table.attrs.push(attr)?;
        Ok(())
    }
}

/// The table with the attributes of its members.
fn with_members(
    alloc: Global,
    limits: Limits,
    table: Table,
    members: List<Line<'_>>,
) -> Result<Table, SchemaFault>
    requires { IsTableSoFar limits table }
    ensures exact { IsUnlessMemory line_tells (in_turn (add_attr limits) table members.entry) result }
    ensures fit { IfOk result (IsTableSoFar limits) }
{
    let mut lines = TableLines { limits, table };
    gather_all(alloc, &mut lines, members)?;
    Ok(lines.table)
}

/// A schema that groups add to.
#[derive(Drop)]
pub struct SchemaGroups {
    pub limits: Limits,
    pub schema: Schema,
}

impl SchemaGroups {
    fn add_table(
        &mut self,
        alloc: Global,
        number: usize,
        table: Table,
        members: List<Line<'_>>,
    ) -> Result<(), SchemaFault>
        requires fit { IsSchemaSoFar self.old.limits self.old.schema }
        requires table { IsTableSoFar self.old.limits table }
        ensures exact { GivesUnlessMemory line_tells (add_table self.old.limits self.old.schema number table members.entry) (λ _. self.new.schema) result }
        ensures fit { OnOk result (IsSchemaSoFar self.new.limits self.new.schema) }
        ensures limits { self.new.limits ≡ self.old.limits }
    {
        let fault = table_fault(
            &self.limits,
            self.schema.tables.as_slice(),
            table.name.as_str(),
            members.as_slice(),
        );
        unless(fault, number)?;
        let whole = with_members(alloc, self.limits, table, members)?;
        self.schema.tables.push(whole)?;
        Ok(())
    }

    fn add_rules(
        &mut self,
        number: usize,
        file: Text,
        members: List<Line<'_>>,
    ) -> Result<(), SchemaFault>
        requires fit { IsSchemaSoFar self.old.limits self.old.schema }
        requires file { IsFileName file }
        ensures exact { GivesUnlessMemory line_tells (add_file self.old.schema.rules number (record self.old.schema { rules = Some file }) members.entry) (λ _. self.new.schema) result }
        ensures fit { OnOk result (IsSchemaSoFar self.new.limits self.new.schema) }
        ensures limits { self.new.limits ≡ self.old.limits }
    {
        if self.schema.rules.is_some() {
            return Err(LineFault::At {
                line: number,
                cause: SchemaCause::DuplicateName,
            });
        }
        self.schema.rules = Some(file);
        no_lines(members.as_slice())
    }

    fn add_script(
        &mut self,
        number: usize,
        file: Text,
        members: List<Line<'_>>,
    ) -> Result<(), SchemaFault>
        requires fit { IsSchemaSoFar self.old.limits self.old.schema }
        requires file { IsFileName file }
        ensures exact { GivesUnlessMemory line_tells (add_file self.old.schema.script number (record self.old.schema { script = Some file }) members.entry) (λ _. self.new.schema) result }
        ensures fit { OnOk result (IsSchemaSoFar self.new.limits self.new.schema) }
        ensures limits { self.new.limits ≡ self.old.limits }
    {
        if self.schema.script.is_some() {
            return Err(LineFault::At {
                line: number,
                cause: SchemaCause::DuplicateName,
            });
        }
        self.schema.script = Some(file);
        no_lines(members.as_slice())
    }
}

impl<'a> Gather<Group<'a>> for SchemaGroups {
    type Cause = SchemaCause;

    ghost Gathered = { AnySchema };

    ghost Made = { AllLimits };

    ghost gathered = { λ groups. groups.schema };

    ghost made = { λ groups. groups.limits };

    ghost with_item = { add_group };

    ghost is_fit = { IsSchemaSoFar };

    #[tactic(auto, unfolding(crate::specs::SchemaFiles::add_group))]
    fn add(&mut self, alloc: Global, group: Group<'a>) -> Result<(), SchemaFault> {
        let Group { head, members } = group;
        let number = head.number;
        match head.read::<HeadLine, SchemaCause>(alloc)? {
            SchemaHead::Table { master, name, file } => {
                let table = Table {
                    name,
                    file,
                    master,
                    attrs: List::new(alloc),
                };
                self.add_table(alloc, number, table, members)
            }
            SchemaHead::Rules(file) => self.add_rules(number, file, members),
            SchemaHead::Script(file) => self.add_script(number, file, members),
        }
    }
}
