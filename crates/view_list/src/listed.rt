//! All violations, or those that are asked for.

ghost use Rattle.std.specs.Prelude.{◌≡◌, ◌++◌, [], IfOk, OnOk, zip, if◌then◌else◌};
ghost use Rattle.std.specs.List.{flat_map};
ghost use Rattle.view_list.specs.Groups.{group_text, missing_text};
ghost use Rattle.view_list.specs.Listed.{cind_head, cind_part, cind_text, dep_head, dep_part, dep_text, has_rule, is_asked, is_told, keys_text, list_body, list_refusal, list_text, read_of, refused_text, rule_refusal, table_refusal, title_text};

use crate::attrs::{attrs_at, table_name};
use crate::groups::push_group;
use crate::missing::push_missing;
use crate::pieces::{first_of, left_out, push_counted, push_more};
use rule_model::{Cind, Dep, RuleBook};
use schema_core::{Attr, List, Schema, Text, push_quoted};
use std::alloc::{AllocError, Global};
use view_options::ListOptions;
use violation_groups::{Findings, Group, Missing, groups_size, missing_size};

// ---- what is asked for

fn is_asked(asked: &Option<Text>, name: &str) -> bool
    ensures { result ≡ is_asked asked.now name.now }
{
    match asked {
        Some(asked) => asked.is(name),
        None => true,
    }
}

fn is_told(options: &ListOptions, name: &Text, table: &str, groups: usize) -> bool
    ensures { result ≡ is_told options.now name.now table.now groups }
{
    let rule = is_asked(&options.rule, name.as_str());
    let here = is_asked(&options.table, table);
    rule && here && groups != 0
}

/// How many rows were read of a table.
pub fn read_of(counts: &[u64], table: usize) -> u64
    ensures { result ≡ read_of counts.now table }
{
    match counts.get(table) {
        Some(count) => *count,
        None => 0,
    }
}

fn push_title(out: &mut Vec<u8>, kind: &[u8], name: &Text, table: &str) -> Result<(), AllocError>
    ensures { OnOk result (out.new.items ≡ out.old.items ++ title_text kind.now name.now table.now) }
{
    out.extend_from_slice(kind)?;
    out.extend_from_slice(b" ")?;
    out.extend_from_slice(name.as_str().as_bytes())?;
    out.extend_from_slice(b" of ")?;
    out.extend_from_slice(table.as_bytes())?;
    out.extend_from_slice(b": ")
}

// ---- dependencies

fn push_dep_head(
    out: &mut Vec<u8>,
    schema: &Schema,
    dep: &Dep,
    groups: &[Group],
) -> Result<(), AllocError>
    ensures { OnOk result (out.new.items ≡ out.old.items ++ dep_head schema.now dep.now groups.now) }
{
    let size = groups_size(groups)?;
    push_title(out, b"dep", &dep.name, table_name(schema, dep.table))?;
    push_counted(out, size, b"row")?;
    out.extend_from_slice(b" in ")?;
    push_counted(out, groups.len(), b"group")?;
    out.extend_from_slice(b"\n")
}

fn push_groups(
    out: &mut Vec<u8>,
    most: Option<u64>,
    read: u64,
    attrs: &[Attr],
    dep: &Dep,
    groups: &[Group],
) -> Result<(), AllocError>
    ensures { OnOk result (out.new.items ≡ out.old.items ++ flat_map (group_text most read attrs.now dep.now) groups.now) }
{
    for group in groups {
        push_group(out, most, read, attrs, dep, group)?;
    }
    Ok(())
}

fn push_dep(
    out: &mut Vec<u8>,
    most: Option<u64>,
    schema: &Schema,
    counts: &[u64],
    dep: &Dep,
    groups: &[Group],
) -> Result<(), AllocError>
    ensures { OnOk result (out.new.items ≡ out.old.items ++ dep_text most schema.now counts.now dep.now groups.now) }
{
    let left = left_out(most, groups.len());
    let read = read_of(counts, dep.table);
    let attrs = attrs_at(schema, dep.table);
    push_dep_head(out, schema, dep, groups)?;
    push_groups(out, most, read, attrs, dep, first_of(groups, most))?;
    push_more(out, b"  ", left, b"\n")
}

fn push_dep_part(
    out: &mut Vec<u8>,
    options: &ListOptions,
    schema: &Schema,
    counts: &[u64],
    dep: &Dep,
    groups: &List<Group>,
) -> Result<(), AllocError>
    ensures { OnOk result (out.new.items ≡ out.old.items ++ dep_part options.now schema.now counts.now (dep.now, groups.now)) }
{
    let table = table_name(schema, dep.table);
    if is_told(options, &dep.name, table, groups.as_slice().len()) {
        push_dep(out, options.first, schema, counts, dep, groups.as_slice())
    } else {
        Ok(())
    }
}

fn push_deps(
    out: &mut Vec<u8>,
    options: &ListOptions,
    schema: &Schema,
    counts: &[u64],
    deps: &[Dep],
    found: &[List<Group>],
) -> Result<(), AllocError>
    ensures { OnOk result (out.new.items ≡ out.old.items ++ flat_map (dep_part options.now schema.now counts.now) (zip deps.now found.now)) }
{
    for i in 0..deps.len().min(found.len()) {
        push_dep_part(out, options, schema, counts, &deps[i], &found[i])?;
    }
    Ok(())
}

// ---- inclusions

fn push_cind_head(
    out: &mut Vec<u8>,
    schema: &Schema,
    cind: &Cind,
    missing: &[Missing],
) -> Result<(), AllocError>
    ensures { OnOk result (out.new.items ≡ out.old.items ++ cind_head schema.now cind.now missing.now) }
{
    let size = missing_size(missing)?;
    push_title(out, b"cind", &cind.name, table_name(schema, cind.left))?;
    push_counted(out, size, b"row")?;
    out.extend_from_slice(b" with ")?;
    push_counted(out, missing.len(), b"key")?;
    out.extend_from_slice(b" not in ")?;
    out.extend_from_slice(table_name(schema, cind.right).as_bytes())?;
    out.extend_from_slice(b"\n")
}

fn push_keys(
    out: &mut Vec<u8>,
    most: Option<u64>,
    read: u64,
    schema: &Schema,
    cind: &Cind,
    missing: &[Missing],
) -> Result<(), AllocError>
    ensures { OnOk result (out.new.items ≡ out.old.items ++ flat_map (missing_text most read schema.now cind.now) missing.now) }
{
    for key in missing {
        push_missing(out, most, read, schema, cind, key)?;
    }
    Ok(())
}

fn push_all_keys(
    out: &mut Vec<u8>,
    most: Option<u64>,
    schema: &Schema,
    counts: &[u64],
    cind: &Cind,
    missing: &[Missing],
) -> Result<(), AllocError>
    ensures { OnOk result (out.new.items ≡ out.old.items ++ keys_text most schema.now counts.now cind.now missing.now) }
{
    let left = left_out(most, missing.len());
    let read = read_of(counts, cind.left);
    push_keys(out, most, read, schema, cind, first_of(missing, most))?;
    push_more(out, b"  ", left, b"\n")
}

fn push_cind(
    out: &mut Vec<u8>,
    most: Option<u64>,
    schema: &Schema,
    counts: &[u64],
    cind: &Cind,
    missing: &[Missing],
) -> Result<(), AllocError>
    ensures { OnOk result (out.new.items ≡ out.old.items ++ cind_text most schema.now counts.now cind.now missing.now) }
{
    push_cind_head(out, schema, cind, missing)?;
    push_all_keys(out, most, schema, counts, cind, missing)
}

fn push_cind_part(
    out: &mut Vec<u8>,
    options: &ListOptions,
    schema: &Schema,
    counts: &[u64],
    cind: &Cind,
    missing: &List<Missing>,
) -> Result<(), AllocError>
    ensures { OnOk result (out.new.items ≡ out.old.items ++ cind_part options.now schema.now counts.now (cind.now, missing.now)) }
{
    let table = table_name(schema, cind.left);
    if is_told(options, &cind.name, table, missing.as_slice().len()) {
        push_cind(out, options.first, schema, counts, cind, missing.as_slice())
    } else {
        Ok(())
    }
}

fn push_cinds(
    out: &mut Vec<u8>,
    options: &ListOptions,
    schema: &Schema,
    counts: &[u64],
    cinds: &[Cind],
    found: &[List<Missing>],
) -> Result<(), AllocError>
    ensures { OnOk result (out.new.items ≡ out.old.items ++ flat_map (cind_part options.now schema.now counts.now) (zip cinds.now found.now)) }
{
    for i in 0..cinds.len().min(found.len()) {
        push_cind_part(out, options, schema, counts, &cinds[i], &found[i])?;
    }
    Ok(())
}

// ---- all rules

/// The groups and the missing keys of the rules that are asked for. `counts` has how many rows were read of each table.
pub fn list_body(
    alloc: Global,
    rules: &RuleBook,
    counts: &[u64],
    options: &ListOptions,
    findings: &Findings,
) -> Result<Vec<u8>, AllocError>
    ensures { IfOk result (λ body. body.items ≡ list_body rules.now counts.now options.now findings.now) }
{
    let schema = rules.schema();
    let (deps, cinds) = (findings.deps.as_slice(), findings.cinds.as_slice());
    let mut out = Vec::new(alloc);
    push_deps(
        &mut out,
        options,
        schema,
        counts,
        rules.deps().as_slice(),
        deps,
    )?;
    push_cinds(
        &mut out,
        options,
        schema,
        counts,
        rules.cinds().as_slice(),
        cinds,
    )?;
    Ok(out)
}

/// The whole text, by what is told of the rules.
pub fn list_text(alloc: Global, body: &[u8]) -> Result<Vec<u8>, AllocError>
    ensures { IfOk result (λ text. text.items ≡ list_text body.now) }
{
    let mut out = Vec::new(alloc);
    push_told(&mut out, body)?;
    Ok(out)
}

fn push_told(out: &mut Vec<u8>, body: &[u8]) -> Result<(), AllocError>
    ensures { OnOk result (out.new.items ≡ out.old.items ++ list_text body.now) }
{
    if body.is_empty() {
        return out.extend_from_slice(b"no violations\n");
    }
    out.extend_from_slice(
        b"Rows are told by their ids; the id of a row that was read is the number of its record.\n",
    )?;
    out.extend_from_slice(body)
}

// ---- names that are not there

/// Tells that something of that name is refused.
pub fn push_refused(out: &mut Vec<u8>, name: &Text, cause: &[u8]) -> Result<(), AllocError>
    ensures { OnOk result (out.new.items ≡ out.old.items ++ refused_text name.now cause.now) }
{
    out.extend_from_slice(b"refused ")?;
    push_quoted(out, name.as_str())?;
    out.extend_from_slice(b" ")?;
    out.extend_from_slice(cause)?;
    out.extend_from_slice(b"\n")
}

fn has_rule(rules: &RuleBook, name: &str) -> bool
    ensures { result ≡ has_rule rules.now name.now }
{
    rules.decls().as_slice().iter().any(|d| d.name().is(name))
}

fn push_unless(out: &mut Vec<u8>, known: bool, name: &Text, cause: &[u8]) -> Result<(), AllocError>
    ensures { OnOk result (out.new.items ≡ out.old.items ++ (if known then [] else refused_text name.now cause.now)) }
{
    if known {
        Ok(())
    } else {
        push_refused(out, name, cause)
    }
}

fn push_table_refusal(
    out: &mut Vec<u8>,
    rules: &RuleBook,
    table: &Option<Text>,
) -> Result<(), AllocError>
    ensures { OnOk result (out.new.items ≡ out.old.items ++ table_refusal rules.now table.now) }
{
    let Some(name) = table else {
        return Ok(());
    };
    let known = rules.schema().table_named(name.as_str()).is_some();
    push_unless(out, known, name, b"UnknownTable")
}

fn push_rule_refusal(
    out: &mut Vec<u8>,
    rules: &RuleBook,
    rule: &Option<Text>,
) -> Result<(), AllocError>
    ensures { OnOk result (out.new.items ≡ out.old.items ++ rule_refusal rules.now rule.now) }
{
    let Some(name) = rule else {
        return Ok(());
    };
    let known = has_rule(rules, name.as_str());
    push_unless(out, known, name, b"UnknownRule")
}

/// The line that refuses a table or a rule that is asked for and isn't there, if there is one.
pub fn list_refusal(
    alloc: Global,
    rules: &RuleBook,
    options: &ListOptions,
) -> Result<Vec<u8>, AllocError>
    ensures { IfOk result (λ line. line.items ≡ list_refusal rules.now options.now) }
{
    let mut out = Vec::new(alloc);
    push_table_refusal(&mut out, rules, &options.table)?;
    if out.is_empty() {
        push_rule_refusal(&mut out, rules, &options.rule)?;
    }
    Ok(out)
}
