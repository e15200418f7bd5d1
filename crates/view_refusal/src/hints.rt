//! What may stand where a refusal points: the names that are there, and the values of a domain.
ghost use Rattle.std.specs.Prelude.{◌≡◌, ◌++◌, IfOk, OnOk, take};
ghost use Rattle.std.specs.List.{flat_map};
ghost use Rattle.std.specs.Option.{option_map};
ghost use Rattle.view_refusal.specs.Hints.{attr_domain, attr_parts, attrs_if_named, attrs_line, attrs_words, cause_hint, domain_head, domain_if_named, domain_text, domain_words, fault_hint, file_hint, hint_text, is_its_name, is_named, line_of, more_words, names_text, parse_hint, rule_hint, table_domain, table_parts, tables_line, token_list, tokens_of};

use crate::shown::{Values, nth_line};
use cli_output::{Cause, Refusal};
use csv_tables::TableFault;
use rule_model::RuleFault;
use rule_parser::ParseCause;
use schema_core::{
    Attr, Domain, LineTokens, List, Schema, Table, Text, Token, Writes, push_list, push_number,
    read_tokens,
};
use std::alloc::{AllocError, Global};

/// Tells what may stand there, where there is a schema.
pub fn push_hint(
    alloc: Global,
    out: &mut Vec<u8>,
    refusal: &Refusal,
    bytes: &Option<List<u8>>,
    schema: &Option<Schema>,
) -> Result<(), AllocError>
    ensures { OnOk result (out.new.items ≡ out.old.items ++ hint_text refusal.now.what refusal.now.cause bytes.now schema.now) }
{
    match schema {
        Some(schema) => push_cause(alloc, out, refusal, bytes, schema.tables.as_slice()),
        None => Ok(()),
    }
}

fn push_cause(
    alloc: Global,
    out: &mut Vec<u8>,
    refusal: &Refusal,
    bytes: &Option<List<u8>>,
    tables: &[Table],
) -> Result<(), AllocError>
    ensures { OnOk result (out.new.items ≡ out.old.items ++ cause_hint refusal.now.what refusal.now.cause bytes.now tables.now) }
{
    match &refusal.cause {
        Cause::Table(fault) => push_of_file(out, &refusal.what, fault, tables),
        Cause::Rules { line, cause } => push_parse(
            alloc,
            out,
            cause,
            line_of(*line, bytes),
            tables,
        ),
        _ => Ok(()),
    }
}

// ---- a table file

fn push_of_file(
    out: &mut Vec<u8>,
    what: &Text,
    fault: &TableFault,
    tables: &[Table],
) -> Result<(), AllocError>
    ensures { OnOk result (out.new.items ≡ out.old.items ++ flat_map (file_hint what.now fault.now) tables.now) }
{
    for table in tables {
        push_if_its_file(out, what, fault, table)?;
    }
    Ok(())
}

fn push_if_its_file(
    out: &mut Vec<u8>,
    what: &Text,
    fault: &TableFault,
    table: &Table,
) -> Result<(), AllocError>
    ensures { OnOk result (out.new.items ≡ out.old.items ++ file_hint what.now fault.now table.now) }
{
    if table.file == *what {
        push_fault(out, fault, table)
    } else {
        Ok(())
    }
}

fn push_fault(out: &mut Vec<u8>, fault: &TableFault, table: &Table) -> Result<(), AllocError>
    ensures { OnOk result (out.new.items ≡ out.old.items ++ fault_hint fault.now table.now) }
{
    match fault {
        TableFault::HeaderColumn(_) | TableFault::HeaderLacks(_) => push_attrs(out, table),
        TableFault::NotInDomain { attr, .. } => push_domain(out, attr, table),
        _ => Ok(()),
    }
}

// ---- a line of a rule file

fn line_of(number: usize, bytes: &Option<List<u8>>) -> Option<&[u8]>
    ensures { option_map (λ line. line.now) result ≡ line_of number bytes.now }
{
    match bytes {
        Some(bytes) => nth_line(bytes.as_slice(), number.saturating_sub(1)),
        None => None,
    }
}

fn push_parse(
    alloc: Global,
    out: &mut Vec<u8>,
    cause: &ParseCause,
    line: Option<&[u8]>,
    tables: &[Table],
) -> Result<(), AllocError>
    ensures { OnOk result (out.new.items ≡ out.old.items ++ parse_hint cause.now (option_map (λ l. l.now) line.entry) tables.now) }
{
    match cause {
        ParseCause::Rule(fault) => {
            let tokens = tokens_of(alloc, line)?;
            push_rule(out, fault, token_list(&tokens), tables)
        }
        _ => Ok(()),
    }
}

fn tokens_of(alloc: Global, line: Option<&[u8]>) -> Result<LineTokens, AllocError>
    ensures { IfOk result (λ tokens. token_list tokens ≡ tokens_of (option_map (λ l. l.now) line.entry)) }
{
    match line {
        Some(line) => read_tokens(alloc, line),
        None => Ok(LineTokens::Passed),
    }
}

fn token_list(tokens: &LineTokens) -> &[Token]
    ensures { result.now ≡ token_list tokens.now }
{
    match tokens {
        LineTokens::Passed | LineTokens::NotUtf8 => &[],
        LineTokens::BadTokens(tokens) | LineTokens::Tokens(tokens) => tokens.as_slice(),
    }
}

fn push_rule(
    out: &mut Vec<u8>,
    fault: &RuleFault,
    tokens: &[Token],
    tables: &[Table],
) -> Result<(), AllocError>
    ensures { OnOk result (out.new.items ≡ out.old.items ++ rule_hint fault.now tokens.now tables.now) }
{
    match fault {
        RuleFault::UnknownTable(_) => push_tables(out, tables),
        RuleFault::UnknownAttr(_) => push_named_attrs(out, tokens, tables),
        RuleFault::ConstantOutsideDomain { attr, .. } => {
            push_named_domains(out, tokens, attr, tables)
        }
        _ => Ok(()),
    }
}

fn push_named_attrs(out: &mut Vec<u8>, tokens: &[Token], tables: &[Table]) -> Result<(), AllocError>
    ensures { OnOk result (out.new.items ≡ out.old.items ++ flat_map (attrs_if_named tokens.now) tables.now) }
{
    for table in tables {
        push_attrs_if_named(out, tokens, table)?;
    }
    Ok(())
}

fn push_attrs_if_named(out: &mut Vec<u8>, tokens: &[Token], table: &Table) -> Result<(), AllocError>
    ensures { OnOk result (out.new.items ≡ out.old.items ++ attrs_if_named tokens.now table.now) }
{
    if is_named(tokens, table) {
        push_attrs(out, table)
    } else {
        Ok(())
    }
}

fn push_named_domains(
    out: &mut Vec<u8>,
    tokens: &[Token],
    attr: &Text,
    tables: &[Table],
) -> Result<(), AllocError>
    ensures { OnOk result (out.new.items ≡ out.old.items ++ flat_map (domain_if_named tokens.now attr.now) tables.now) }
{
    for table in tables {
        push_domain_if_named(out, tokens, attr, table)?;
    }
    Ok(())
}

fn push_domain_if_named(
    out: &mut Vec<u8>,
    tokens: &[Token],
    attr: &Text,
    table: &Table,
) -> Result<(), AllocError>
    ensures { OnOk result (out.new.items ≡ out.old.items ++ domain_if_named tokens.now attr.now table.now) }
{
    if is_named(tokens, table) {
        push_domain(out, attr, table)
    } else {
        Ok(())
    }
}

fn is_named(tokens: &[Token], table: &Table) -> bool
    ensures { result ≡ is_named tokens.now table.now }
{
    for token in tokens {
        if is_its_name(table, token) {
            return true;
        }
    }
    false
}

fn is_its_name(table: &Table, token: &Token) -> bool
    ensures { result ≡ is_its_name table.now token.now }
{
    match token {
        Token::Name(text) => *text == table.name,
        Token::Number(_) | Token::Quoted(_) | Token::Sign(_) => false,
    }
}

// ---- names

fn push_tables(out: &mut Vec<u8>, tables: &[Table]) -> Result<(), AllocError>
    ensures { OnOk result (out.new.items ≡ out.old.items ++ tables_line tables.now) }
{
    out.extend_from_slice(b"there are: ")?;
    push_names::<TableNames, Table>(out, tables)
}

fn push_attrs(out: &mut Vec<u8>, table: &Table) -> Result<(), AllocError>
    ensures { OnOk result (out.new.items ≡ out.old.items ++ attrs_line table.now) }
{
    push_attrs_words(out, table)?;
    push_names::<AttrNames, Attr>(out, table.attrs.as_slice())
}

fn push_attrs_words(out: &mut Vec<u8>, table: &Table) -> Result<(), AllocError>
    ensures { OnOk result (out.new.items ≡ out.old.items ++ attrs_words table.now) }
{
    out.extend_from_slice(b"there are in ")?;
    out.extend_from_slice(table.name.as_str().as_bytes())?;
    out.extend_from_slice(b": ")
}

fn push_names<W: Writes<T>, T>(out: &mut Vec<u8>, items: &[T]) -> Result<(), AllocError>
    ensures { OnOk result (out.new.items ≡ out.old.items ++ names_text W.written items.now) }
{
    push_list::<W, T>(out, front(items))?;
    push_more(out, items.len().saturating_sub(20))?;
    out.push(b'\n')?;
    Ok(())
}

fn front<T>(items: &[T]) -> &[T]
    ensures { result.now ≡ take 20 items.now }
{
    if items.len() <= 20 {
        return items;
    }
    &items[..20]
}

fn push_more(out: &mut Vec<u8>, more: usize) -> Result<(), AllocError>
    ensures { OnOk result (out.new.items ≡ out.old.items ++ more_words more) }
{
    if more == 0 {
        return Ok(());
    }
    out.extend_from_slice(b" and ")?;
    push_number(out, more as u64)?;
    out.extend_from_slice(b" more")
}

/// Tables by their names.
struct TableNames;

impl Writes<Table> for TableNames {
    ghost written = { table_parts };

    fn push(out: &mut Vec<u8>, table: &Table) -> Result<(), AllocError> {
        out.extend_from_slice(table.name.as_str().as_bytes())
    }
}

/// Attributes by their names.
struct AttrNames;

impl Writes<Attr> for AttrNames {
    ghost written = { attr_parts };

    fn push(out: &mut Vec<u8>, attr: &Attr) -> Result<(), AllocError> {
        out.extend_from_slice(attr.name.as_str().as_bytes())
    }
}

// ---- domains

fn push_domain(out: &mut Vec<u8>, name: &Text, table: &Table) -> Result<(), AllocError>
    ensures { OnOk result (out.new.items ≡ out.old.items ++ table_domain name.now table.now) }
{
    for attr in table.attrs.as_slice() {
        push_attr_domain(out, &table.name, name, attr)?;
    }
    Ok(())
}

fn push_attr_domain(
    out: &mut Vec<u8>,
    table: &Text,
    name: &Text,
    attr: &Attr,
) -> Result<(), AllocError>
    ensures { OnOk result (out.new.items ≡ out.old.items ++ attr_domain table.now name.now attr.now) }
{
    if attr.name == *name {
        push_domain_text(out, table, attr)
    } else {
        Ok(())
    }
}

fn push_domain_text(out: &mut Vec<u8>, table: &Text, attr: &Attr) -> Result<(), AllocError>
    ensures { OnOk result (out.new.items ≡ out.old.items ++ domain_text table.now attr.now attr.now.domain) }
{
    match &attr.domain {
        Domain::AnyText => Ok(()),
        Domain::Finite(values) => push_domain_words(out, table, attr, values.as_slice()),
    }
}

fn push_domain_words(
    out: &mut Vec<u8>,
    table: &Text,
    attr: &Attr,
    values: &[Text],
) -> Result<(), AllocError>
    ensures { OnOk result (out.new.items ≡ out.old.items ++ domain_words table.now attr.now values.now) }
{
    push_domain_head(out, table, attr)?;
    push_list::<Values, Text>(out, values)?;
    out.push(b'\n')?;
    Ok(())
}

#[tactic(auto, unfolding(crate::specs::Hints::domain_head))]
fn push_domain_head(out: &mut Vec<u8>, table: &Text, attr: &Attr) -> Result<(), AllocError>
    ensures { OnOk result (out.new.items ≡ out.old.items ++ domain_head table.now attr.now) }
{
    out.extend_from_slice(b"the domain of ")?;
    out.extend_from_slice(table.as_str().as_bytes())?;
    out.push(b'.')?;
    out.extend_from_slice(attr.name.as_str().as_bytes())?;
    out.extend_from_slice(b" is ")
}
