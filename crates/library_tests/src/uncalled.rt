//! Calls that no program makes, each with ample memory: a dependency and a certificate are printed, a line is written from
//! its parts, the clauses of both questions about rules are made, and a line of the list is told by itself.

ghost use Rattle.std.specs.Prelude.{IfSome};
ghost use Rattle.violation_report.specs.Text.{IsLineOf};

use cert_text::{parse_cert, print_cert};
use cfd_consistency::consistency_clauses;
use cfd_implication::implication_clauses;
use rule_model::RuleBook;
use rule_parser::{parse_dep, parse_rules, print_dep};
use schema_core::{Limits, Mark, Part, Token, parse_schema, push_line};
use std::alloc::{AllocError, Global};
use std::test::Fail;
use violation_report::{Line, line_text};

const SCHEMA: &[u8] = b"table t 't'\nattr A\nattr B in 'x', 'y'\n";

const RULES: &[u8] = b"cfd f t: [A] -> [B]\nrow _ || 'x'\n";

const DEP: &str = "t: [B] -> [A] row 'x' || _";

const CERT: &[u8] = b"consistent t\nnever\nleaf clause 1\n";

const WRITTEN: &[u8] = b": 7";

const TOLD: &[u8] = b"single f.1 B t 7\n";

fn book(alloc: Global) -> Result<RuleBook, Fail> {
    let limits = Limits::standard();
    let schema = parse_schema(alloc, SCHEMA, &limits)?;
    Ok(parse_rules(alloc, schema, RULES, &limits)?)
}

fn dep_is_printed(alloc: Global, book: &RuleBook) -> Result<bool, Fail> {
    let dep = parse_dep(alloc, book, DEP)?;
    Ok(print_dep(alloc, book, &dep)?.as_slice() == DEP.as_bytes())
}

fn cert_is_printed(alloc: Global) -> Result<bool, Fail> {
    let cert = parse_cert(alloc, CERT)?;
    Ok(print_cert(alloc, &cert)?.as_slice() == CERT)
}

fn line_is_written(alloc: Global) -> Result<bool, AllocError> {
    let parts = [
        Part::Token(Token::Sign(Mark::Colon)),
        Part::Space,
        Part::Token(Token::Number(7)),
    ];
    let mut line = Vec::new(alloc);
    push_line(&mut line, parts.as_slice())?;
    Ok(line.as_slice() == WRITTEN)
}

fn questions_have_clauses(alloc: Global, book: &RuleBook) -> Result<bool, Fail> {
    let Some(table) = book.schema().table_named("t") else {
        return Ok(false);
    };
    let dep = parse_dep(alloc, book, DEP)?;
    consistency_clauses(alloc, book, table)?;
    implication_clauses(alloc, book, &dep)?;
    Ok(true)
}

/// A line of the first dependency's first tableau row.
fn first_line(book: &RuleBook) -> Option<Line>
    ensures { IfSome result (IsLineOf book.now) }
{
    match book.deps().as_slice() {
        [dep, ..] if !dep.rule.rows.as_slice().is_empty() => Some(Line::Single {
            dep: 0,
            k: 0,
            row: 7,
        }),
        _ => None,
    }
}

fn line_is_told(alloc: Global, book: &RuleBook) -> Result<bool, AllocError> {
    match first_line(book) {
        Some(line) => Ok(line_text(alloc, book, &line)?.as_slice() == TOLD),
        None => Ok(false),
    }
}

#[test]
fn with_ample_memory(rt: HostRuntime) -> Result<(), Fail> {
    let alloc = rt.alloc();
    let book = book(alloc)?;
    assert!(rt; dep_is_printed(alloc, &book)?);
    assert!(rt; cert_is_printed(alloc)?);
    assert!(rt; line_is_written(alloc)?);
    assert!(rt; questions_have_clauses(alloc, &book)?);
    assert!(rt; line_is_told(alloc, &book)?);
    Ok(())
}
