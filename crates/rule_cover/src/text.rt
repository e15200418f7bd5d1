//! The lines of the fates of pieces.

ghost use Rattle.std.specs.Prelude.{◌≡◌, ℕ, ◌+◌, ◌<◌, ◌^◌, ◌++◌, ◌∷◌, [], All, length, slice_index_or, IfOk, OnOk};
ghost use Rattle.schema_core.specs.Lookups.{attrs_at};
ghost use Rattle.schema_core.specs.Schemas.{IsValidSchema};
ghost use Rattle.line_grammar.specs.Spelling.{file_text, line_text};
ghost use Rattle.rule_model.specs.Books.{book_deps};
ghost use Rattle.rule_model.specs.Rules.{IsValidDep};
ghost use Rattle.rule_model.specs.declared.dep.Dep.{Dep as AnyDep};
ghost use Rattle.rule_parser.specs.RuleText.{attr_name};
ghost use Rattle.cert_check.specs.Made.{IsRightTree};
ghost use Rattle.cert_check.specs.Shown.{asks_from};
ghost use Rattle.rule_cover.specs.CoverText.{IsCoverText, AppendsSome, IsFateText, IsTextOf, IsTreeFate, head_parts, last_parts, place_parts};
ghost use Rattle.rule_cover.specs.Fates.{AreNumbersOf, AreSomeFates, AreSomeRight, IsSomeAnswer, numbers_of};
ghost use Rattle.rule_cover.specs.Pieces.{IsPiece};

use crate::fates::{Fate, Piece, PieceFates};
use crate::pieces::{Pieces, table_pieces};
use crate::rounds::{Round, Turn};
use case_tree::Tree;
use cert_check::tree_text;
use cert_text::push_texts;
use rule_model::{Dep, RuleBook};
use schema_core::{Schema, Text, push_number};
use std::alloc::{AllocError, Global};

/// The lines of the fates of the pieces of a table, and behind them how many pieces stay.
pub fn cover_text(
    alloc: Global,
    rules: &RuleBook,
    found: &PieceFates,
) -> Result<Vec<u8>, AllocError>
    requires { AreSomeFates rules.now.schema (book_deps rules.now) found.now.fates }
    ensures { IfOk result (λ text. (table : ℕ) → AreNumbersOf table (book_deps rules.now) found.now.fates → IsCoverText rules.now.schema (book_deps rules.now) table found.now.fates text.items) }
{
    let deps = rules.deps().as_slice();
    let fates = found.fates.as_slice();
    match fates {
        [] => no_fates(alloc),
        [(first, _), ..] => {
            let pieces = table_pieces(alloc, deps, table_of(deps, *first))?;
            fates_text(alloc, rules.schema(), pieces, fates)
        }
    }
}

/// The table of a piece.
fn table_of(deps: &[Dep], piece: Piece) -> usize
    requires { piece.dep < length deps.now }
    ensures { (d : AnyDep) → result ≡ (slice_index_or deps.now piece.dep d).table }
{
    deps[piece.dep].table
}

/// The text of no pieces.
fn no_fates(alloc: Global) -> Result<Vec<u8>, AllocError>
    ensures { IfOk result (λ text. text.items ≡ file_text (last_parts 0 0 ∷ [])) }
{
    let mut out = Vec::new(alloc);
    push_last(&mut out, 0, 0)?;
    Ok(out)
}

/// The lines of the fates, with the last one.
fn fates_text(
    alloc: Global,
    schema: &Schema,
    pieces: Pieces,
    fates: &[(Piece, Fate)],
) -> Result<Vec<u8>, AllocError>
    requires schema { IsValidSchema schema.now }
    requires pieces { All (IsPiece schema.now) pieces.deps }
    requires right { AreSomeRight schema.now [] pieces.deps fates.now }
    requires rows { All (λ number. number.row + 1 < 2 ^ 64) (numbers_of fates.now) }
    ensures { IfOk result (λ text. IsTextOf schema.now pieces.deps fates.now text.items) }
{
    let mut round = Round::first(pieces.deps);
    let mut out = Vec::new(alloc);
    for (number, fate) in fates {
        let asked = round.ask();
        push_fate(alloc, &mut out, schema, &asked, *number, fate)?;
        round = asked.settle(fate.stays())?;
    }
    push_last(&mut out, round.count(), fates.len())?;
    Ok(out)
}

/// Appends `cover N of M`.
fn push_last(out: &mut Vec<u8>, stay: usize, all: usize) -> Result<(), AllocError>
    ensures { OnOk result (out.new.items ≡ out.old.items ++ file_text (last_parts stay all ∷ [])) }
{
    out.extend_from_slice(b"cover ")?;
    push_number(out, stay as u64)?;
    out.extend_from_slice(b" of ")?;
    push_number(out, all as u64)?;
    out.push(b'\n')?;
    Ok(())
}

/// Appends the lines of a piece's fate.
fn push_fate(
    alloc: Global,
    out: &mut Vec<u8>,
    schema: &Schema,
    asked: &Turn,
    number: Piece,
    fate: &Fate,
) -> Result<(), AllocError>
    requires schema { IsValidSchema schema.now }
    requires others { All (IsPiece schema.now) (asked.now.before ++ asked.now.after) }
    requires piece { IsPiece schema.now asked.now.piece }
    requires right { IsSomeAnswer schema.now (asked.now.before ++ asked.now.after) asked.now.piece fate.now }
    requires row { number.row + 1 < 2 ^ 64 }
    ensures { OnOk result (AppendsSome (IsFateText schema.now (asked.now.before ++ asked.now.after) asked.now.piece (number, fate.now)) out.old.items out.new.items) }
{
    match fate {
        Fate::Dropped(tree) => push_tree_fate(alloc, out, schema, asked, "dropped", number, tree),
        Fate::Kept(one, other) => {
            push_head(out, schema, "kept", number, asked.piece())?;
            push_texts(out, "counter", one.as_slice())?;
            push_texts(out, "and", other.as_slice())
        }
        Fate::Spent(tree) => push_tree_fate(alloc, out, schema, asked, "spent", number, tree),
    }
}

/// Appends a head, and the nodes of a tree over the question of the piece.
fn push_tree_fate(
    alloc: Global,
    out: &mut Vec<u8>,
    schema: &Schema,
    asked: &Turn,
    word: &str,
    number: Piece,
    tree: &Tree,
) -> Result<(), AllocError>
    requires schema { IsValidSchema schema.now }
    requires others { All (IsPiece schema.now) (asked.now.before ++ asked.now.after) }
    requires piece { IsPiece schema.now asked.now.piece }
    requires tree { IsRightTree (asks_from schema.now (asked.now.before ++ asked.now.after) asked.now.piece).set tree.now }
    requires row { number.row + 1 < 2 ^ 64 }
    ensures { OnOk result (AppendsSome (IsTreeFate schema.now word.now (asked.now.before ++ asked.now.after) asked.now.piece number tree.now) out.old.items out.new.items) }
{
    let nodes = tree_text(alloc, schema, asked.others(), asked.piece(), tree)?;
    push_head(out, schema, word, number, asked.piece())?;
    out.extend_from_slice(&nodes)?;
    Ok(())
}

/// Appends `WORD RULE.K ATTR`, the rows counted from 1.
fn push_head(
    out: &mut Vec<u8>,
    schema: &Schema,
    word: &str,
    number: Piece,
    piece: &Dep,
) -> Result<(), AllocError>
    requires piece { IsValidDep schema.now piece.now }
    requires row { number.row + 1 < 2 ^ 64 }
    ensures { OnOk result (out.new.items ≡ out.old.items ++ file_text (head_parts schema.now word.now number piece.now ∷ [])) }
{
    out.extend_from_slice(word.as_bytes())?;
    push_place(out, &piece.name, number.row)?;
    out.push(b' ')?;
    out.extend_from_slice(attr_name(schema, piece).as_str().as_bytes())?;
    out.push(b'\n')?;
    Ok(())
}

/// Appends ` RULE.K`.
fn push_place(out: &mut Vec<u8>, rule: &Text, row: usize) -> Result<(), AllocError>
    requires { row + 1 < 2 ^ 64 }
    ensures { OnOk result (out.new.items ≡ out.old.items ++ line_text (place_parts rule.now row)) }
{
    out.push(b' ')?;
    out.extend_from_slice(rule.as_str().as_bytes())?;
    out.push(b'.')?;
    push_number(out, row as u64 + 1)
}

/// The name of the attribute on the right of a piece.
fn attr_name<'a>(schema: &'a Schema, piece: &Dep) -> &'a Text
    requires { IsValidDep schema.now piece.now }
    ensures { result.now ≡ attr_name (attrs_at schema.now piece.now.table) piece.now.rule.a }
{
    &schema.tables.as_slice()[piece.table].attrs.as_slice()[piece.rule.a].name
}
