//! How many there are of what a file has too many of.
ghost use Rattle.std.specs.Prelude.{◌≡◌, ◌<◌, ◌++◌, IfOk, IfSome, OnOk, count_by, length, position, sum_by};
ghost use Rattle.std.specs.List.{after_first};
ghost use Rattle.line_grammar.specs.FileLines.{file_lines};
ghost use Rattle.view_refusal.specs.Counted.{capped, count_at, count_shown, counted_line, has_words, head_above, head_number, is_arrow, is_name, is_text, members_behind, on_line, one_if, right_names, tokens_on};

use cli_output::limit_word;
use schema_core::{Content, FileLines, Limit, Line, List, Mark, Token, push_number};
use std::alloc::{AllocError, Global};

fn is_name(token: &Token) -> bool
    ensures { result ≡ is_name token.now }
{
    match token {
        Token::Name(_) => true,
        Token::Number(_) | Token::Quoted(_) | Token::Sign(_) => false,
    }
}

fn is_text(token: &Token) -> bool
    ensures { result ≡ is_text token.now }
{
    match token {
        Token::Quoted(_) => true,
        Token::Name(_) | Token::Number(_) | Token::Sign(_) => false,
    }
}

fn is_arrow(token: &Token) -> bool
    ensures { result ≡ is_arrow token.now }
{
    match token {
        Token::Sign(mark) => *mark == Mark::Arrow,
        Token::Name(_) | Token::Number(_) | Token::Quoted(_) => false,
    }
}

fn one_if(test: bool) -> u64
    ensures { result ≡ one_if test }
{
    u64::from(test)
}

fn tokens_on(alloc: Global, content: Content<'_>) -> Result<List<Token>, AllocError>
    ensures { IfOk result (λ tokens. tokens ≡ tokens_on content.entry) }
{
    match content.tokens() {
        None => Ok(List::new(alloc)),
        Some(tokens) => tokens.owned(),
    }
}

fn first_arrow(tokens: &[Token]) -> Option<usize>
    ensures place { result ≡ position is_arrow tokens.now }
    ensures within { IfSome result (λ place. place < length tokens.now) }
{
    tokens.iter().position(|token| is_arrow(token))
}

fn behind_arrow(tokens: &[Token]) -> &[Token]
    ensures { result.now ≡ after_first is_arrow tokens.now }
{
    match first_arrow(tokens) {
        Some(place) => &tokens[place + 1..],
        None => &[],
    }
}

fn right_names(tokens: &[Token]) -> usize
    ensures { result ≡ right_names tokens.now }
{
    behind_arrow(tokens)
        .iter()
        .filter(|token| is_name(token))
        .count()
}

fn texts_in(tokens: &[Token]) -> usize
    ensures { result ≡ count_by is_text tokens.now }
{
    tokens.iter().filter(|token| is_text(token)).count()
}

fn values_on(alloc: Global, at: usize, line: Line<'_>) -> Result<u64, AllocError>
    ensures { IfOk result (λ count. count ≡ on_line Limit.Values at line.entry) }
{
    if line.number != at {
        return Ok(0);
    }
    let tokens = tokens_on(alloc, line.content)?;
    Ok(texts_in(tokens.as_slice()) as u64)
}

fn deps_on(alloc: Global, at: usize, line: Line<'_>) -> Result<u64, AllocError>
    ensures { IfOk result (λ count. count ≡ on_line Limit.Deps at line.entry) }
{
    if !line.begins_with("cfd") {
        return Ok(0);
    }
    let tokens = tokens_on(alloc, line.content)?;
    Ok(right_names(tokens.as_slice()) as u64)
}

fn on_line(alloc: Global, limit: Limit, at: usize, line: Line<'_>) -> Result<u64, AllocError>
    ensures { IfOk result (λ count. count ≡ on_line limit at line.entry) }
{
    match limit {
        Limit::Tables => Ok(one_if(line.begins_with("table") || line.begins_with("master"))),
        Limit::Attrs => Ok(one_if(line.begins_with("attr"))),
        Limit::Values => values_on(alloc, at, line),
        Limit::Deps => deps_on(alloc, at, line),
        Limit::Cinds => Ok(one_if(line.begins_with("cind"))),
        Limit::Edits => Ok(one_if(line.begins_with("edit"))),
        Limit::TableauRows => Ok(one_if(line.begins_with("row"))),
        Limit::Commands => Ok(1),
    }
}

fn count_lines(alloc: Global, limit: Limit, at: usize, bytes: &[u8]) -> Result<u64, AllocError>
    ensures { IfOk result (λ count. count ≡ capped (sum_by (on_line limit at) (file_lines bytes.now))) }
{
    let mut lines = FileLines::new(alloc, bytes);
    let mut count: u64 = 0;
    while let Some(line) = lines.next() {
        count = count.saturating_add(on_line(alloc, limit, at, line)?);
    }
    Ok(count)
}

fn head_number(at: usize, line: &Line<'_>) -> usize
    ensures { result ≡ head_number at line.now }
{
    if !line.begins_with("attr") && line.number <= at {
        line.number
    } else {
        0
    }
}

/// The number of the last head that is not below a line, or 0.
fn head_above(alloc: Global, at: usize, bytes: &[u8]) -> usize
    ensures { result ≡ head_above at (file_lines bytes.now) }
{
    let mut lines = FileLines::new(alloc, bytes);
    let mut head = 0;
    while let Some(line) = lines.next() {
        head = head.max(head_number(at, &line));
    }
    head
}

/// How many lines stand behind a head, up to the next.
fn members_behind(alloc: Global, head: usize, bytes: &[u8]) -> u64
    ensures { result ≡ capped (members_behind head (file_lines bytes.now)) }
{
    let mut lines = FileLines::new(alloc, bytes);
    let mut count: u64 = 0;
    while let Some(line) = lines.next() {
        if head < line.number {
            if !line.begins_with("attr") {
                return count;
            }
            count = count.saturating_add(1);
        }
    }
    count
}

/// How many there are of that in a file of which the line of that number is refused.
fn count_at(alloc: Global, limit: Limit, at: usize, bytes: &[u8]) -> Result<u64, AllocError>
    ensures { IfOk result (λ count. count ≡ count_at limit at bytes.now) }
{
    match limit {
        Limit::Attrs => Ok(members_behind(alloc, head_above(alloc, at, bytes), bytes)),
        _ => count_lines(alloc, limit, at, bytes),
    }
}

// ---- how that is told

/// Tells how many there are, where the file was found again.
pub fn push_counted(
    alloc: Global,
    out: &mut Vec<u8>,
    limit: Limit,
    line: Option<usize>,
    bytes: &Option<List<u8>>,
) -> Result<(), AllocError>
    ensures { OnOk result (out.new.items ≡ out.old.items ++ count_shown limit line bytes.now) }
{
    match (line, bytes) {
        (Some(at), Some(bytes)) => {
            let count = count_at(alloc, limit, at, bytes.as_slice())?;
            push_count(out, limit, count)
        }
        _ => Ok(()),
    }
}

fn push_count(out: &mut Vec<u8>, limit: Limit, count: u64) -> Result<(), AllocError>
    ensures { OnOk result (out.new.items ≡ out.old.items ++ counted_line limit count) }
{
    out.extend_from_slice(has_words(limit).as_bytes())?;
    push_number(out, count)?;
    out.push(b' ')?;
    out.extend_from_slice(limit_word(limit).as_bytes())?;
    out.push(b'\n')?;
    Ok(())
}

fn has_words(limit: Limit) -> &'static str
    ensures { result.now ≡ has_words limit }
{
    match limit {
        Limit::Attrs => "this table has ",
        Limit::Values => "this domain has ",
        _ => "this file has ",
    }
}
