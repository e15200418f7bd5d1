//! The lines that declarations begin with.

ghost use Rattle.std.specs.Prelude.{◌≡◌, is_some, IfOk, map, All};
ghost use Rattle.line_grammar.specs.Phrases.{Reads};
ghost use Rattle.rule_parser.specs.ReadRules.{IsReadHead, IsReadPattern};
ghost use Rattle.rule_parser.specs.RuleLines.{cfd_at, side_at, cind_at, pair_at, when_at, edit_at, head_for, head_at};
ghost use Rattle.rule_parser.specs.Takes.{pair_at-takes};

use crate::cells::PatternPart;
use rule_model::{CfdDecl, CindDecl, Decl, EditCell, EditDecl};
use schema_core::{List, ListItem, Mark, Name, Phrase, Text, Texts, Tokens, Unread};
use std::alloc::{AllocError, Global};

/// One side of an inclusion: a table, the attributes whose values are included, and those that have constants.
#[derive(Drop)]
pub struct Side {
    pub table: Text,
    pub key: Texts,
    pub pattern: Texts,
}

/// A declaration by its first word, as far as its head says it: without rows.
pub struct HeadLine;

/// ATTR=ATTR.
pub struct PairPart;

/// What stands behind `cfd`.
#[tactic(auto, unfolding(crate::specs::RuleLines::cfd_at))]
fn cfd_at(alloc: Global, tokens: &mut Tokens<'_>) -> Result<Decl, Unread>
    ensures exact { Reads cfd_at tokens.old tokens.new result }
    ensures fit { IfOk result IsReadHead }
{
    let name = tokens.name()?;
    let table = tokens.name()?;
    tokens.mark(Mark::Colon)?;
    tokens.mark(Mark::OpenBracket)?;
    let x = tokens.list_until::<Name>(alloc, Mark::CloseBracket)?;
    tokens.mark(Mark::Arrow)?;
    tokens.mark(Mark::OpenBracket)?;
    let y = tokens.list1::<Name>(alloc)?;
    tokens.mark(Mark::CloseBracket)?;
    Ok(Decl::Cfd(CfdDecl {
        name,
        table,
        x,
        y,
        rows: List::new(alloc),
    }))
}

#[tactic(auto, unfolding(crate::specs::RuleLines::side_at))]
fn side_at(alloc: Global, tokens: &mut Tokens<'_>) -> Result<Side, Unread>
    ensures { Reads side_at tokens.old tokens.new result }
{
    let table = tokens.name()?;
    tokens.mark(Mark::OpenBracket)?;
    let key = tokens.list_until::<Name>(alloc, Mark::Semicolon)?;
    let pattern = tokens.list_until::<Name>(alloc, Mark::CloseBracket)?;
    Ok(Side {
        table,
        key,
        pattern,
    })
}

/// What stands behind `cind`.
#[tactic(auto, unfolding(crate::specs::RuleLines::cind_at))]
fn cind_at(alloc: Global, tokens: &mut Tokens<'_>) -> Result<Decl, Unread>
    ensures exact { Reads cind_at tokens.old tokens.new result }
    ensures fit { IfOk result IsReadHead }
{
    let name = tokens.name()?;
    let left = side_at(alloc, tokens)?;
    tokens.word("in")?;
    let right = side_at(alloc, tokens)?;
    Ok(Decl::Cind(CindDecl {
        name,
        left: left.table,
        x: left.key,
        xp: left.pattern,
        right: right.table,
        y: right.key,
        yp: right.pattern,
        rows: List::new(alloc),
    }))
}

#[tactic(auto, unfolding(crate::specs::RuleLines::pair_at))]
fn pair_at(tokens: &mut Tokens<'_>) -> Result<(Text, Text), Unread>
    ensures { Reads pair_at tokens.old tokens.new result }
{
    let attr = tokens.name()?;
    tokens.mark(Mark::Equals)?;
    let master = tokens.name()?;
    Ok((attr, master))
}

impl Phrase for PairPart {
    type Value = (Text, Text);

    ghost reads = { pair_at };

    ghost is_fit = { λ _. Unit {0} };

    fn take(_alloc: Global, tokens: &mut Tokens<'_>) -> Result<(Text, Text), Unread> {
        pair_at(tokens)
    }
}

impl ListItem for PairPart {
    ghost takes = { pair_at-takes };
}

/// Whether a pair stands at the front: the token behind the first name tells it from the word `gives`.
#[tactic(auto, using(crate::proofs::PairFront::no_name, crate::proofs::PairFront::no_equals, crate::proofs::PairFront::no_master, crate::proofs::PairFront::pair_begins))]
fn has_pair(tokens: &Tokens<'_>) -> bool
    ensures { result ≡ is_some (pair_at tokens.now) }
{
    let mut ahead = tokens.ahead();
    let Ok(()) = ahead.any_name() else {
        return false;
    };
    let Ok(()) = ahead.mark(Mark::Equals) else {
        return false;
    };
    match ahead.any_name() {
        Ok(()) => true,
        Err(_) => false,
    }
}

/// The pattern behind `when`, which may be missing.
fn when_at(alloc: Global, tokens: &mut Tokens<'_>) -> Result<List<(Text, EditCell)>, Unread>
    ensures exact { Reads when_at tokens.old tokens.new result }
    ensures fit { IfOk result (λ pattern. All IsReadPattern pattern) }
{
    if tokens.word("when").is_err() {
        return Ok(List::new(alloc));
    }
    tokens.list1::<PatternPart>(alloc)
}

/// The two sides of pairs, each in its order.
fn sides(alloc: Global, pairs: List<(Text, Text)>) -> Result<(Texts, Texts), AllocError>
    ensures { IfOk result (λ both. both ≡ (map (λ pair. pair.0) pairs, map (λ pair. pair.1) pairs)) }
{
    let mut x = List::new(alloc);
    let mut xm = List::new(alloc);
    for (attr, master) in pairs.into_vec() {
        x.push(attr)?;
        xm.push(master)?;
    }
    Ok((x, xm))
}

/// What stands behind `edit`.
#[tactic(auto, unfolding(crate::specs::RuleLines::edit_at))]
fn edit_at(alloc: Global, tokens: &mut Tokens<'_>) -> Result<Decl, Unread>
    ensures exact { Reads edit_at tokens.old tokens.new result }
    ensures fit { IfOk result IsReadHead }
{
    let name = tokens.name()?;
    let table = tokens.name()?;
    tokens.word("using")?;
    let master = tokens.name()?;
    tokens.mark(Mark::Colon)?;
    let stands = has_pair(tokens);
    let columns = tokens.list::<PairPart>(alloc, stands)?;
    tokens.word("gives")?;
    let (target, source) = pair_at(tokens)?;
    let when = when_at(alloc, tokens)?;
    let (x, xm) = sides(alloc, columns)?;
    Ok(Decl::Edit(EditDecl {
        name,
        table,
        master,
        x,
        xm,
        target,
        source,
        when,
    }))
}

fn head_for(alloc: Global, word: &Text, tokens: &mut Tokens<'_>) -> Result<Decl, Unread>
    ensures exact { Reads (head_for word.now) tokens.old tokens.new result }
    ensures fit { IfOk result IsReadHead }
{
    if word.is("cfd") {
        cfd_at(alloc, tokens)
    } else if word.is("cind") {
        cind_at(alloc, tokens)
    } else if word.is("edit") {
        edit_at(alloc, tokens)
    } else {
        Err(Unread::Absent)
    }
}

impl Phrase for HeadLine {
    type Value = Decl;

    ghost reads = { head_at };

    ghost is_fit = { IsReadHead };

    #[tactic(auto, unfolding(crate::specs::RuleLines::head_at))]
    fn take(alloc: Global, tokens: &mut Tokens<'_>) -> Result<Decl, Unread> {
        let word = tokens.name()?;
        head_for(alloc, &word, tokens)
    }
}
