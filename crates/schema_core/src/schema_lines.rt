//! The lines of a schema file, one rule of its grammar after another.

ghost use Rattle.std.specs.Prelude.{IfOk};
ghost use Rattle.line_grammar.specs.Phrases.{Reads};
ghost use Rattle.schema_core.specs.ReadSchemas.{IsReadAttr, IsReadDomain, IsReadHead};
ghost use Rattle.schema_core.specs.SchemaLines.{table_at, head_for, head_at, domain_at, attr_at};

use crate::schema::{Attr, Domain};
use line_grammar::{Constant, Phrase, Tokens, Unread};
use std::alloc::Global;
use text_lists::Text;

/// The line that a group of a schema file begins with.
#[derive(Drop)]
pub enum SchemaHead {
    Table {
        master: bool,
        name: Text,
        file: Text,
    },
    Rules(Text),
    Script(Text),
}

/// A head by its first word.
pub struct HeadLine;

/// An `attr` line.
pub struct AttrLine;

fn table_at(master: bool, tokens: &mut Tokens<'_>) -> Result<SchemaHead, Unread>
    ensures exact { Reads (table_at master) tokens.old tokens.new result }
    ensures fit { IfOk result IsReadHead }
{
    let name = tokens.name()?;
    let file = tokens.file_name()?;
    Ok(SchemaHead::Table { master, name, file })
}

fn head_for(word: &Text, tokens: &mut Tokens<'_>) -> Result<SchemaHead, Unread>
    ensures exact { Reads (head_for word.now) tokens.old tokens.new result }
    ensures fit { IfOk result IsReadHead }
{
    if word.is("table") {
        table_at(false, tokens)
    } else if word.is("master") {
        table_at(true, tokens)
    } else if word.is("rules") {
        Ok(SchemaHead::Rules(tokens.file_name()?))
    } else if word.is("script") {
        Ok(SchemaHead::Script(tokens.file_name()?))
    } else {
        Err(Unread::Absent)
    }
}

impl Phrase for HeadLine {
    type Value = SchemaHead;

    ghost reads = { head_at };

    ghost is_fit = { IsReadHead };

    #[tactic(auto, unfolding(crate::specs::SchemaLines::head_at))]
    fn take(_alloc: Global, tokens: &mut Tokens<'_>) -> Result<SchemaHead, Unread> {
        let word = tokens.name()?;
        head_for(&word, tokens)
    }
}

fn domain_at(alloc: Global, tokens: &mut Tokens<'_>) -> Result<Domain, Unread>
    ensures exact { Reads domain_at tokens.old tokens.new result }
    ensures fit { IfOk result IsReadDomain }
{
    let Ok(()) = tokens.word("in") else {
        return Ok(Domain::AnyText);
    };
    let stands = tokens.has_constant();
    let values = tokens.list::<Constant>(alloc, stands)?;
    Ok(Domain::Finite(values))
}

impl Phrase for AttrLine {
    type Value = Attr;

    ghost reads = { attr_at };

    ghost is_fit = { IsReadAttr };

    #[tactic(auto, unfolding(crate::specs::SchemaLines::attr_at))]
    fn take(alloc: Global, tokens: &mut Tokens<'_>) -> Result<Attr, Unread> {
        tokens.word("attr")?;
        let name = tokens.name()?;
        let domain = domain_at(alloc, tokens)?;
        Ok(Attr { name, domain })
    }
}
