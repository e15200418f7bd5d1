//! Schemas: tables with their attributes and files.

ghost use Rattle.std.specs.Prelude.{◌≡◌, ◌≢◌, ◌<◌, ◌↔◌, length, All, IsTrue, IfSome, IfNone, Contains};
ghost use Rattle.std.specs.List.{HoldsAt, list_any};
ghost use Rattle.std.specs.Str.{bytes_eq};
ghost use Rattle.schema_core.specs.Schemas.{table_place, attr_place, admits, Admits};

use line_grammar::LineFault;
use text_lists::{Limit, List, Text, Texts};

/// The texts that an attribute may have.
#[derive(Drop, PartialEq, Eq)]
pub enum Domain {
    AnyText,
    Finite(Texts),
}

#[derive(PartialEq, Eq)]
pub struct Attr {
    pub name: Text,
    pub domain: Domain,
}

// By hand, so that whatever drops an attribute calls this, and isn't proved for each of its parts.
impl Drop for Attr {
    fn drop(self) {
        let Attr { name: _, domain: _ } = self;
    }
}

#[derive(PartialEq, Eq)]
pub struct Table {
    pub name: Text,
    pub file: Text,
    /// Whether its rows are master data, from which others are corrected.
    pub master: bool,
    pub attrs: List<Attr>,
}

// By hand, as for an attribute.
impl Drop for Table {
    fn drop(self) {
        let Table {
            name: _,
            file: _,
            master: _,
            attrs: _,
        } = self;
    }
}

#[derive(Drop, PartialEq, Eq)]
pub struct Schema {
    pub tables: List<Table>,
    /// The file of the rules, and that of the script.
    pub rules: Option<Text>,
    pub script: Option<Text>,
}

/// What is wrong with a line of a schema file.
#[derive(Clone, Copy, Debug, PartialEq, Eq)]
pub enum SchemaCause {
    NotUtf8,
    BadLine,
    DuplicateName,
    EmptyDomain,
    DuplicateValue,
    TooMany(Limit),
}

/// Why a schema file is refused.
pub type SchemaFault = LineFault<SchemaCause>;

fn contains_text(values: &[Text], text: &str) -> bool
    ensures test { result ≡ list_any (λ v. bytes_eq v text.now) values.now }
    ensures meaning { IsTrue result ↔ Contains values.now text.now }
{
    values.iter().any(|v| v.is(text))
}

impl Schema {
    /// The place of the table of that name, the first one where there are several.
    pub fn table_named(&self, name: &str) -> Option<usize>
        ensures place { result ≡ table_place self.now name.now }
        ensures found { IfSome result (λ i. (i < length self.now.tables) × HoldsAt (λ t. t.name ≡ name.now) self.now.tables i) }
        ensures none { IfNone result (All (λ t. t.name ≢ name.now) self.now.tables) }
    {
        self.tables.as_slice().iter().position(|t| t.name.is(name))
    }
}

impl Table {
    /// The place of the attribute of that name, the first one where there are several.
    pub fn attr_named(&self, name: &str) -> Option<usize>
        ensures place { result ≡ attr_place self.now name.now }
        ensures found { IfSome result (λ i. (i < length self.now.attrs) × HoldsAt (λ a. a.name ≡ name.now) self.now.attrs i) }
        ensures none { IfNone result (All (λ a. a.name ≢ name.now) self.now.attrs) }
    {
        self.attrs.as_slice().iter().position(|a| a.name.is(name))
    }
}

impl Domain {
    /// Whether the text is in the domain.
    pub fn admits(&self, text: &str) -> bool
        ensures test { result ≡ admits self.now text.now }
        ensures meaning { IsTrue result ↔ Admits self.now text.now }
    {
        match self {
            Domain::AnyText => true,
            Domain::Finite(values) => contains_text(values.as_slice(), text),
        }
    }
}
