//! What a page tells of a kind of rules.
ghost use Rattle.std.specs.Prelude.{◌≡◌, ◌++◌, OnOk};
ghost use Rattle.page_text.specs.Kinds.{Kind, cind_kind, dep_kind};

use crate::groups::push_groups;
use crate::markup::Piece;
use crate::missing::push_missing_table;
use crate::rows::Shown;
use crate::words::{push_cind_words, push_dep_words};
use rule_model::{Cind, Dep};
use schema_core::{Attr, Table};
use std::alloc::AllocError;
use text_lists::Text;
use violation_groups::{Group, Missing};

/// A rule of a kind, with what is found of it.
pub trait Rule {
    type Found: Drop;

    ghost kind: { Kind Self Self.Found };

    fn link() -> Piece
        ensures { result ≡ kind.link };

    fn section() -> Piece
        ensures { result ≡ kind.section };

    fn groups() -> Piece
        ensures { result ≡ kind.groups };

    fn name(&self) -> &Text
        ensures { result.now ≡ kind.name self.now };

    /// The table whose rows are told.
    fn table(&self) -> usize
        ensures { result ≡ kind.table self.now };

    /// Tells what the rule asks.
    fn push_words(&self, out: &mut Vec<u8>, tables: &[Table]) -> Result<(), AllocError>
        ensures { OnOk result (out.new.items ≡ out.old.items ++ kind.words tables.now self.now) };

    /// Tells what is found, over the attributes of the table.
    fn push_body(
        &self,
        out: &mut Vec<u8>,
        attrs: &[Attr],
        shown: Shown,
        found: &[Self::Found],
    ) -> Result<(), AllocError>
        ensures { OnOk result (out.new.items ≡ out.old.items ++ kind.body attrs.now self.now shown found.now) };
}

impl Rule for Dep {
    type Found = Group;

    ghost kind = { dep_kind };

    fn link() -> Piece {
        Piece::DepLink
    }

    fn section() -> Piece {
        Piece::DepSection
    }

    fn groups() -> Piece {
        Piece::Groups
    }

    fn name(&self) -> &Text {
        &self.name
    }

    fn table(&self) -> usize {
        self.table
    }

    fn push_words(&self, out: &mut Vec<u8>, tables: &[Table]) -> Result<(), AllocError> {
        push_dep_words(out, tables, self)
    }

    fn push_body(
        &self,
        out: &mut Vec<u8>,
        attrs: &[Attr],
        shown: Shown,
        found: &[Group],
    ) -> Result<(), AllocError> {
        push_groups(out, attrs, self, shown, found)
    }
}

impl Rule for Cind {
    type Found = Missing;

    ghost kind = { cind_kind };

    fn link() -> Piece {
        Piece::CindLink
    }

    fn section() -> Piece {
        Piece::CindSection
    }

    fn groups() -> Piece {
        Piece::Keys
    }

    fn name(&self) -> &Text {
        &self.name
    }

    fn table(&self) -> usize {
        self.left
    }

    fn push_words(&self, out: &mut Vec<u8>, tables: &[Table]) -> Result<(), AllocError> {
        push_cind_words(out, tables, self)
    }

    fn push_body(
        &self,
        out: &mut Vec<u8>,
        attrs: &[Attr],
        shown: Shown,
        found: &[Missing],
    ) -> Result<(), AllocError> {
        push_missing_table(out, attrs, self, shown, found)
    }
}
