//! Declarations, as they are written: names are not looked up yet.

ghost use Rattle.std.specs.Prelude.{◌≡◌};
ghost use Rattle.rule_model.specs.Declarations.{name_of};

use crate::cind::CindRow;
use crate::edit_rule::EditCell;
use cfd_semantics::Pattern;
use schema_core::{List, Text, Texts};

/// What a cell of a tableau row asks of a value.
pub type Cell = Pattern<Text>;

/// A tableau row: a cell for each attribute of the left list and of the right one.
#[derive(Drop)]
pub struct CfdRow {
    pub x: List<Cell>,
    pub y: List<Cell>,
}

/// A conditional functional dependency. Rows that agree on the attributes of the left list and match a
/// tableau row there agree on those of the right list and match it there.
pub struct CfdDecl {
    pub name: Text,
    pub table: Text,
    pub x: Texts,
    pub y: Texts,
    pub rows: List<CfdRow>,
}

// By hand, so that whatever drops a declaration calls this, and isn't proved for each of its parts.
impl Drop for CfdDecl {
    fn drop(self) {
        let CfdDecl {
            name: _,
            table: _,
            x: _,
            y: _,
            rows: _,
        } = self;
    }
}

/// A conditional inclusion dependency. For each row of the left table that has the constants of a tableau
/// row, the right table has a row with the same values and with the constants of the other side.
pub struct CindDecl {
    pub name: Text,
    pub left: Text,
    pub x: Texts,
    pub xp: Texts,
    pub right: Text,
    pub y: Texts,
    pub yp: Texts,
    pub rows: List<CindRow>,
}

// By hand, as for a conditional functional dependency.
impl Drop for CindDecl {
    fn drop(self) {
        let CindDecl {
            name: _,
            left: _,
            x: _,
            xp: _,
            right: _,
            y: _,
            yp: _,
            rows: _,
        } = self;
    }
}

/// An editing rule. A row that agrees with a row of the master table and matches the pattern takes the
/// value of the target from there.
pub struct EditDecl {
    pub name: Text,
    pub table: Text,
    pub master: Text,
    pub x: Texts,
    pub xm: Texts,
    pub target: Text,
    pub source: Text,
    pub when: List<(Text, EditCell)>,
}

// By hand, as for a conditional functional dependency.
impl Drop for EditDecl {
    fn drop(self) {
        let EditDecl {
            name: _,
            table: _,
            master: _,
            x: _,
            xm: _,
            target: _,
            source: _,
            when: _,
        } = self;
    }
}

#[derive(Drop)]
pub enum Decl {
    Cfd(CfdDecl),
    Cind(CindDecl),
    Edit(EditDecl),
}

impl Decl {
    pub fn name(&self) -> &Text
        ensures { result.now ≡ name_of self.now }
    {
        match self {
            Decl::Cfd(cfd) => &cfd.name,
            Decl::Cind(cind) => &cind.name,
            Decl::Edit(edit) => &edit.name,
        }
    }
}
