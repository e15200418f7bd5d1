//! The attributes that are vouched for, by their names.

ghost use Rattle.std.specs.Prelude.{◌≡◌, ◌≤◌, ◌↔◌, ℕ, length, IsNone, IfSome, Any};
ghost use Rattle.text_lists.specs.Repeats.{AreDistinct};
ghost use Rattle.schema_core.specs.Schemas.{names_of_attrs};
ghost use Rattle.rule_runs.specs.Marks.{marked};
ghost use Rattle.fix_engine.specs.Questions.{IsNoAttr, is_vouched};

use rule_runs::Marks;
use schema_core::{Table, Text};

/// The attributes with these names, if each name is that of one. A name may stand twice.
pub(crate) fn marks_of(table: &Table, names: &[Text]) -> Option<Marks>
    requires distinct { AreDistinct (names_of_attrs table.now.attrs) }
    requires few { length table.now.attrs ≤ 64 }
    ensures marks { IfSome result (λ marks. (attr : ℕ) → marked marks attr ≡ is_vouched table.now.attrs names.now attr) }
    ensures unknown { IsNone result ↔ Any (IsNoAttr table.now.attrs) names.now }
{
    let mut marks = Marks::none();
    for name in names {
        marks = marks.with(table.attr_named(name.as_str())?);
    }
    Some(marks)
}
