//! The names at places among those of one attribute, as they are written.

ghost use Rattle.std.specs.Prelude.{◌≡◌, ◌+◌, ◌<◌, ◌++◌, [], length, slice_get, IfSome, OnOk};
ghost use Rattle.std.specs.Option.{option_map_or};
ghost use Rattle.text_lists.specs.Names.{IsName};
ghost use Rattle.line_grammar.specs.Spelling.{line_text};
ghost use Rattle.cert_text.specs.CertText.{cell_name_parts, var_parts};
ghost use Rattle.cert_text.specs.Written.{IsOfKind, IsCellOf, IsVarOf};
ghost use Rattle.cert_check.specs.Names.{attr_cells, attr_vars, named_cell, value_vars};
ghost use Rattle.cert_text.specs.declared.answers.Kind.TheVariants.{Implication};

use cell_values::{ValueList, Which};
use cert_text::answers::Kind;
use cert_text::{push_cell, push_equality, push_value};
use schema_core::Text;
use std::alloc::AllocError;

fn push_value_var(
    out: &mut Vec<u8>,
    kind: Kind,
    tuple: Which,
    attr: &Text,
    values: &ValueList,
    place: usize,
) -> Result<(), AllocError>
    requires kind { IsOfKind kind tuple }
    requires attr { IsName attr.now }
    requires within { place < length values.now }
    ensures text { OnOk result (out.new.items ≡ out.old.items ++ line_text (option_map_or var_parts (slice_get (value_vars tuple attr.now values.now) place) [])) }
    ensures fit { IfSome (slice_get (value_vars tuple attr.now values.now) place) (IsVarOf kind) }
{
    push_value(out, tuple, attr, values.get(place))
}

fn push_pair_var(
    out: &mut Vec<u8>,
    attr: &Text,
    values: &ValueList,
    place: usize,
) -> Result<(), AllocError>
    requires attr { IsName attr.now }
    requires within { place < length (attr_vars Implication attr.now values.now) }
    ensures text { OnOk result (out.new.items ≡ out.old.items ++ line_text (option_map_or var_parts (slice_get (attr_vars Implication attr.now values.now) place) [])) }
    ensures fit { IfSome (slice_get (attr_vars Implication attr.now values.now) place) (IsVarOf Implication) }
{
    if place == 0 {
        return push_equality(out, attr);
    }
    let place = place - 1;
    let count = values.len();
    if place < count {
        push_value_var(out, Kind::Implication, Which::First, attr, values, place)
    } else {
        push_value_var(
            out,
            Kind::Implication,
            Which::Second,
            attr,
            values,
            place - count,
        )
    }
}

/// Appends the name of the variable at a place among those of an attribute.
pub fn push_var_at(
    out: &mut Vec<u8>,
    kind: Kind,
    attr: &Text,
    values: &ValueList,
    place: usize,
) -> Result<(), AllocError>
    requires attr { IsName attr.now }
    requires within { place < length (attr_vars kind attr.now values.now) }
    ensures text { OnOk result (out.new.items ≡ out.old.items ++ line_text (option_map_or var_parts (slice_get (attr_vars kind attr.now values.now) place) [])) }
    ensures fit { IfSome (slice_get (attr_vars kind attr.now values.now) place) (IsVarOf kind) }
{
    match kind {
        Kind::Consistency => push_value_var(out, kind, Which::Only, attr, values, place),
        Kind::Implication => push_pair_var(out, attr, values, place),
    }
}

fn push_pair_cell(
    out: &mut Vec<u8>,
    attr: &Text,
    values: &ValueList,
    place: usize,
) -> Result<(), AllocError>
    requires attr { IsName attr.now }
    requires within { place < length (attr_cells Implication attr.now values.now) }
    ensures text { OnOk result (out.new.items ≡ out.old.items ++ line_text (option_map_or cell_name_parts (named_cell (attr_cells Implication attr.now values.now) place) [])) }
    ensures fit { IfSome (named_cell (attr_cells Implication attr.now values.now) place) (IsCellOf Implication) }
{
    if place == 0 {
        Ok(())
    } else if place == 1 {
        push_cell(out, Which::First, attr)
    } else {
        push_cell(out, Which::Second, attr)
    }
}

/// Appends the name of the cell at a place among those of an attribute, if it has one.
pub fn push_cell_at(
    out: &mut Vec<u8>,
    kind: Kind,
    attr: &Text,
    values: &ValueList,
    place: usize,
) -> Result<(), AllocError>
    requires attr { IsName attr.now }
    requires within { place < length (attr_cells kind attr.now values.now) }
    ensures text { OnOk result (out.new.items ≡ out.old.items ++ line_text (option_map_or cell_name_parts (named_cell (attr_cells kind attr.now values.now) place) [])) }
    ensures fit { IfSome (named_cell (attr_cells kind attr.now values.now) place) (IsCellOf kind) }
{
    match kind {
        Kind::Consistency => push_cell(out, Which::Only, attr),
        Kind::Implication => push_pair_cell(out, attr, values, place),
    }
}
