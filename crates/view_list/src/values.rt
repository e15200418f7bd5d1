//! Attributes with their values, and what is asked of values.

ghost use Rattle.std.specs.Prelude.{◌≡◌, ◌++◌, OnOk, codes, zip};
ghost use Rattle.std.specs.List.{flat_map};
ghost use Rattle.line_grammar.specs.Spelling.{line_text};
ghost use Rattle.rule_parser.specs.RuleText.{cell_parts};
ghost use Rattle.view_list.specs.Pieces.{demand_text, further, value_text, values_text};

use crate::attrs::attr_name;
use cfd_semantics::Pattern;
use rule_model::Cell;
use rule_parser::Cells;
use schema_core::{Attr, Text, Writes, push_quoted};
use std::alloc::AllocError;

/// An attribute with a value.
pub fn push_value(
    out: &mut Vec<u8>,
    attrs: &[Attr],
    attr: usize,
    value: &Text,
) -> Result<(), AllocError>
    ensures { OnOk result (out.new.items ≡ out.old.items ++ value_text attrs.now (attr, value.now)) }
{
    out.extend_from_slice(attr_name(attrs, attr).as_bytes())?;
    out.extend_from_slice(b" ")?;
    push_quoted(out, value.as_str())
}

fn push_further(
    out: &mut Vec<u8>,
    attrs: &[Attr],
    places: &[usize],
    values: &[Text],
) -> Result<(), AllocError>
    ensures { OnOk result (out.new.items ≡ out.old.items ++ flat_map (further (value_text attrs.now)) (zip places.now values.now)) }
{
    for i in 0..places.len().min(values.len()) {
        let attr = places[i];
        push_next(out, attrs, attr, &values[i])?;
    }
    Ok(())
}

fn push_next(out: &mut Vec<u8>, attrs: &[Attr], attr: usize, value: &Text) -> Result<(), AllocError>
    ensures { OnOk result (out.new.items ≡ out.old.items ++ further (value_text attrs.now) (attr, value.now)) }
{
    out.extend_from_slice(b", ")?;
    push_value(out, attrs, attr, value)
}

/// Several attributes, each with its value.
pub fn push_values(
    out: &mut Vec<u8>,
    attrs: &[Attr],
    places: &[usize],
    values: &[Text],
) -> Result<(), AllocError>
    ensures { OnOk result (out.new.items ≡ out.old.items ++ values_text attrs.now (zip places.now values.now)) }
{
    let Some((place, places)) = places.split_first() else {
        return out.extend_from_slice(b"any values");
    };
    let Some((value, values)) = values.split_first() else {
        return out.extend_from_slice(b"any values");
    };
    push_value(out, attrs, *place, value)?;
    push_further(out, attrs, places, values)
}

/// The same of two lists, one behind the other.
#[tactic(auto, using(crate::proofs::Pairs::further_both))]
pub fn push_both(
    out: &mut Vec<u8>,
    attrs: &[Attr],
    places: &[usize],
    values: &[Text],
    more_places: &[usize],
    more_values: &[Text],
) -> Result<(), AllocError>
    ensures { OnOk result (out.new.items ≡ out.old.items ++ values_text attrs.now (zip places.now values.now ++ zip more_places.now more_values.now)) }
{
    let Some((place, places)) = places.split_first() else {
        return push_values(out, attrs, more_places, more_values);
    };
    let Some((value, values)) = values.split_first() else {
        return push_values(out, attrs, more_places, more_values);
    };
    push_value(out, attrs, *place, value)?;
    push_further(out, attrs, places, values)?;
    push_further(out, attrs, more_places, more_values)?;
    Ok(())
}

fn push_set(out: &mut Vec<u8>, cell: &Cell) -> Result<(), AllocError>
    ensures { OnOk result (out.new.items ≡ out.old.items ++ (codes "the same, " ++ line_text (cell_parts cell.now))) }
{
    out.extend_from_slice(b"the same, ")?;
    Cells::push(out, cell)
}

/// What a right cell asks of values.
pub fn push_demand(out: &mut Vec<u8>, cell: &Cell) -> Result<(), AllocError>
    ensures { OnOk result (out.new.items ≡ out.old.items ++ demand_text cell.now) }
{
    match cell {
        Pattern::Any => out.extend_from_slice(b"the same"),
        Pattern::Is(value) => push_quoted(out, value.as_str()),
        Pattern::In(_) => push_set(out, cell),
        Pattern::NotIn(_) => push_set(out, cell),
    }
}
