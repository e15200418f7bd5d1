//! What a clause says of a cell: literals of the variables of its attribute's values. The variable of the first value is
//! `first`, and the others follow.

ghost use Rattle.std.specs.Prelude.{◌≡◌, ◌+◌, ◌^◌, ◌<◌, ◌++◌, [], ◌∷◌, true, length, if◌then◌else◌, OnOk};
ghost use Rattle.std.specs.List.{list_any};
ghost use Rattle.std.specs.Str.{bytes_eq};
ghost use Rattle.cfd_semantics.specs.Pattern.{matches};
ghost use Rattle.cell_values.specs.Literals.{literals_where, matches_as, meets, misses};

use crate::value_list::ValueList;
use case_tree::Literal;
use cfd_semantics::Pattern;
use rule_model::Cell;
use schema_core::Text;
use std::alloc::AllocError;

/// Appends that the value matches the cell.
pub fn push_meets(
    clause: &mut Vec<Literal>,
    first: usize,
    values: &ValueList,
    cell: &Cell,
) -> Result<(), AllocError>
    requires { first + length values.now < 2 ^ 64 }
    ensures { OnOk result (clause.new.items ≡ clause.old.items ++ meets first values.now cell.now) }
{
    match cell {
        Pattern::Is(constant) => push_value(clause, first, values, constant, true),
        _ => push_where(clause, first, values, cell, true),
    }
}

/// Appends that the value doesn't match the cell.
pub fn push_misses(
    clause: &mut Vec<Literal>,
    first: usize,
    values: &ValueList,
    cell: &Cell,
) -> Result<(), AllocError>
    requires { first + length values.now < 2 ^ 64 }
    ensures { OnOk result (clause.new.items ≡ clause.old.items ++ misses first values.now cell.now) }
{
    match cell {
        Pattern::Any => Ok(()),
        Pattern::Is(constant) => push_value(clause, first, values, constant, false),
        _ => push_where(clause, first, values, cell, false),
    }
}

// Appends the literal of this sign for the text, where it is a value.
fn push_value(
    clause: &mut Vec<Literal>,
    first: usize,
    values: &ValueList,
    text: &Text,
    positive: bool,
) -> Result<(), AllocError>
    requires { first + length values.now < 2 ^ 64 }
    ensures { OnOk result (clause.new.items ≡ clause.old.items ++ literals_where (bytes_eq text.now) positive first values.now) }
{
    if let Some(place) = values.find(text.as_str()) {
        clause.push(Literal {
            var: first + place,
            positive,
        })?;
    }
    Ok(())
}

// Appends the variables of the values that match the cell, or of those that don't.
fn push_where(
    clause: &mut Vec<Literal>,
    first: usize,
    values: &ValueList,
    cell: &Cell,
    matching: bool,
) -> Result<(), AllocError>
    requires { first + length values.now < 2 ^ 64 }
    ensures { OnOk result (clause.new.items ≡ clause.old.items ++ literals_where (matches_as matching cell.now) true first values.now) }
{
    for place in 0..values.len() {
        let listed = matches_as(matching, cell, values.get(place));
        push_if(listed, clause, first + place)?;
    }
    Ok(())
}

fn push_if(listed: bool, clause: &mut Vec<Literal>, var: usize) -> Result<(), AllocError>
    ensures { OnOk result (clause.new.items ≡ clause.old.items ++ (if listed then record { var = var; positive = true } ∷ [] else [])) }
{
    if listed {
        clause.push(Literal {
            var,
            positive: true,
        })?;
    }
    Ok(())
}

fn matches_as(matching: bool, cell: &Cell, text: &str) -> bool
    ensures { result ≡ matches_as matching cell.now text.now }
{
    if matching {
        matches(cell, text)
    } else {
        !matches(cell, text)
    }
}

fn matches(cell: &Cell, text: &str) -> bool
    ensures { result ≡ matches bytes_eq cell.now text.now }
{
    match cell {
        Pattern::Any => true,
        Pattern::Is(constant) => constant.is(text),
        Pattern::In(members) => is_member(members.as_slice(), text),
        Pattern::NotIn(members) => !is_member(members.as_slice(), text),
    }
}

fn is_member(members: &[Text], text: &str) -> bool
    ensures { result ≡ list_any (λ member. bytes_eq member text.now) members.now }
{
    members.iter().any(|member| member.is(text))
}
