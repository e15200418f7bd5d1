//! Texts of tildes, which stand for a value that no rule names.

ghost use Rattle.std.specs.Prelude.{◌≡◌, IfOk};
ghost use Rattle.std.specs.String.{string_bytes};
ghost use Rattle.cell_values.specs.Fresh.{fresh_past, IsFreshPast, tildes};

use crate::value_list::ValueList;
use schema_core::Text;
use std::alloc::{AllocError, Global};

/// The shortest text of more than `count` tildes that isn't among the texts.
pub fn fresh_past(alloc: Global, count: usize, texts: &ValueList) -> Result<Text, AllocError>
    ensures text { IfOk result (λ text. text ≡ fresh_past count texts.now) }
    ensures fresh { IfOk result (IsFreshPast count texts.now) }
{
    let mut text = tildes(alloc, count)?;
    loop {
        text.push_str("~")?;
        let Some(_) = texts.find(text.as_str()) else {
            let fresh = Text::from_string(alloc, text)?;
            return Ok(fresh);
        };
    }
}

fn tildes(alloc: Global, count: usize) -> Result<String, AllocError>
    ensures { IfOk result (λ text. string_bytes text ≡ tildes count) }
{
    let mut text = String::new(alloc);
    for _ in 0..count {
        text.push_str("~")?;
    }
    Ok(text)
}
