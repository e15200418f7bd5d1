//! The edits that are made to the generated tables.

ghost use Rattle.std.specs.Prelude.{◌≡◌, ◌+◌, ◌*◌, ◌^◌, ◌<◌, IfOk};
ghost use Rattle.drawn_project.specs.Edits.{edit_at, edited_table, fifth, fixing, insertion, old_row, setting, thousand, thousands};

use crate::draws::Draws;
use crate::project::{draw_row, lettered};
use edit_log::Edit;
use row_store::RowId;
use schema_core::{List, Text};
use script_lines::Command;
use std::alloc::{AllocError, Global};

/// Edits, and how many there are with those before them.
#[derive(Drop)]
pub struct Thousand {
    pub commands: List<Command>,
    pub made: u64,
}

fn edited_table(alloc: Global) -> Result<Text, AllocError>
    ensures { IfOk result (λ table. table ≡ edited_table) }
{
    Text::new(alloc, "g")
}

/// One of the later half of the rows that were loaded.
fn draw_old_row(draws: &mut Draws) -> RowId
    ensures { (result, draws.new) ≡ old_row draws.old }
{
    10_001 + draws.draw(10_000)
}

fn draw_insertion(alloc: Global, draws: &mut Draws) -> Result<Command, AllocError>
    ensures { IfOk result (λ drawn. (drawn, draws.new) ≡ insertion draws.old) }
{
    let values = draw_row(alloc, draws)?;
    let table = edited_table(alloc)?;
    Ok(Command::Edit(Edit::Insert { table, values }))
}

/// Another value of the attribute of that letter.
fn draw_setting(
    alloc: Global,
    draws: &mut Draws,
    letter: &str,
    bound: u64,
) -> Result<Command, AllocError>
    requires { 0 < bound }
    ensures { IfOk result (λ drawn. (drawn, draws.new) ≡ setting letter.now bound draws.old) }
{
    let (row, number) = (draw_old_row(draws), draws.draw(bound));
    let value = lettered(alloc, letter, number)?;
    let table = edited_table(alloc)?;
    let attr = Text::new(alloc, letter)?;
    Ok(Command::Edit(Edit::Set {
        table,
        row,
        attr,
        value,
    }))
}

fn draw_fixing(alloc: Global, draws: &mut Draws) -> Result<Command, AllocError>
    ensures { IfOk result (λ drawn. (drawn, draws.new) ≡ fixing draws.old) }
{
    let row = draw_old_row(draws);
    let table = edited_table(alloc)?;
    let mut vouched = List::new(alloc);
    vouched.push(Text::new(alloc, "k")?)?;
    Ok(Command::Fix {
        table,
        row,
        vouched,
    })
}

/// The edit of that number.
fn draw_edit(alloc: Global, draws: &mut Draws, number: u64) -> Result<Command, AllocError>
    requires { number + 1 < 2 ^ 64 }
    ensures { IfOk result (λ drawn. (drawn, draws.new) ≡ edit_at number draws.old) }
{
    match number % 5 {
        1 => draw_insertion(alloc, draws),
        2 => draw_setting(alloc, draws, "a", 7),
        3 => draw_fixing(alloc, draws),
        4 => {
            let table = edited_table(alloc)?;
            let row = (number + 1) / 5;
            Ok(Command::Edit(Edit::Delete { table, row }))
        }
        _ => draw_fifth(alloc, draws, number),
    }
}

/// The edit of a number that five divides.
fn draw_fifth(alloc: Global, draws: &mut Draws, number: u64) -> Result<Command, AllocError>
    ensures { IfOk result (λ drawn. (drawn, draws.new) ≡ fifth number draws.old) }
{
    if number % 10 == 5 {
        Ok(Command::Undo)
    } else {
        draw_setting(alloc, draws, "b", 3)
    }
}

/// The edits after so many thousands.
fn draw_thousand(alloc: Global, draws: &mut Draws, before: u64) -> Result<Thousand, AllocError>
    requires { before < 1000 }
    ensures { IfOk result (λ drawn. (drawn, draws.new) ≡ thousand before draws.old) }
{
    let first = before * 1_000 + 1;
    let mut commands = List::new(alloc);
    for place in 0..1_000u64 {
        commands.push(draw_edit(alloc, draws, first + place)?)?;
    }
    Ok(Thousand {
        commands,
        made: before * 1_000 + 1_000,
    })
}

/// All edits.
pub fn draw_thousands(alloc: Global, draws: &mut Draws) -> Result<List<Thousand>, AllocError>
    ensures { IfOk result (λ drawn. (drawn, draws.new) ≡ thousands draws.old) }
{
    let mut thousands = List::new(alloc);
    for before in 0..5u64 {
        thousands.push(draw_thousand(alloc, draws, before)?)?;
    }
    Ok(thousands)
}
