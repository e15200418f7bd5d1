//! The files of a project as `cfdbench run` reads them; and once more one that is refused, the schema, and tables that
//! together are too many.
ghost use Rattle.std.specs.Prelude.{◌≡◌};
ghost use Rattle.text_lists.specs.Limits.{AreLimits};
ghost use Rattle.cli_output.specs.Fetching.{Fetches, file};
ghost use Rattle.cli_output.specs.RuleFiles.{fetch_schema};
ghost use Rattle.schema_core.specs.Schemas.{IsValidSchema};
ghost use Rattle.project_files.specs.Project.{fetch_tables};
ghost use Rattle.view_check.specs.Seen.{again, all_if, anew, fetch_all, fetch_seen, is_absent, is_full, off, off_unless, passing_over, seen_of};

use cli_output::{Cause, Refusal, Stop, fetch_file, fetch_schema};
use hash_keys::HashKeys;
use probe_steps::Steps;
use project_files::{Project, fetch_project, fetch_tables};
use schema_core::{Limits, List, Schema, Text, Texts};
use shelf_io::Shelf;
use std::alloc::Global;
use std::sync::ledger::Ledger;
use view_refusal::Anew;

/// A refusal, with what is found once more.
#[derive(Drop)]
pub struct Off {
    pub refusal: Refusal,
    pub anew: Anew,
}

/// A project whose files hold, or a refusal.
#[derive(Drop)]
pub enum Seen {
    Whole(Project),
    Off(Off),
}

/// The project of the named schema file, or a refusal with what it refuses. That a file isn't there is a refusal of the call.
pub fn fetch_seen<S: Shelf, L: Ledger>(
    alloc: Global,
    keys: HashKeys,
    shelf: &mut S,
    name: &Text,
    limits: &Limits,
    left: &mut u64,
    steps: &mut Steps<L>,
) -> Result<Seen, Stop>
    requires { AreLimits limits.now }
    ensures { Fetches (fetch_seen limits.now name.now) seen_of 134 result (S.told shelf.old) (S.told shelf.new) left.old left.new }
{
    match fetch_project(alloc, keys, shelf, name, limits, left, steps) {
        Ok(project) => Ok(Seen::Whole(project)),
        Err(Stop::Refused(refusal)) => {
            *left = 0;
            fetch_off_unless(
                alloc,
                shelf,
                is_absent(&refusal.cause),
                name,
                refusal,
                limits,
            )
        }
        Err(Stop::ReadFault) => Err(Stop::ReadFault),
        Err(Stop::Memory) => Err(Stop::Memory),
    }
}

fn is_absent(cause: &Cause) -> bool
    ensures { result ≡ is_absent cause.now }
{
    match cause {
        Cause::Absent => true,
        _ => false,
    }
}

/// The refusal with what it refuses, unless the file isn't there.
fn fetch_off_unless<S: Shelf>(
    alloc: Global,
    shelf: &mut S,
    absent: bool,
    project: &Text,
    refusal: Refusal,
    limits: &Limits,
) -> Result<Seen, Stop>
    requires { AreLimits limits.now }
    ensures { Fetches (off_unless absent limits.now project.now refusal) seen_of 67 result (S.told shelf.old) (S.told shelf.new) 0 0 }
{
    if absent {
        Err(Stop::Refused(refusal))
    } else {
        fetch_off(alloc, shelf, project, refusal, limits)
    }
}

#[tactic(auto, unfolding(crate::specs::Seen::off))]
fn fetch_off<S: Shelf>(
    alloc: Global,
    shelf: &mut S,
    project: &Text,
    refusal: Refusal,
    limits: &Limits,
) -> Result<Seen, Stop>
    requires { AreLimits limits.now }
    ensures { Fetches (off limits.now project.now refusal) seen_of 67 result (S.told shelf.old) (S.told shelf.new) 0 0 }
{
    let anew = fetch_anew(alloc, shelf, project, &refusal, limits)?;
    Ok(Seen::Off(Off { refusal, anew }))
}

#[tactic(auto, unfolding(crate::specs::Seen::anew))]
fn fetch_anew<S: Shelf>(
    alloc: Global,
    shelf: &mut S,
    project: &Text,
    refusal: &Refusal,
    limits: &Limits,
) -> Result<Anew, Stop>
    requires { AreLimits limits.now }
    ensures { Fetches (anew limits.now project.now refusal.now) (λ found. found) 67 result (S.told shelf.old) (S.told shelf.new) 0 0 }
{
    let bytes = fetch_again(shelf, &refusal.what, limits)?;
    let schema = fetch_schema_again(alloc, shelf, project, limits)?;
    let tables = fetch_all_if(alloc, shelf, is_full(&refusal.cause), project, limits)?;
    Ok(Anew {
        bytes,
        schema,
        tables,
    })
}

fn is_full(cause: &Cause) -> bool
    ensures { result ≡ is_full cause.now }
{
    match cause {
        Cause::RowsFull => true,
        _ => false,
    }
}

/// What was read, or nothing where it was refused; but that a file isn't there stays a refusal.
fn passing_over<T: Drop>(found: Result<T, Stop>) -> Result<Option<T>, Stop>
    ensures { result ≡ passing_over found }
{
    match found {
        Ok(found) => Ok(Some(found)),
        Err(Stop::Refused(refusal)) => {
            if is_absent(&refusal.cause) {
                Err(Stop::Refused(refusal))
            } else {
                Ok(None)
            }
        }
        Err(Stop::ReadFault) => Err(Stop::ReadFault),
        Err(Stop::Memory) => Err(Stop::Memory),
    }
}

/// The bytes of a file that was refused, where it fits.
fn fetch_again<S: Shelf>(
    shelf: &mut S,
    name: &Text,
    limits: &Limits,
) -> Result<Option<List<u8>>, Stop>
    requires { AreLimits limits.now }
    ensures { Fetches (again limits.now (file limits.now name.now)) (λ found. found) 1 result (S.told shelf.old) (S.told shelf.new) 0 0 }
{
    let mut room = limits.all_bytes;
    passing_over(fetch_bytes(shelf, name, limits, &mut room))
}

fn fetch_bytes<S: Shelf>(
    shelf: &mut S,
    name: &Text,
    limits: &Limits,
    left: &mut u64,
) -> Result<List<u8>, Stop>
    requires { AreLimits limits.now }
    ensures { Fetches (file limits.now name.now) (λ bytes. bytes) 1 result (S.told shelf.old) (S.told shelf.new) left.old left.new }
{
    match fetch_file(shelf, name, limits, left) {
        Ok(bytes) => Ok(List::from(bytes)),
        Err(stop) => Err(stop),
    }
}

/// The schema, where it isn't refused.
fn fetch_schema_again<S: Shelf>(
    alloc: Global,
    shelf: &mut S,
    name: &Text,
    limits: &Limits,
) -> Result<Option<Schema>, Stop>
    requires { AreLimits limits.now }
    ensures { Fetches (again limits.now (fetch_schema limits.now name.now)) (λ found. found) 1 result (S.told shelf.old) (S.told shelf.new) 0 0 }
{
    let mut room = limits.all_bytes;
    passing_over(fetch_schema(alloc, shelf, name, limits, &mut room))
}

/// The rows of all tables, where they are too many.
fn fetch_all_if<S: Shelf>(
    alloc: Global,
    shelf: &mut S,
    full: bool,
    name: &Text,
    limits: &Limits,
) -> Result<Option<List<List<Texts>>>, Stop>
    requires { AreLimits limits.now }
    ensures { Fetches (all_if full limits.now name.now) (λ found. found) 65 result (S.told shelf.old) (S.told shelf.new) 0 0 }
{
    if full {
        let mut room = limits.all_bytes;
        passing_over(fetch_all(alloc, shelf, name, limits, &mut room))
    } else {
        Ok(None)
    }
}

/// The rows of each table of a schema.
#[tactic(auto, unfolding(crate::specs::Seen::fetch_all))]
fn fetch_all<S: Shelf>(
    alloc: Global,
    shelf: &mut S,
    name: &Text,
    limits: &Limits,
    left: &mut u64,
) -> Result<List<List<Texts>>, Stop>
    requires { AreLimits limits.now }
    ensures { Fetches (fetch_all limits.now name.now) (λ all. all) 65 result (S.told shelf.old) (S.told shelf.new) left.old left.new }
{
    let schema = fetch_schema(alloc, shelf, name, limits, left)?;
    fetch_few(alloc, shelf, &schema, limits, left)
}

/// The same, of which there are at most 64.
fn fetch_few<S: Shelf>(
    alloc: Global,
    shelf: &mut S,
    schema: &Schema,
    limits: &Limits,
    left: &mut u64,
) -> Result<List<List<Texts>>, Stop>
    requires limits { AreLimits limits.now }
    requires valid { IsValidSchema schema.now }
    ensures { Fetches (fetch_tables limits.now schema.now.tables) (λ all. all) 64 result (S.told shelf.old) (S.told shelf.new) left.old left.new }
{
    fetch_tables(alloc, shelf, schema.tables.as_slice(), limits, left)
}
