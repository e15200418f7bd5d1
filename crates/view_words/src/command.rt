//! The words as a command of `clap`, which knows what is told of them.
use clap::{Arg, ArgAction, Command, value_parser};
use std::alloc::{AllocError, Global};

/// The program with its forms.
pub fn view_command<'a>(alloc: Global) -> Result<Command<'a>, AllocError> {
    let command = Command::new(alloc, "cfdview")
        .version("1.0")
        .about("Shows people what a project holds.")
        .arg_required_else_help(true)
        .subcommand_required(true);
    let command = with_form(command, list_command(alloc))?;
    let command = with_form(command, row_command(alloc))?;
    let command = with_form(command, check_command(alloc))?;
    let command = with_form(command, schema_command(alloc))?;
    with_form(command, page_command(alloc))
}

fn with_form<'a>(
    command: Command<'a>,
    form: Result<Command<'a>, AllocError>,
) -> Result<Command<'a>, AllocError> {
    command.subcommand(form?)
}

fn list_command<'a>(alloc: Global) -> Result<Command<'a>, AllocError> {
    Command::new(alloc, "list")
        .about("The violations of a project, in groups")
        .arg(project(alloc))?
        .arg(table(alloc))?
        .arg(rule(alloc))?
        .arg(first(alloc))?
        .arg(loaded(alloc))
}

fn row_command<'a>(alloc: Global) -> Result<Command<'a>, AllocError> {
    Command::new(alloc, "row")
        .about("One row: its values and what it breaks")
        .arg(project(alloc))?
        .arg(wanted(alloc, "TABLE").help("The table in which it stands"))?
        .arg(row(alloc))?
        .arg(vouch(alloc))?
        .arg(loaded(alloc))
}

fn check_command<'a>(alloc: Global) -> Result<Command<'a>, AllocError> {
    Command::new(alloc, "check")
        .about("What is off in a project before anything is asked")
        .arg(project(alloc))
}

fn schema_command<'a>(alloc: Global) -> Result<Command<'a>, AllocError> {
    let files = wanted(alloc, "FILE")
        .help("Table files, each with a header")
        .num_args(1..);
    Command::new(alloc, "schema")
        .about("A first schema for table files, as a draft")
        .arg(files)
}

fn page_command<'a>(alloc: Global) -> Result<Command<'a>, AllocError> {
    Command::new(alloc, "page")
        .about("A project as a page for a browser")
        .arg(project(alloc))?
        .arg(first(alloc))?
        .arg(loaded(alloc))
}

// ---- words and options

fn wanted<'a>(alloc: Global, id: &'a str) -> Arg<'a> {
    Arg::new(alloc, id).required(true)
}

fn project<'a>(alloc: Global) -> Arg<'a> {
    wanted(alloc, "PROJECT").help("The file that names the tables, the rules and the script")
}

fn row<'a>(alloc: Global) -> Arg<'a> {
    wanted(alloc, "ROW")
        .help("Its id")
        .value_parser(value_parser!(u64).range(1..))
}

fn table<'a>(alloc: Global) -> Arg<'a> {
    Arg::new(alloc, "table")
        .long("table")
        .value_name("T")
        .help("Only what is wrong in this table")
}

fn rule<'a>(alloc: Global) -> Arg<'a> {
    Arg::new(alloc, "rule")
        .long("rule")
        .value_name("R")
        .help("Only what breaks this rule")
}

fn first<'a>(alloc: Global) -> Arg<'a> {
    Arg::new(alloc, "first")
        .long("first")
        .value_name("N")
        .help("At most N groups of a rule, values of a group, and ids of a value")
        .value_parser(value_parser!(u64).range(1..=500_000))
}

fn vouch<'a>(alloc: Global) -> Arg<'a> {
    Arg::new(alloc, "vouch")
        .long("vouch")
        .value_name("A,B,..")
        .help("Attributes known to be right: tells what a fix would do, and changes nothing")
}

fn loaded<'a>(alloc: Global) -> Arg<'a> {
    Arg::new(alloc, "loaded")
        .long("loaded")
        .action(ArgAction::SetTrue)
        .help("The rows as they were loaded, before the script")
}
