//! The words and options of `list`, `row` and `page`.

use text_lists::{Text, Texts};

/// `list PROJECT [--table T] [--rule R] [--first N] [--loaded]`: the violations of a project, in groups.
#[derive(Drop)]
pub struct ListOptions {
    pub project: Text,
    /// only violations of that table
    pub table: Option<Text>,
    /// only violations of that rule
    pub rule: Option<Text>,
    /// at most that many groups of a rule, values of a group and ids of a value
    pub first: Option<u64>,
    /// the tables as they were read, the script not run
    pub loaded: bool,
}

/// `row PROJECT TABLE ROW [--vouch A,B,..] [--loaded]`: one row of a table, and what is wrong with it.
#[derive(Drop)]
pub struct RowOptions {
    pub project: Text,
    pub table: Text,
    /// which row, from 1 on
    pub row: u64,
    /// the attributes that somebody vouches for, in the order of the words; none where the option isn't there
    pub vouch: Texts,
    pub loaded: bool,
}

/// `page PROJECT [--first N] [--loaded]`: a project's page.
#[derive(Drop)]
pub struct PageOptions {
    pub project: Text,
    pub first: Option<u64>,
    pub loaded: bool,
}
