//! How much a call accepts, so that no input makes it run out of all bounds.

ghost use Rattle.std.specs.Prelude.{◌≡◌};
ghost use Rattle.text_lists.specs.Limits.{standard, AreLimits};

/// The most that a call accepts of each kind.
#[derive(Clone, Copy, PartialEq, Eq)]
pub struct Limits {
    /// Tables of a schema, master tables included.
    pub tables: u64,
    /// Attributes of one table.
    pub attrs: u64,
    /// Values of one finite domain.
    pub values: u64,
    /// Bytes of one cell.
    pub cell_bytes: u64,
    /// Bytes of one file.
    pub file_bytes: u64,
    /// Bytes of all files of one call.
    pub all_bytes: u64,
    /// Dependencies, each with one attribute on its right side.
    pub deps: u64,
    /// Inclusion dependencies.
    pub cinds: u64,
    /// Editing rules.
    pub edits: u64,
    /// Tableau rows of all dependencies, as written.
    pub tableau_rows: u64,
    /// Rows of all tables together.
    pub rows: u64,
    /// Cells of the indexes: over tables, rows times weight.
    pub index_cells: u64,
    /// The greatest row id.
    pub last_id: u64,
    /// Commands of a script.
    pub commands: u64,
}

/// What is counted where a file has too many of it.
#[derive(Clone, Copy, Debug, PartialEq, Eq)]
pub enum Limit {
    Tables,
    Attrs,
    Values,
    Deps,
    Cinds,
    Edits,
    TableauRows,
    Commands,
}

impl Limits {
    /// The limits that the program runs with. No call accepts greater ones.
    pub fn standard() -> Limits
        ensures value { result ≡ standard }
        ensures allowed { AreLimits result }
    {
        Limits {
            tables: 64,
            attrs: 64,
            values: 64,
            cell_bytes: 65_535,
            file_bytes: 67_108_864,
            all_bytes: 134_217_728,
            deps: 128,
            cinds: 64,
            edits: 256,
            tableau_rows: 4_096,
            rows: 500_000,
            index_cells: 100_000_000,
            last_id: 999_999_999_999,
            commands: 1_000_000,
        }
    }
}
