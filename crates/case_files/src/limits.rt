//! Limits by their names.
ghost use Rattle.std.specs.Prelude.{◌↔◌, IsTrue};
ghost use Rattle.text_lists.specs.Limits.{AreLimits};

use text_lists::Limits;

/// Sets the limit of that name. Says whether there is one.
pub fn set_limit(limits: &mut Limits, name: &str, number: u64) -> bool {
    match name {
        "tables" => limits.tables = number,
        "attrs" => limits.attrs = number,
        "values" => limits.values = number,
        "cell_bytes" => limits.cell_bytes = number,
        "file_bytes" => limits.file_bytes = number,
        "all_bytes" => limits.all_bytes = number,
        "deps" => limits.deps = number,
        "cinds" => limits.cinds = number,
        "edits" => limits.edits = number,
        "tableau_rows" => limits.tableau_rows = number,
        "rows" => limits.rows = number,
        "index_cells" => limits.index_cells = number,
        "last_id" => limits.last_id = number,
        "commands" => limits.commands = number,
        _ => return false,
    }
    true
}

/// Whether a call takes these limits: none is above the standard one, and there is an id for each row.
pub fn are_limits(limits: &Limits) -> bool
    ensures { IsTrue result ↔ AreLimits limits.now }
{
    limits.tables <= 64
        && limits.attrs <= 64
        && limits.values <= 64
        && limits.cell_bytes <= 65_535
        && limits.file_bytes <= 67_108_864
        && limits.all_bytes <= 134_217_728
        && limits.deps <= 128
        && limits.cinds <= 64
        && limits.edits <= 256
        && limits.tableau_rows <= 4_096
        && limits.rows <= 500_000
        && limits.index_cells <= 100_000_000
        && limits.last_id <= 999_999_999_999
        && limits.commands <= 1_000_000
        && limits.rows <= limits.last_id
}
