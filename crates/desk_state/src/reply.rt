//! What is answered to an event.
use bench_core::EditFault;
use row_store::RowId;
use schema_core::{List, Texts};
use violation_report::Line;

/// The answer to an event. All but the first are answers that leave the desk as it is.
#[derive(Drop)]
pub enum Reply {
    /// The edit is accepted, and this is its row with its new version.
    Done {
        table: usize,
        row: RowId,
        version: u64,
    },
    /// The row that was looked at.
    Row {
        table: usize,
        version: u64,
        values: Texts,
    },
    /// Every violation that the rows have now.
    Lines(List<Line>),
    /// The edit is refused, or there is no such row to look at.
    Refused(EditFault),
    /// The row has another version than the one that was seen: this one.
    Stale {
        version: u64,
    },
    /// Somebody built on the change that is to be taken back. This is the present version of its row.
    Overtaken {
        version: u64,
    },
    /// The editor has no change that still stands.
    NothingToTakeBack,
    /// There are no numbers left for another change.
    EditsSpent,
}
