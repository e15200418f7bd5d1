//! Why a table file is refused.

ghost use Rattle.std.specs.Prelude.{◌≡◌};
ghost use Rattle.csv_tables.specs.declared.fault.TableFault.TheVariants as fault;

use schema_core::Text;
use std::alloc::{AllocError, AllocFailed};
use thiserror::Error;

/// The first fault of a table file. Records are numbered from the header, which is record 0.
#[derive(Debug, Drop, Error, PartialEq, Eq)]
pub enum TableFault {
    #[error("there is no header")]
    NoHeader,
    #[error("record {at} is not UTF-8")]
    NotUtf8 { at: usize },
    #[error("the table has no attribute {:?}", .0.as_str())]
    HeaderColumn(Text),
    #[error("the column {:?} stands twice", .0.as_str())]
    HeaderRepeats(Text),
    #[error("the column {:?} is missing", .0.as_str())]
    HeaderLacks(Text),
    #[error("record {at} has another number of fields than the header")]
    Width { at: usize },
    #[error("record {at} has a field that is too long")]
    TextTooLong { at: usize },
    #[error("record {at} has a field outside the domain of {:?}", .attr.as_str())]
    NotInDomain { at: usize, attr: Text },
    #[error("record {at} is one row too many")]
    RowsFull { at: usize },
    #[error("out of memory")]
    Memory,
}

impl From<AllocError> for TableFault {
    ghost from_gives = { λ _ f. f ≡ fault.Memory };

    fn from(_: AllocError) -> TableFault {
        TableFault::Memory
    }
}

impl<T: Drop> From<AllocFailed<T>> for TableFault {
    ghost from_gives = { λ _ f. f ≡ fault.Memory };

    fn from(_: AllocFailed<T>) -> TableFault {
        TableFault::Memory
    }
}
