//! What is found once more where a file is refused.

use schema_core::{List, Schema, Texts};

/// What is found once more where a file is refused, each where it can be read: the bytes of that file, the schema, and the
/// rows of all tables, where together they are too many.
#[derive(Drop)]
pub struct Anew {
    pub bytes: Option<List<u8>>,
    pub schema: Option<Schema>,
    pub tables: Option<List<List<Texts>>>,
}
