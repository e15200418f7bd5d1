//! A text with the status that goes with it.

use cli_output::Status;

/// The text that is shown of a project, with the status that goes with it.
#[derive(Drop)]
pub struct Shown {
    pub text: Vec<u8>,
    pub status: Status,
}
