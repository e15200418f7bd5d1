//! What is written of an answer.
use cli_output::Status;

/// A text, and how a call ends that writes it.
#[derive(Drop)]
pub struct Told {
    pub text: Vec<u8>,
    pub status: Status,
}
