//! How a call ends.

/// How a call ends. The program's exit status is the number.
#[derive(Clone, Copy, PartialEq, Eq)]
pub enum Status {
    /// Answered to the end, nothing found.
    Clean,
    /// Answered to the end, something found.
    Findings,
    /// The words have no form.
    Usage,
    /// A file or a word was refused; one line says so.
    Refused,
    /// A fetch failed.
    ReadFault,
    /// A put failed.
    WriteFault,
    /// Want of memory.
    Memory,
    /// The budget of a search was used up.
    Spent,
}

ghost use Rattle.std.specs.Prelude.{◌≡◌};
ghost use Rattle.cli_output.specs.Statuses.{number_of};

impl Status {
    /// The exit status of the program.
    pub fn number(self) -> u8
        ensures { result ≡ number_of self }
    {
        match self {
            Status::Clean => 0,
            Status::Findings => 1,
            Status::Usage => 2,
            Status::Refused => 3,
            Status::ReadFault => 4,
            Status::WriteFault => 5,
            Status::Memory => 6,
            Status::Spent => 7,
        }
    }
}
