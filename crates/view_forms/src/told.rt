//! What is told, with the status that goes with it.

ghost use Rattle.std.specs.Prelude.{◌≡◌};
ghost use Rattle.cli_output.specs.Output.{IsWhole, Only};
ghost use Rattle.view_forms.specs.Statuses.{status_of};

use cli_output::Status;
use view_project::Shown;

/// The status that goes with what is told of the rules.
pub fn status_of(body: &[u8]) -> Status
    ensures status { result ≡ status_of body.now }
    ensures whole { IsWhole result }
{
    if body.is_empty() {
        Status::Clean
    } else {
        Status::Findings
    }
}

/// A line that refuses what is asked for.
pub fn refused(line: Vec<u8>) -> Shown
    ensures told { Only line.items Status.Refused result.text.items result.status }
    ensures whole { IsWhole result.status }
{
    Shown {
        text: line,
        status: Status::Refused,
    }
}
