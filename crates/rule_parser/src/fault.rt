//! Why a rule file is refused.

ghost use Rattle.rule_parser.specs.RuleFiles.{rule_causes};

use rule_model::RuleFault;
use schema_core::{LineCause, LineFault};

/// What is wrong with a line of a rule file.
#[derive(Debug, Drop)]
pub enum ParseCause {
    NotUtf8,
    /// The line is not in the grammar at its place.
    BadLine,
    /// The declaration that begins here has a fault.
    Rule(RuleFault),
}

/// The first faulty line of a rule file, and its first cause.
pub type ParseFault = LineFault<ParseCause>;

impl LineCause for ParseCause {
    ghost causes = { rule_causes };

    fn not_utf8() -> ParseCause {
        ParseCause::NotUtf8
    }

    fn bad_line() -> ParseCause {
        ParseCause::BadLine
    }
}
