//! Why a certificate file is refused.

ghost use Rattle.cert_text.specs.CertFiles.{cert_causes};

use line_grammar::{LineCause, LineFault};

/// What is wrong with a line of a certificate file.
#[derive(Clone, Copy, Debug, PartialEq, Eq)]
pub enum CertCause {
    NotUtf8,
    /// The line is not in the grammar at its place. Where a line is missing, its place is behind the last line.
    BadLine,
}

/// The first faulty line of a certificate file, and its cause.
pub type CertFault = LineFault<CertCause>;

impl LineCause for CertCause {
    ghost causes = { cert_causes };

    fn not_utf8() -> CertCause {
        CertCause::NotUtf8
    }

    fn bad_line() -> CertCause {
        CertCause::BadLine
    }
}
