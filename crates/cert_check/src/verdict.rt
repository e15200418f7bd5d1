//! What is found of a certificate.

/// It holds, or the number of the first line that doesn't.
#[derive(Clone, Copy, PartialEq, Eq)]
pub enum CertVerdict {
    Holds,
    Fails(usize),
}
