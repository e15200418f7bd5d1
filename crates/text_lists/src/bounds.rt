//! How long the parts of a line may be, in one place for all code and all definitions.

/// Bytes of a name.
pub const NAME_BYTES: usize = 64;

/// Digits of a number.
pub const NUMBER_DIGITS: usize = 12;

/// Bytes of a constant: a value of a domain, of a tableau row or of a pattern.
pub const CONSTANT_BYTES: usize = 1_024;

/// Bytes of the name of a file.
pub const FILE_NAME_BYTES: usize = 1_024;

/// Members of a set of constants.
pub const SET_MEMBERS: usize = 64;
