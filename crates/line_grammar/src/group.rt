//! A group of lines.

use crate::line::Line;
use text_lists::List;

/// A head with its members, the lines behind it that begin with the member word of the file.
#[derive(Drop)]
pub struct Group<'a> {
    pub head: Line<'a>,
    pub members: List<Line<'a>>,
}
