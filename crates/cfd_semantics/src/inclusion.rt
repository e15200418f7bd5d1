//! A conditional inclusion dependency R1[X; Xp] in R2[Y; Yp]: attributes of two tables, and a tableau of constants.

use text_lists::List;

/// A tableau row of an inclusion: a constant for each attribute of Xp, and for each of Yp.
#[derive(Drop)]
pub struct InclusionRow<V> {
    pub xp: List<V>,
    pub yp: List<V>,
}

/// An inclusion: the attributes X and Xp of the left table, Y and Yp of the right one, and the rows of its tableau.
#[derive(Drop)]
pub struct Inclusion<V> {
    pub x: List<usize>,
    pub xp: List<usize>,
    pub y: List<usize>,
    pub yp: List<usize>,
    pub rows: List<InclusionRow<V>>,
}
