//! The first line in which two outputs differ.

/// A line of one output or of both, where they are not the same. Lines are numbered from 1.
#[derive(Drop)]
pub struct Difference<'a> {
    pub number: usize,
    pub wanted: Option<&'a [u8]>,
    pub got: Option<&'a [u8]>,
}

/// The first line in which they differ, if there is one.
pub fn first_difference<'a>(wanted: &'a [u8], got: &'a [u8]) -> Option<Difference<'a>> {
    let mut others = got.split(|byte| *byte == b'\n');
    let mut number: usize = 0;
    for line in wanted.split(|byte| *byte == b'\n') {
        number = number.saturating_add(1);
        let other = others.next();
        if other != Some(line) {
            return Some(Difference {
                number,
                wanted: Some(line),
                got: other,
            });
        }
    }
    let other = others.next()?;
    Some(Difference {
        number: number.saturating_add(1),
        wanted: None,
        got: Some(other),
    })
}
