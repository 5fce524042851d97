//! Files of cases that have several lines each.
//!
//! A case is a heading, `= NAME`, the lines that are given, a line `->`, and the lines that are to come of them. What stands
//! before the first heading says nothing, nor do blank lines at the end of a case.

/// A case of several lines.
#[derive(Clone, Copy, Debug)]
pub struct Block<'a> {
    /// What the case is called.
    pub name: &'a str,
    /// The lines before the arrow, each ended by a line feed.
    pub given: &'a str,
    /// The lines behind the arrow.
    pub wanted: &'a str,
}

/// The case that begins behind a heading's `= `, up to the next heading; none where it has no arrow.
pub fn read_block(text: &str) -> Option<Block<'_>> {
    let (name, lines) = text.split_once('\n')?;
    let (given, wanted) = lines.split_once("->\n")?;
    Some(Block {
        name,
        given,
        wanted: wanted.trim(),
    })
}
