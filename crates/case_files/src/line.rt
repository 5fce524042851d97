//! The lines of a file of cases.

/// What is given, and what is to come of it.
#[derive(Clone, Copy, Debug)]
pub struct Case<'a> {
    /// What stands before the arrow.
    pub given: &'a str,
    /// What stands behind the arrow.
    pub wanted: &'a str,
}

/// The case of a line: none of a blank line, of a comment, which begins with `#`, and of a line without an arrow, `=>`.
pub fn read_case(line: &str) -> Option<Case<'_>> {
    if is_comment(line) {
        return None;
    }
    let (given, wanted) = line.split_once("=>")?;
    Some(Case {
        given: given.trim(),
        wanted: wanted.trim(),
    })
}

/// Whether a line says nothing: it is blank, or a comment.
pub fn is_comment(line: &str) -> bool {
    let text = line.trim();
    text.is_empty() || text.starts_with('#')
}
