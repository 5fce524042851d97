//! Texts that leave lines open.
use std::str::Lines;

/// Whether a line is as the wanted one says: a `..` in it stands for any characters.
fn is_line(line: &str, wanted: &str) -> bool {
    let Some((front, back)) = wanted.split_once("..") else {
        return line == wanted;
    };
    match line.strip_prefix(front) {
        Some(rest) => rest.ends_with(back),
        None => false,
    }
}

/// Whether one of the lines that are left is as wanted; those up to it are taken.
fn finds_line(lines: &mut Lines<'_>, wanted: &str) -> bool {
    lines.any(|line| is_line(line, wanted))
}

/// Whether a text has the lines that are wanted. A line `..` stands for any lines, up to the first that the next line wants.
pub fn has_lines(text: &str, wanted: &str) -> bool {
    let mut lines = text.lines();
    let mut is_open = false;
    for line in wanted.lines() {
        if line == ".." {
            is_open = true;
            continue;
        }
        let is_found = if is_open {
            finds_line(&mut lines, line)
        } else {
            lines.next().is_some_and(|found| is_line(found, line))
        };
        if !is_found {
            return false;
        }
        is_open = false;
    }
    is_open || lines.next().is_none()
}
