//! Goes over the files and their cases.
use crate::came::{Came, Refusal};
use crate::codec::came_of;
use crate::kind::Kind;
use case_files::{Case, Tally, is_comment, names, read_bytes, read_case};
use std::alloc::{AllocError, Global};
use std::rt::Files;
use std::{fs, io};

/// How many levels a value may have where a case does not say.
const LEVELS: u8 = 32;

/// What a case gives: how many levels a value may have, and bytes.
#[derive(Drop)]
struct Given {
    levels: u8,
    bytes: Vec<u8>,
}

/// Reads what a case gives: `levels=N` may stand before the bytes.
fn read_given(alloc: Global, text: &str) -> Result<Given, Refusal> {
    let Some(rest) = text.strip_prefix("levels=") else {
        return Ok(Given {
            levels: LEVELS,
            bytes: read_bytes(alloc, text)?,
        });
    };
    let (levels, bytes) = rest.split_once(' ').unwrap_or((rest, ""));
    match levels.parse::<u8>() {
        Ok(levels) => Ok(Given {
            levels,
            bytes: read_bytes(alloc, bytes)?,
        }),
        Err(_) => Err(Refusal::BadCase),
    }
}

/// What came in place of what a case wants, or nothing where it is the same.
fn difference(alloc: Global, kind: Kind, case: Case<'_>) -> Result<Option<Came>, AllocError> {
    let given = match read_given(alloc, case.given) {
        Ok(given) => given,
        Err(Refusal::Memory(error)) => return Err(error),
        Err(refusal) => return Ok(Some(Came::Refused(refusal))),
    };
    let came = came_of(alloc, kind, given.bytes.as_slice(), given.levels);
    if came.is_wanted(alloc, given.bytes.as_slice(), case.wanted)? {
        Ok(None)
    } else {
        Ok(Some(came))
    }
}

/// What came in place of what a line's case wants; a line without a case is no good case.
fn line_difference(alloc: Global, kind: Kind, line: &str) -> Result<Option<Came>, AllocError> {
    match read_case(line) {
        Some(case) => difference(alloc, kind, case),
        None => Ok(Some(Came::Refused(Refusal::BadCase))),
    }
}

/// Makes the cases of a text, and writes each that is not the same.
fn run_text(
    rt: &(impl AllocGlobal + Print),
    kind: Kind,
    name: &str,
    text: &str,
) -> io::Result<Tally> {
    let mut tally = Tally::new();
    for (index, line) in text.lines().enumerate() {
        if is_comment(line) {
            continue;
        }
        let came = line_difference(rt.alloc(), kind, line)?;
        tally.count(came.is_none());
        if let Some(came) = came {
            let number = index.saturating_add(1);
            println!(rt; "{name}:{number}: {came}")?;
        }
    }
    Ok(tally)
}

/// Makes the cases of a file, and writes what is to be said of it.
fn run_file(rt: &(impl Files + AllocGlobal + Print), kind: Kind, name: &str) -> io::Result<()> {
    let text = fs::read_to_string(rt, name)?;
    let tally = run_text(rt, kind, name, text.as_str())?;
    println!(rt; "{name}: {tally}")
}

/// Makes the cases of each file of the folder, in the order of their names.
pub fn run_folder<R: Files + AllocGlobal + Print + Clone + Drop>(rt: &R) -> io::Result<()> {
    for name in &names(rt)? {
        if let Some(kind) = Kind::of_file(name.as_str()) {
            run_file(rt, kind, name.as_str())?;
        }
    }
    Ok(())
}
