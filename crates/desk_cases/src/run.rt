//! Goes over the files and their cases.
use crate::answer::answers;
use crate::error::CaseError;
use case_files::{Block, Tally, names, read_block};
use std::alloc::{AllocError, Global};
use std::rt::Files;
use std::sync::Wait;
use std::{fs, io};

/// What a case comes to, as it is written.
fn text_of<R: Wait>(rt: &R, alloc: Global, given: &str) -> Result<String, AllocError> {
    match answers(rt, alloc, given) {
        Ok(text) => Ok(text),
        Err(CaseError::Memory(error)) => Err(error),
        Err(CaseError::Malformed) => String::from_str(alloc, "malformed"),
    }
}

/// Whether a case comes to what it says; writes what came where it does not.
fn is_same<R: AllocGlobal + Print + Wait>(rt: &R, case: Block<'_>) -> io::Result<bool> {
    let text = text_of(rt, rt.alloc(), case.given)?;
    let is_same = text.as_str().trim_end() == case.wanted;
    if !is_same {
        let name = case.name;
        println!(rt; "{name}:\n{text}")?;
    }
    Ok(is_same)
}

/// Makes the cases of a file, and writes what is to be said of it.
fn run_file<R: Files + AllocGlobal + Print + Wait>(rt: &R, name: &str) -> io::Result<()> {
    let text = fs::read_to_string(rt, name)?;
    let mut tally = Tally::new();
    for part in text.split("\n= ").skip(1) {
        match read_block(part) {
            Some(case) => tally.count(is_same(rt, case)?),
            None => tally.count(false),
        }
    }
    println!(rt; "{name}: {tally}")
}

/// Makes the cases of each file of the folder, in the order of their names.
pub fn run_folder<R: Files + AllocGlobal + Print + Wait + Clone + Drop>(rt: &R) -> io::Result<()> {
    for name in &names(rt)? {
        if name.ends_with(".desks") {
            run_file(rt, name.as_str())?;
        }
    }
    Ok(())
}
