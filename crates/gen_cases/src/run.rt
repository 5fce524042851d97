//! Goes over the files and their cases.
use crate::outcome::outcome;
use case_files::{Block, Tally, has_lines, names, read_block};
use std::rt::Files;
use std::{fs, io};

/// Whether a case comes to what it says; writes what came where it is not.
fn is_same(rt: &(impl AllocGlobal + Print), case: Block<'_>) -> io::Result<bool> {
    let text = outcome(rt.alloc(), case.given)?;
    let is_same = has_lines(text.as_str().trim_end(), case.wanted);
    if !is_same {
        let name = case.name;
        println!(rt; "{name}:\n{text}")?;
    }
    Ok(is_same)
}

/// Makes the cases of a file, and writes what is to be said of it.
fn run_file(rt: &(impl Files + AllocGlobal + Print), name: &str) -> io::Result<()> {
    let text = fs::read_to_string(rt, name)?;
    let mut tally = Tally::new();
    for part in text.split("\n= ").skip(1) {
        match read_block(part) {
            Some(case) => tally.count(is_same(rt, case)?),
            None => tally.count(false),
        }
    }
    println!(rt; "{name}: {tally}")
}

/// Makes the cases of each file of the folder, in the order of their names.
pub fn run_folder<R: Files + AllocGlobal + Print + Clone + Drop>(rt: &R) -> io::Result<()> {
    for name in &names(rt)? {
        if name.ends_with(".gens") {
            run_file(rt, name.as_str())?;
        }
    }
    Ok(())
}
