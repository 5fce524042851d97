//! The files of the folder that a program runs in.
use std::rt::Files;
use std::{fs, io};

/// The names of what the folder holds, in the order of their bytes.
pub fn names<R: Files + AllocGlobal + Clone + Drop>(rt: &R) -> io::Result<Vec<String>> {
    let mut names = Vec::new(rt.alloc());
    for entry in fs::read_dir(rt, ".")? {
        let entry = entry?;
        let name = String::from_str(rt.alloc(), entry.file_name())?;
        names.push(name)?;
    }
    names.sort()?;
    Ok(names)
}
