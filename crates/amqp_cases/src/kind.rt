//! What the cases of a file are about.
//!
//! A case is a line, `GIVEN => WANTED`; blank lines and lines that begin with `#` say nothing. GIVEN are bytes
//! (`case_files::notation`), and before them may stand `levels=N`, the most levels that a value may be nested, else 32. WANTED is
//! what is to come: bytes, or `same` where they are those that were given; a number; a text; the name of an error, as `Decode`; or an
//! offset and a reason, or `none`.

/// What a file's cases are about, as the end of its name tells.
#[derive(Clone, Copy, Debug, PartialEq, Eq)]
pub enum Kind {
    /// `.values`: bytes of one value, and how it is written again.
    Values,
    /// `.shown`: bytes of one value, and how it prints.
    Shown,
    /// `.fronts`: bytes, and how many of them the value at their front takes.
    Fronts,
    /// `.skips`: the same, told without making the value.
    Skips,
    /// `.sequences`: bytes, and how many values fill them.
    Sequences,
    /// `.hashes`: bytes that values fill, and how many different hashes they have.
    Hashes,
    /// `.bodies`: the body of a frame, and how it is written again.
    Bodies,
    /// `.sizes`: the body of a frame, and how many bytes are written of it.
    Sizes,
    /// `.sasl`: the body of a SASL frame, and how it is written again.
    Sasl,
    /// `.messages`: a message, and how it is written again.
    Messages,
    /// `.pieces`: a message that comes in pieces of seven bytes, and how it is written again.
    Pieces,
    /// `.starts`: a message, and where its sections begin and the last ends.
    Starts,
    /// `.faults`: bytes, and where and why they are no message.
    Faults,
}

impl Kind {
    /// What the cases of the file of that name are about: nothing where it is no file of cases.
    pub fn of_file(name: &str) -> Option<Kind> {
        let (_, end) = name.rsplit_once('.')?;
        match end {
            "values" => Some(Kind::Values),
            "shown" => Some(Kind::Shown),
            "fronts" => Some(Kind::Fronts),
            "skips" => Some(Kind::Skips),
            "sequences" => Some(Kind::Sequences),
            "hashes" => Some(Kind::Hashes),
            "bodies" => Some(Kind::Bodies),
            "sizes" => Some(Kind::Sizes),
            "sasl" => Some(Kind::Sasl),
            "messages" => Some(Kind::Messages),
            "pieces" => Some(Kind::Pieces),
            "starts" => Some(Kind::Starts),
            "faults" => Some(Kind::Faults),
            _ => None,
        }
    }
}
