//! How long the spelling at the front of bytes is, and where a section of a message begins.
ghost use Rattle.amqp_skips.specs.Spelling.{Fronts, FrontsAll, IsTheLength, PassesValues};

use crate::walk::past;
use amqp_value::ValueError;

/// How deep a value may be nested.
const LEVELS: u8 = 32;

/// How deep a section of a message may be: what it holds 32 levels, and its descriptor.
const SECTION_LEVELS: u8 = 33;

/// How many bytes the value at the front takes, as `read_value` finds it for each value that it reads. Takes no memory. `Decode` is the
/// one error, and comes exactly where no spelling of a value nested at most 32 deep begins the input; but a key of a map may come
/// twice here, which `read_value` refuses.
pub fn skip_value(input: &[u8]) -> Result<usize, ValueError>
    ensures found { IsTheLength result (Fronts 32 input.now) }
    ensures values { PassesValues result 32 input.now }
{
    match past(input, LEVELS) {
        Some(rest) => Ok(input.len() - rest.len()),
        None => Err(ValueError::Decode),
    }
}

/// How many bytes stand before the section of that place, where 0 is the first (part 3, section 3.2): all of them where there are so
/// many sections and no more. Takes no memory. `Decode` is the one error, and comes exactly where fewer sections begin the input.
pub fn section_start(input: &[u8], place: u32) -> Result<usize, ValueError>
    ensures { IsTheLength result (FrontsAll 33 place input.now) }
{
    let mut rest = input;
    'sections: for _ in 0..place {
        match past(rest, SECTION_LEVELS) {
            Some(after) => rest = after,
            None => return Err(ValueError::Decode),
        }
    }
    Ok(input.len() - rest.len())
}
