//! Waiting for input: for a protocol header, for a frame, or for the link to have nothing left.
ghost use Rattle.std.specs.Prelude.{◌≡◌, ◌<◌, ◌≤◌, ◌+◌, length, Ok, IfOk, OnOk};
ghost use Rattle.amqp_wire.specs.Frame.{IsFront};
ghost use Rattle.amqp_wire.specs.Reading.{ReadOn, IsKnown, wait_in, wait_of};

use crate::codec::{Filled, FramedCodec};
use crate::frame::Front;
use crate::link::{Link, Stop};
use std::alloc::AllocError;

/// How a wait for input ended.
#[derive(Clone, Copy, Debug, PartialEq, Eq)]
pub enum Wait {
    /// What was waited for is there.
    Over,
    /// It is not, and a read gave nothing.
    Stopped(Stop),
    /// It is not, and no more reads may be made now.
    Spent,
}

/// What the input begins with, and how the wait for it ended.
#[derive(Clone, Copy, Debug, PartialEq, Eq)]
pub struct Arrival {
    /// The front of the input.
    pub front: Front,
    /// `Over` exactly where the front is not `Partial`.
    pub wait: Wait,
}

/// Reads once, if one of the reads that may give bytes is left. `Over` says that bytes came.
/// Want of memory reads nothing.
pub fn read_once<L: Link>(
    codec: &mut FramedCodec<L>,
    reads_left: &mut u64,
) -> Result<Wait, AllocError>
    ensures read { ReadOn L.Link codec.old reads_left.old (wait_in result) codec.new reads_left.new }
    ensures more { result ≡ Ok Wait.Over → length codec.old.input < length codec.new.input }
    ensures same { (result ≡ Ok Wait.Over → ⊥) → codec.new.input ≡ codec.old.input }
    ensures left { result ≡ Ok Wait.Over → reads_left.new + 1 ≡ reads_left.old }
{
    if *reads_left == 0 {
        return Ok(Wait::Spent);
    }
    match codec.fill()? {
        Filled::More => {
            *reads_left -= 1;
            Ok(Wait::Over)
        }
        Filled::Stopped(stop) => Ok(Wait::Stopped(stop)),
    }
}

/// Reads until eight bytes are there. After want of memory what was read is kept.
pub fn read_header<L: Link>(
    codec: &mut FramedCodec<L>,
    reads_left: &mut u64,
) -> Result<Wait, AllocError>
    ensures read { ReadOn L.Link codec.old reads_left.old (wait_in result) codec.new reads_left.new }
    ensures there { result ≡ Ok Wait.Over → 8 ≤ length codec.new.input }
    ensures less { IfOk result (λ w. (w ≡ Wait.Over → ⊥) → length codec.new.input < 8) }
{
    'reads: while !codec.has_header() {
        match read_once(codec, reads_left) {
            Ok(Wait::Over) => {}
            Ok(Wait::Stopped(stop)) => return Ok(Wait::Stopped(stop)),
            Ok(Wait::Spent) => return Ok(Wait::Spent),
            Err(error) => return Err(error),
        }
    }
    Ok(Wait::Over)
}

/// Reads until the input begins with a whole frame of this type, or with one that is refused
/// (part 2, section 2.3). After want of memory what was read is kept.
pub fn read_front<L: Link>(
    codec: &mut FramedCodec<L>,
    kind: u8,
    limit: usize,
    reads_left: &mut u64,
) -> Result<Arrival, AllocError>
    requires { 8 ≤ limit }
    ensures read { ReadOn L.Link codec.old reads_left.old (wait_of result) codec.new reads_left.new }
    ensures front { IfOk result (λ a. IsFront kind limit codec.new.input a.front) }
    ensures known { IfOk result (λ a. IsKnown a.front a.wait) }
{
    'reads: loop {
        let front = codec.front(kind, limit);
        if front != Front::Partial {
            return Ok(Arrival {
                front,
                wait: Wait::Over,
            });
        }
        match read_once(codec, reads_left) {
            Ok(Wait::Over) => {}
            Ok(Wait::Stopped(stop)) => {
                return Ok(Arrival {
                    front,
                    wait: Wait::Stopped(stop),
                });
            }
            Ok(Wait::Spent) => {
                return Ok(Arrival {
                    front,
                    wait: Wait::Spent,
                });
            }
            Err(error) => return Err(error),
        }
    }
}

/// Reads until the link gives nothing, or no read is left. After want of memory what was read
/// is kept. Never `Over`.
pub fn read_all<L: Link>(
    codec: &mut FramedCodec<L>,
    reads_left: &mut u64,
) -> Result<Wait, AllocError>
    ensures read { ReadOn L.Link codec.old reads_left.old (wait_in result) codec.new reads_left.new }
    ensures ended { result ≡ Ok Wait.Over → ⊥ }
{
    'reads: loop {
        match read_once(codec, reads_left) {
            Ok(Wait::Over) => {}
            Ok(Wait::Stopped(stop)) => return Ok(Wait::Stopped(stop)),
            Ok(Wait::Spent) => return Ok(Wait::Spent),
            Err(error) => return Err(error),
        }
    }
}
