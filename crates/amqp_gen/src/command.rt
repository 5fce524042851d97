//! The command `gen START COUNT`.
ghost use Rattle.std.specs.Prelude.{◌≡◌, ◌≤◌, ◌⊎◌, ℕ, IfSome, IfOk, IfErr};
ghost use Rattle.amqp_gen.specs.Command.{IsGenText, WritesGen, WritesSomeGen, IsGenUnwritten, IsGenWritten};
ghost use Rattle.amqp_gen.specs.Run.{steps_of};
ghost use Rattle.amqp_session_world.specs.Turn.{IsFirstInvalid};
ghost use Rattle.amqp_streams.specs.Streams.{WritesFront};
ghost use Rattle.amqp_wire.specs.Link.{Rose};
ghost use Rattle.list_laws.specs.Told.{Gains};

use crate::run::{LONGEST_RUN, run_gen};
use crate::tally::text_of;
use amqp_script::script::number::number;
use amqp_script::script::words::is_text;
use amqp_streams::outside::{WriteError, write_all};
use amqp_text::Text;
use amqp_wire::source::Sink;
use amqp_wire::status::Status;
use amqp_world::WorldError;
use std::alloc::Global;

/// What the words behind the program's name ask for, where they are `gen START COUNT`: START below 2^64, COUNT at most 10,000.
pub fn asked(words: &[Text]) -> Option<(u64, u32)>
    ensures { IfSome result (λ asked. asked.1 ≤ 10000) }
{
    let [word, start, count] = words else {
        return None;
    };
    if !is_text(word.as_bytes(), b"gen") {
        return None;
    }
    let start = number(u64::MAX, start.as_bytes())?;
    let count = number(u64::from(LONGEST_RUN), count.as_bytes())?;
    if count > u64::from(LONGEST_RUN) {
        return None;
    }
    Some((start, count as u32))
}

/// The lines of a run, or how it ends that has none.
fn text_of_run(alloc: Global, start: u64, count: u32) -> Result<Vec<u8>, Status>
    requires { count ≤ 10000 }
    ensures lines { IfOk result (λ t. IsGenText start count t.items) }
    ensures ends { IfErr result (IsGenUnwritten start count) }
{
    let run = match run_gen(alloc, start, count) {
        Ok(run) => run,
        Err(WorldError::BadStep { index }) => return Err(Status::BadStep { index }),
        Err(WorldError::Memory(_) | WorldError::Failed) => return Err(Status::Memory),
    };
    match text_of(alloc, run.tally, run.bytes) {
        Ok(text) => Ok(text),
        Err(_) => Err(Status::Memory),
    }
}

/// Writes the lines; how a run ends that has come so far.
fn write_lines<K: Sink>(sink: &mut K, text: &[u8]) -> Status
    ensures done { result ≡ Status.Done → Gains (K.written sink.old) (K.written sink.new) text.now }
    ensures ends { IsGenWritten result }
    ensures front { WritesFront text.now (K.written sink.old) (K.written sink.new) }
    ensures write_fault { result ≡ Status.WriteFault → Rose (K.faults sink.old) (K.faults sink.new) }
    ensures later { K.faults sink.old ≤ K.faults sink.new }
{
    match write_all(sink, text) {
        Ok(()) => Status::Done,
        Err(WriteError::Failed) => Status::WriteFault,
        Err(WriteError::Memory) => Status::Memory,
    }
}

/// Runs the messages, and writes how many were sent and accepted, how many bytes their bodies have, and how many both ends wrote, a line
/// each. Nothing is written before the run has ended.
pub fn run_command<K: Sink>(alloc: Global, start: u64, count: u32, sink: &mut K) -> Status
    requires { count ≤ 10000 }
    ensures done { result ≡ Status.Done → WritesGen start count (K.written sink.old) (K.written sink.new) }
    ensures memory { result ≡ Status.Memory → (K.written sink.new ≡ K.written sink.old) ⊎
        WritesSomeGen start count (K.written sink.old) (K.written sink.new) }
    ensures write_fault { result ≡ Status.WriteFault → Rose (K.faults sink.old) (K.faults sink.new) }
    ensures write_front { result ≡ Status.WriteFault →
        WritesSomeGen start count (K.written sink.old) (K.written sink.new) }
    ensures unwritten { (i : ℕ) → result ≡ Status.BadStep i → K.written sink.new ≡ K.written sink.old }
    ensures bad { (i : ℕ) → result ≡ Status.BadStep i → IsFirstInvalid (steps_of start count) i }
    ensures later { K.faults sink.old ≤ K.faults sink.new }
{
    match text_of_run(alloc, start, count) {
        Ok(text) => write_lines(sink, text.as_slice()),
        Err(status) => status,
    }
}
