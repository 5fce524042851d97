//! The program over any source and sink: the commands that read a source to its end or write a key.
ghost use Rattle.std.specs.Prelude.{◌≡◌};
ghost use Rattle.amqp_run.specs.Program.{is_decode, Ran};

use crate::request::run_request;
use crate::show::{form_of, run_show};
use amqp_decoder::ending::Ending;
use amqp_decoder::run::run_decode;
use amqp_script::script::words::is_text;
use amqp_text::Text;
use amqp_wire::source::{Sink, Source};
use amqp_wire::status::Status;
use std::alloc::Global;

/// How a command ended.
#[derive(Drop)]
pub enum ProgramEnd {
    /// Any but `decode`.
    Program(Status),
    /// `decode`.
    Decoder(Ending),
}

/// Whether the words behind the program's name are `decode`.
fn is_decode(words: &[Text]) -> bool
    ensures { result ≡ is_decode words.now }
{
    let [word] = words else {
        return false;
    };
    is_text(word.as_bytes(), b"decode")
}

/// Does what the words behind the program's name ask for: `decode` as `run_decode` does, `show` and `show --svg` as `run_show`, and
/// `world`, `kdf` and whatever is no command as `run_request`.
pub fn run_program<S: Source, K: Sink>(
    alloc: Global,
    words: &[Text],
    source: &mut S,
    sink: &mut K,
) -> ProgramEnd
    ensures { Ran words.now (S.left source.old) (S.left source.new) (S.faults source.old) (S.faults source.new)
        (K.written sink.old) (K.written sink.new) (K.faults sink.old) (K.faults sink.new) (source.new ≡ source.old) result }
{
    if is_decode(words) {
        return ProgramEnd::Decoder(run_decode(alloc, source, sink));
    }
    if let Some(form) = form_of(words) {
        return ProgramEnd::Program(run_show(alloc, form, source, sink));
    }
    ProgramEnd::Program(run_request(alloc, words, source, sink))
}
