//! What is counted of a trace.
ghost use Rattle.std.specs.Prelude.{◌≡◌, IfOk, OnOk, ◌++◌};
ghost use Rattle.amqp_gen.specs.Tally.{sent_by, accepted_by, with_reply, with_replies, with_entry, tallied, line_of, text_of};

use amqp_calls::{Entry, NamedReply, Reply};
use amqp_link_words::LinkReply;
use amqp_termini::Outcome;
use std::alloc::{AllocError, Global};

/// What is counted of a trace; each count stands still at the end of its type.
#[derive(Clone, Copy, Debug, PartialEq, Eq)]
pub struct Tally {
    /// The messages that were sent.
    pub messages: u32,
    /// The messages whose outcome is that they were accepted.
    pub accepted: u32,
    /// The bytes that both ends wrote.
    pub wrote: u64,
}

/// 1 where a message was sent, else 0.
fn sent_by(reply: &Reply) -> u32
    ensures { result ≡ sent_by reply.now }
{
    match reply {
        Reply::Link(LinkReply::Sent) => 1,
        Reply::Link(_) | Reply::Connection(_) | Reply::Session(_) => 0,
    }
}

/// 1 where a message was accepted, else 0.
fn accepted_by(reply: &Reply) -> u32
    ensures { result ≡ accepted_by reply.now }
{
    match reply {
        Reply::Link(LinkReply::Outcome(Outcome::Accepted(_))) => 1,
        Reply::Link(_) | Reply::Connection(_) | Reply::Session(_) => 0,
    }
}

impl Tally {
    /// Nothing was counted.
    pub fn new() -> Self
        ensures { result ≡ record { messages = 0; accepted = 0; wrote = 0 } }
    {
        Tally {
            messages: 0,
            accepted: 0,
            wrote: 0,
        }
    }

    fn add_reply(self, reply: &NamedReply) -> Self
        ensures { result ≡ with_reply self reply.now }
    {
        Tally {
            messages: self.messages.saturating_add(sent_by(&reply.reply)),
            accepted: self.accepted.saturating_add(accepted_by(&reply.reply)),
            wrote: self.wrote,
        }
    }

    fn add_replies(self, replies: &[NamedReply]) -> Self
        ensures { result ≡ with_replies self replies.now }
    {
        let mut tally = self;
        for reply in replies {
            tally = tally.add_reply(reply);
        }
        tally
    }

    fn add_entry(self, entry: &Entry) -> Self
        ensures { result ≡ with_entry self entry.now }
    {
        let tally = self.add_replies(entry.replies.as_slice());
        Tally {
            messages: tally.messages,
            accepted: tally.accepted,
            wrote: tally.wrote.saturating_add(entry.wrote.len() as u64),
        }
    }

    /// What is counted of all entries.
    pub fn of(entries: &[Entry]) -> Self
        ensures { result ≡ tallied entries.now }
    {
        let mut tally = Tally::new();
        for entry in entries {
            tally = tally.add_entry(entry);
        }
        tally
    }
}

fn push_line(alloc: Global, out: &mut Vec<u8>, word: &str, number: u64) -> Result<(), AllocError>
    ensures { OnOk result (out.new.items ≡ out.old.items ++ line_of word.now number) }
{
    let digits = format!(in alloc; "{number}")?;
    out.extend_from_slice(word.as_bytes())?;
    out.extend_from_slice(digits.as_bytes())?;
    out.push(b'\n')?;
    Ok(())
}

/// The lines of a run, with the bytes of the bodies; the one error is want of memory.
pub fn text_of(alloc: Global, tally: Tally, bytes: u64) -> Result<Vec<u8>, AllocError>
    ensures { IfOk result (λ text. text.items ≡ text_of tally bytes) }
{
    let mut out = Vec::new(alloc);
    push_line(alloc, &mut out, "messages ", u64::from(tally.messages))?;
    push_line(alloc, &mut out, "accepted ", u64::from(tally.accepted))?;
    push_line(alloc, &mut out, "bytes ", bytes)?;
    push_line(alloc, &mut out, "wrote ", tally.wrote)?;
    Ok(out)
}
