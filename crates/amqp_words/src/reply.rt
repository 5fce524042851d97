//! What an end answers.
ghost use Rattle.std.specs.Prelude.{◌≡◌, [], ◌∷◌, ◌++◌, length, OnOk, OnErr};

use crate::open_error::OpenError;
use amqp_engine::error::Error as ConnectionError;
use std::alloc::{AllocError, Global};
use std::marker::Model;

/// The answer to a call.
#[derive(Debug)]
pub enum Reply {
    /// Not yet; another answer may follow in a later step.
    Pending,
    /// The connection is open.
    Connection,
    /// The connection is closed.
    Closed,
    /// An `open` or `accept` failed.
    OpenError(OpenError),
    /// A call on the connection failed.
    ConnectionError(ConnectionError),
}

// An answer is let go by a call, so that no caller sees the parts of errors.
impl Drop for Reply {
    fn drop(self) {
        match self {
            Reply::Pending | Reply::Connection | Reply::Closed => {}
            Reply::OpenError(error) => drop(error),
            Reply::ConnectionError(error) => drop(error),
        }
    }
}

/// The answer to the call of a name.
#[derive(Debug, Drop)]
pub struct NamedReply {
    /// The call's name: the position of its step.
    pub name: u64,
    /// The answer.
    pub reply: Reply,
}

/// Answers in the order in which they came, seen as the list of them.
#[derive(Debug)]
pub struct ReplyList {
    replies: Vec<NamedReply>,
}

// The list is let go by a call, so that no caller sees what it holds.
impl Drop for ReplyList {
    fn drop(self) {
        let ReplyList { replies } = self;
        drop(replies);
    }
}

impl Model for ReplyList {
    ghost use Rattle.std.specs.Prelude.{List};
    ghost use Rattle.amqp_words.specs.declared.reply.NamedReply.{NamedReply};

    ghost Value = { List NamedReply };

    ghost use Rattle.std.specs.Coded.{codes};
    ghost use Rattle.amqp_fields.specs.contracts.map.FieldMap as map;

    ghost coded = { Prim.hlevel (codes, map.the_row.coded) };

    ghost view = { λ r. r.replies.items };
}

impl ReplyList {
    /// No answers; takes no memory.
    pub fn new(alloc: Global) -> Self
        ensures { result ≡ [] }
    {
        ReplyList {
            replies: Vec::new(alloc),
        }
    }

    /// The answers, lent.
    pub fn as_slice(&self) -> &[NamedReply]
        ensures { result.now ≡ self.now }
    {
        self.replies.as_slice()
    }

    /// The number of answers.
    pub fn len(&self) -> usize
        ensures { result ≡ length self.now }
    {
        self.replies.len()
    }

    /// The answers themselves.
    pub fn into_vec(self) -> Vec<NamedReply>
        ensures { result.items ≡ self }
    {
        let ReplyList { replies } = self;
        replies
    }

    /// Adds an answer at the end; want of memory leaves the list as it was.
    pub fn push(&mut self, reply: NamedReply) -> Result<(), AllocError>
        ensures ok { OnOk result (self.new ≡ self.old ++ reply ∷ []) }
        ensures err { OnErr result (self.new ≡ self.old) }
    {
        self.replies.push(reply)?;
        Ok(())
    }
}
