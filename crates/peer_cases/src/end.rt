//! What cases drive: an end of a connection, and the gates of both ends.
use crate::error::CaseError;
use amqp_peer::{Peer, PeerError};
use amqp_text::Binary;
use amqp_wire::faulty_pipe::FaultyPipe;
use amqp_words::{Call, NamedReply, OpenError, Reply, ReplyList};
use sasl_gate::{
    ClientGate, GatePoll, NegotiationError, OneUser, ServerGate, poll_client, poll_server,
};
use std::alloc::{AllocError, Global};

/// What cases drive.
pub trait End: Drop {
    /// Bytes come from the other end.
    fn hear(&mut self, bytes: &[u8]) -> Result<(), AllocError>;

    /// Makes the call, if there is one, or goes on; the answers since.
    fn act(
        &mut self,
        alloc: Global,
        name: u64,
        at: u64,
        call: Option<Call>,
    ) -> Result<ReplyList, CaseError>;

    /// What it wrote behind so many bytes.
    fn written(&mut self, alloc: Global, from: usize) -> Result<Binary, AllocError>;
}

/// The bytes of an output behind so many.
fn rest(alloc: Global, output: &[u8], from: usize) -> Result<Binary, AllocError> {
    match output.get(from..) {
        Some(bytes) => Binary::from_slice(alloc, bytes),
        None => Ok(Binary::new(alloc)),
    }
}

impl End for Peer<FaultyPipe> {
    fn hear(&mut self, bytes: &[u8]) -> Result<(), AllocError> {
        self.link().give(bytes)
    }

    fn act(
        &mut self,
        _alloc: Global,
        name: u64,
        at: u64,
        call: Option<Call>,
    ) -> Result<ReplyList, CaseError> {
        let done = match call {
            Some(call) => {
                if !self.may_call(name, &call) {
                    return Err(CaseError::Malformed);
                }
                self.call(at, name, call)
            }
            None => self.poll(at),
        };
        match done {
            Ok(()) => Ok(self.replies()),
            Err(PeerError::Memory(error)) => Err(CaseError::Memory(error)),
            Err(PeerError::Failed) => Err(CaseError::Malformed),
        }
    }

    fn written(&mut self, alloc: Global, from: usize) -> Result<Binary, AllocError> {
        rest(alloc, self.link_ref().output(), from)
    }
}

/// What a gate answers, as the answer to the call that made it: the connection stands where it is passed.
fn answered(
    alloc: Global,
    answer: Result<GatePoll, NegotiationError>,
) -> Result<ReplyList, CaseError> {
    let reply = match answer {
        Ok(GatePoll::Pending) => Reply::Pending,
        Ok(GatePoll::Passed) => Reply::Connection,
        Err(error) => Reply::OpenError(OpenError::Negotiation(error)),
    };
    let mut replies = ReplyList::new(alloc);
    replies.push(NamedReply { name: 0, reply })?;
    Ok(replies)
}

impl End for ClientGate<FaultyPipe> {
    fn hear(&mut self, bytes: &[u8]) -> Result<(), AllocError> {
        self.link().give(bytes)
    }

    fn act(
        &mut self,
        alloc: Global,
        _name: u64,
        at: u64,
        _call: Option<Call>,
    ) -> Result<ReplyList, CaseError> {
        answered(alloc, poll_client(self, at))
    }

    fn written(&mut self, alloc: Global, from: usize) -> Result<Binary, AllocError> {
        rest(alloc, self.link().output(), from)
    }
}

impl End for ServerGate<FaultyPipe, OneUser, OneUser> {
    fn hear(&mut self, bytes: &[u8]) -> Result<(), AllocError> {
        self.link().give(bytes)
    }

    fn act(
        &mut self,
        alloc: Global,
        _name: u64,
        at: u64,
        _call: Option<Call>,
    ) -> Result<ReplyList, CaseError> {
        answered(alloc, poll_server(self, at))
    }

    fn written(&mut self, alloc: Global, from: usize) -> Result<Binary, AllocError> {
        rest(alloc, self.link().output(), from)
    }
}
