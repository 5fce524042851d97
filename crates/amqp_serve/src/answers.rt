//! What the answers to a call say.
ghost use Rattle.std.specs.Prelude.{◌≡◌};
ghost use Rattle.amqp_serve.specs.Answers.{kind_of, kind_of_connection, kind_of_session, kind_of_link, last_answer, is_sent_at, is_sent, is_outcome_at, is_outcome, is_closing_at, is_closing};

use amqp_calls::{LinkReply, NamedReply, Reply, SessionReply};
use amqp_words::Reply as ConnectionReply;

/// What an answer is to its caller.
#[derive(Clone, Copy, Debug, PartialEq, Eq)]
pub enum AnswerKind {
    /// Another answer may follow.
    Pending,
    /// What was asked for.
    Granted,
    /// An error.
    Failed,
}

fn kind_of_connection(reply: &ConnectionReply) -> AnswerKind
    ensures { result ≡ kind_of_connection reply.now }
{
    match reply {
        ConnectionReply::Pending => AnswerKind::Pending,
        ConnectionReply::Connection | ConnectionReply::Closed => AnswerKind::Granted,
        ConnectionReply::OpenError(_) | ConnectionReply::ConnectionError(_) => AnswerKind::Failed,
    }
}

fn kind_of_session(reply: &SessionReply) -> AnswerKind
    ensures { result ≡ kind_of_session reply.now }
{
    match reply {
        SessionReply::Pending => AnswerKind::Pending,
        SessionReply::Session | SessionReply::Ended => AnswerKind::Granted,
        SessionReply::BeginError(_) | SessionReply::SessionError(_) => AnswerKind::Failed,
    }
}

fn kind_of_link(reply: &LinkReply) -> AnswerKind
    ensures { result ≡ kind_of_link reply.now }
{
    match reply {
        LinkReply::Pending => AnswerKind::Pending,
        LinkReply::Sender
        | LinkReply::Receiver
        | LinkReply::Sent
        | LinkReply::Disposer
        | LinkReply::Outcome(_)
        | LinkReply::Delivery { .. }
        | LinkReply::Done
        | LinkReply::Credit(_)
        | LinkReply::Detached
        | LinkReply::Closed => AnswerKind::Granted,
        LinkReply::SenderAttachError(_)
        | LinkReply::ReceiverAttachError(_)
        | LinkReply::AcceptError(_)
        | LinkReply::SendError(_)
        | LinkReply::RecvError(_)
        | LinkReply::DispositionError(_)
        | LinkReply::FlowError(_)
        | LinkReply::Elapsed
        | LinkReply::DetachError(_) => AnswerKind::Failed,
    }
}

/// What an answer is to its caller.
#[tactic(auto, unfolding(crate::specs::Answers::kind_of))]
pub fn kind_of(reply: &Reply) -> AnswerKind
    ensures { result ≡ kind_of reply.now }
{
    match reply {
        Reply::Connection(reply) => kind_of_connection(reply),
        Reply::Session(reply) => kind_of_session(reply),
        Reply::Link(reply) => kind_of_link(reply),
    }
}

fn is_sent_at(reply: &LinkReply) -> bool
    ensures { result ≡ is_sent_at reply.now }
{
    match reply {
        LinkReply::Sent => true,
        _ => false,
    }
}

/// Whether a message was sent.
pub(crate) fn is_sent(reply: &Reply) -> bool
    ensures { result ≡ is_sent reply.now }
{
    match reply {
        Reply::Connection(_) | Reply::Session(_) => false,
        Reply::Link(reply) => is_sent_at(reply),
    }
}

fn is_outcome_at(reply: &LinkReply) -> bool
    ensures { result ≡ is_outcome_at reply.now }
{
    match reply {
        LinkReply::Outcome(_) => true,
        _ => false,
    }
}

/// Whether a message has that outcome.
pub(crate) fn is_outcome(reply: &Reply) -> bool
    ensures { result ≡ is_outcome reply.now }
{
    match reply {
        Reply::Connection(_) | Reply::Session(_) => false,
        Reply::Link(reply) => is_outcome_at(reply),
    }
}

fn is_closing_at(reply: &ConnectionReply) -> bool
    ensures { result ≡ is_closing_at reply.now }
{
    match reply {
        ConnectionReply::Closed => true,
        _ => false,
    }
}

/// Whether both ends have closed the connection.
pub(crate) fn is_closing(reply: &Reply) -> bool
    ensures { result ≡ is_closing reply.now }
{
    match reply {
        Reply::Connection(reply) => is_closing_at(reply),
        Reply::Session(_) | Reply::Link(_) => false,
    }
}

/// The last answer to the call of that name that is among them.
#[tactic(auto, using(crate::proofs::Runs::last_more))]
pub(crate) fn answer_to(name: u64, replies: Vec<NamedReply>) -> Option<Reply>
    ensures { result ≡ last_answer name replies.items }
{
    let mut answer = None;
    for named in replies {
        let NamedReply { name: other, reply } = named;
        if other == name {
            answer = Some(reply);
        }
    }
    answer
}
