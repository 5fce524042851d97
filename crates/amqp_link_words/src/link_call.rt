//! What an end is asked to do with its links.
ghost use Rattle.std.specs.Prelude.{◌≡◌, IfOk};

use crate::copies::{copied_accept, copied_condition, copied_receiver, copied_sender};
use crate::names::NameList;
use crate::regulation::Regulation;
use amqp_delivery::CreditMode;
use amqp_receiver::ReceiverSettings;
use amqp_sender::SenderSettings;
use amqp_sender::amqp_link::AcceptSettings;
use amqp_text::Symbol;
use bytes::Bytes;
use std::alloc::{AllocError, Global};

/// A message that is to be sent.
#[derive(Debug, Drop)]
pub struct Sendable {
    /// The bytes of the message (OASIS AMQP 1.0, part 3, section 3.2).
    pub payload: Bytes,
    /// Whether the message has a body. Without one it is not sent.
    pub has_body: bool,
    /// Whether it is sent settled, where the link leaves that open; no where that is not said.
    pub settled: Option<bool>,
    /// Whether the receiver may wait with its Disposition (part 2, section 2.7.5).
    pub batchable: bool,
}

/// The state in which a receiver's delivery ends (part 3, section 3.4).
#[derive(Debug, Drop)]
pub enum Disposal {
    /// It was processed.
    Accepted,
    /// It is invalid; the condition of the error, if one is said.
    Rejected(Option<Symbol>),
    /// It was not processed, and will not be.
    Released,
    /// It was changed and not processed.
    Modified {
        /// The attempt counts as one that failed; left out where no.
        delivery_failed: bool,
        /// It is not to be sent to this receiver again; left out where no.
        undeliverable_here: bool,
    },
}

/// How a link is left (part 2, sections 2.6.4 to 2.6.6).
#[derive(Debug, Drop)]
pub enum Parting {
    /// Waits for the peer's Detach.
    OnDetach,
    /// Detaches the link.
    Detach {
        /// The condition of the error that the peer is told, if it is told one.
        error: Option<Symbol>,
        /// How long the call waits, in milliseconds; without it the call waits until it is answered.
        timeout: Option<u64>,
    },
    /// Closes the link.
    Close {
        /// The condition of the error that the peer is told, if it is told one.
        error: Option<Symbol>,
    },
    /// Closes the link, and waits for no answer.
    Abandon,
}

/// A call for a link, or on a link. A link is known by the name of the call that made it, and so are sends and deliveries.
#[derive(Debug, Drop)]
pub enum LinkCall {
    /// The client attaches a sender.
    Sender {
        /// The name of the call that made the session.
        session: u64,
        /// What the sender says of itself.
        settings: SenderSettings,
    },
    /// The client attaches a receiver.
    Receiver {
        /// The name of the call that made the session.
        session: u64,
        /// What the receiver says of itself.
        settings: ReceiverSettings,
    },
    /// The listener accepts the first link that the client has attached and that waits, or the next.
    Accept {
        /// The name of the call that made the session.
        session: u64,
        /// What this end says of itself.
        settings: AcceptSettings,
        /// When a receiver gives credit.
        credit_mode: CreditMode,
        /// Whether a receiver accepts each delivery as it gives it.
        auto_accept: bool,
    },
    /// Sends a message.
    Send {
        /// The name of the sender.
        link: u64,
        /// The message.
        message: Sendable,
    },
    /// Sends a message, and asks what becomes of it: waits for credit and for the outcome, but only so long.
    SendTimed {
        /// The name of the sender.
        link: u64,
        /// The message.
        message: Sendable,
        /// How long the call waits, in milliseconds.
        timeout: u64,
    },
    /// Asks what has become of a message.
    Outcome {
        /// The name of the call that sent it.
        send: u64,
    },
    /// Asks for the next message.
    Recv {
        /// The name of the receiver.
        link: u64,
    },
    /// Gives deliveries a state in which they end.
    Dispose {
        /// The name of the receiver.
        link: u64,
        /// The state.
        disposal: Disposal,
        /// The names of the calls that gave the deliveries; one or more.
        deliveries: NameList,
    },
    /// Gives the sender that much credit.
    SetCredit {
        /// The name of the receiver.
        link: u64,
        /// The credit, in deliveries.
        credit: u32,
    },
    /// Asks how much credit the sender has.
    Credit {
        /// The name of the receiver.
        link: u64,
    },
    /// Has a receiver go on otherwise.
    Regulate {
        /// The name of the receiver.
        link: u64,
        /// How.
        regulation: Regulation,
    },
    /// Makes a disposer of the deliveries of a receiver, which keeps how the link stands.
    Disposer {
        /// The name of the receiver.
        link: u64,
    },
    /// Gives a delivery a state in which it ends, by a disposer.
    DisposeBy {
        /// The name of the call that made the disposer.
        disposer: u64,
        /// The state.
        disposal: Disposal,
        /// The name of the call that gave the delivery.
        delivery: u64,
    },
    /// Leaves a link.
    Part {
        /// The name of the link.
        link: u64,
        /// How it is left.
        parting: Parting,
    },
}

impl Sendable {
    /// A copy, with the same bytes; the one error is want of memory.
    pub fn try_clone(&self) -> Result<Self, AllocError>
        ensures { IfOk result (λ m. m ≡ self.now) }
    {
        let payload = self.payload.clone()?;
        Ok(Sendable {
            payload,
            has_body: self.has_body,
            settled: self.settled,
            batchable: self.batchable,
        })
    }
}

impl Disposal {
    /// A copy; the one error is want of memory.
    pub fn try_clone(&self, alloc: Global) -> Result<Self, AllocError>
        ensures { IfOk result (λ d. d ≡ self.now) }
    {
        match self {
            Disposal::Accepted => Ok(Disposal::Accepted),
            Disposal::Rejected(condition) => {
                let condition = copied_condition(alloc, condition)?;
                Ok(Disposal::Rejected(condition))
            }
            Disposal::Released => Ok(Disposal::Released),
            Disposal::Modified {
                delivery_failed,
                undeliverable_here,
            } => Ok(Disposal::Modified {
                delivery_failed: *delivery_failed,
                undeliverable_here: *undeliverable_here,
            }),
        }
    }
}

impl Parting {
    /// A copy; the one error is want of memory.
    pub fn try_clone(&self, alloc: Global) -> Result<Self, AllocError>
        ensures { IfOk result (λ p. p ≡ self.now) }
    {
        match self {
            Parting::OnDetach => Ok(Parting::OnDetach),
            Parting::Detach { error, timeout } => {
                let error = copied_condition(alloc, error)?;
                Ok(Parting::Detach {
                    error,
                    timeout: *timeout,
                })
            }
            Parting::Close { error } => {
                let error = copied_condition(alloc, error)?;
                Ok(Parting::Close { error })
            }
            Parting::Abandon => Ok(Parting::Abandon),
        }
    }
}

impl LinkCall {
    fn part(alloc: Global, link: u64, parting: &Parting) -> Result<Self, AllocError>
        ensures { IfOk result (λ c. c ≡ LinkCall.Part link parting.now) }
    {
        let parting = parting.try_clone(alloc)?;
        Ok(LinkCall::Part { link, parting })
    }

    fn sender(alloc: Global, session: u64, settings: &SenderSettings) -> Result<Self, AllocError>
        ensures { IfOk result (λ c. c ≡ LinkCall.Sender session settings.now) }
    {
        let settings = copied_sender(alloc, settings)?;
        Ok(LinkCall::Sender { session, settings })
    }

    fn receiver(
        alloc: Global,
        session: u64,
        settings: &ReceiverSettings,
    ) -> Result<Self, AllocError>
        ensures { IfOk result (λ c. c ≡ LinkCall.Receiver session settings.now) }
    {
        let settings = copied_receiver(alloc, settings)?;
        Ok(LinkCall::Receiver { session, settings })
    }

    fn accept(
        alloc: Global,
        session: u64,
        settings: &AcceptSettings,
        credit_mode: CreditMode,
        auto_accept: bool,
    ) -> Result<Self, AllocError>
        ensures { IfOk result (λ c. c ≡ LinkCall.Accept session settings.now credit_mode auto_accept) }
    {
        let settings = copied_accept(alloc, settings)?;
        Ok(LinkCall::Accept {
            session,
            settings,
            credit_mode,
            auto_accept,
        })
    }

    fn send(link: u64, message: &Sendable) -> Result<Self, AllocError>
        ensures { IfOk result (λ c. c ≡ LinkCall.Send link message.now) }
    {
        let message = message.try_clone()?;
        Ok(LinkCall::Send { link, message })
    }

    fn send_timed(link: u64, message: &Sendable, timeout: u64) -> Result<Self, AllocError>
        ensures { IfOk result (λ c. c ≡ LinkCall.SendTimed link message.now timeout) }
    {
        let message = message.try_clone()?;
        Ok(LinkCall::SendTimed {
            link,
            message,
            timeout,
        })
    }

    fn dispose(
        alloc: Global,
        link: u64,
        disposal: &Disposal,
        deliveries: &NameList,
    ) -> Result<Self, AllocError>
        ensures { IfOk result (λ c. c ≡ LinkCall.Dispose link disposal.now deliveries.now) }
    {
        let disposal = disposal.try_clone(alloc)?;
        let deliveries = deliveries.try_clone(alloc)?;
        Ok(LinkCall::Dispose {
            link,
            disposal,
            deliveries,
        })
    }

    fn dispose_by(
        alloc: Global,
        disposer: u64,
        disposal: &Disposal,
        delivery: u64,
    ) -> Result<Self, AllocError>
        ensures { IfOk result (λ c. c ≡ LinkCall.DisposeBy disposer disposal.now delivery) }
    {
        let disposal = disposal.try_clone(alloc)?;
        Ok(LinkCall::DisposeBy {
            disposer,
            disposal,
            delivery,
        })
    }

    /// A copy; the one error is want of memory.
    pub fn try_clone(&self, alloc: Global) -> Result<Self, AllocError>
        ensures { IfOk result (λ c. c ≡ self.now) }
    {
        match self {
            LinkCall::Sender { session, settings } => LinkCall::sender(alloc, *session, settings),
            LinkCall::Receiver { session, settings } => {
                LinkCall::receiver(alloc, *session, settings)
            }
            LinkCall::Accept {
                session,
                settings,
                credit_mode,
                auto_accept,
            } => LinkCall::accept(alloc, *session, settings, *credit_mode, *auto_accept),
            LinkCall::Send { link, message } => LinkCall::send(*link, message),
            LinkCall::SendTimed {
                link,
                message,
                timeout,
            } => LinkCall::send_timed(*link, message, *timeout),
            LinkCall::Outcome { send } => Ok(LinkCall::Outcome { send: *send }),
            LinkCall::Recv { link } => Ok(LinkCall::Recv { link: *link }),
            LinkCall::Dispose {
                link,
                disposal,
                deliveries,
            } => LinkCall::dispose(alloc, *link, disposal, deliveries),
            LinkCall::SetCredit { link, credit } => Ok(LinkCall::SetCredit {
                link: *link,
                credit: *credit,
            }),
            LinkCall::Credit { link } => Ok(LinkCall::Credit { link: *link }),
            LinkCall::Regulate { link, regulation } => Ok(LinkCall::Regulate {
                link: *link,
                regulation: *regulation,
            }),
            LinkCall::Disposer { link } => Ok(LinkCall::Disposer { link: *link }),
            LinkCall::DisposeBy {
                disposer,
                disposal,
                delivery,
            } => LinkCall::dispose_by(alloc, *disposer, disposal, *delivery),
            LinkCall::Part { link, parting } => LinkCall::part(alloc, *link, parting),
        }
    }
}
