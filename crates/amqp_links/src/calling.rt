//! The calls on links (OASIS AMQP 1.0, part 2, sections 2.6.7 and 2.6.12).
ghost use Rattle.std.specs.Prelude.{◌≡◌, ◌++◌, nat_eq, option_map, OnOk, IfOk};
ghost use Rattle.std.specs.Map.{lookup};
ghost use Rattle.amqp_links.specs.Calling.{sending_at, outcome_at, outcome_for, info_of, delivery_kept, ReceivesAt, disposing, crediting_at, credit_at, Calls};
ghost use Rattle.amqp_links.specs.Disposers.{info_at, infos_of};
ghost use Rattle.amqp_links.specs.State.{seen, link_of};
ghost use Rattle.amqp_links.specs.Leaving.{leaving_at};
ghost use Rattle.amqp_links.specs.Taking.{finished};

use crate::links::{GivenDelivery, Links};
use amqp_delivery::DeliveryInfo;
use amqp_link_calls::amqp_link_words::{Disposal, LinkCall, LinkReply, Sendable};
use amqp_sender::DeliveryToken;
use amqp_session_links::WaitingAccept;
use std::alloc::AllocError;

/// Lets a message go.
fn discard_message(_message: Sendable) {}

/// What names the delivery, where the answer is one.
fn info_of(reply: &LinkReply) -> Option<&DeliveryInfo>
    ensures { option_map (λ x. x.now) result ≡ info_of reply.now }
{
    match reply {
        LinkReply::Delivery { info, message: _ } => Some(info),
        _ => None,
    }
}

impl Links {
    /// Makes a call of that name. For a call on a session `handle_max` is the highest handle that this end may use there; none where
    /// the session is not begun at both ends. The one error is want of memory.
    pub fn call(
        &mut self,
        name: u64,
        call: LinkCall,
        handle_max: Option<u32>,
    ) -> Result<(), AllocError>
        ensures { OnOk result (Calls name call handle_max (seen self.old) (seen self.new)) }
    {
        match call {
            LinkCall::Sender { session, settings } => {
                self.enter(session)?;
                self.attach_sender(name, session, settings, handle_max)
            }
            LinkCall::Receiver { session, settings } => {
                self.enter(session)?;
                self.attach_receiver(name, session, settings, handle_max)
            }
            LinkCall::Accept {
                session,
                settings,
                credit_mode,
                auto_accept,
            } => {
                self.enter(session)?;
                let accept = WaitingAccept {
                    name,
                    settings,
                    credit_mode,
                    auto_accept,
                    handle_max,
                };
                self.accept(session, accept)
            }
            LinkCall::Send { link, message } => self.send(name, link, message),
            LinkCall::SendTimed {
                link,
                message,
                timeout,
            } => self.send_timed(name, link, message, timeout),
            LinkCall::Outcome { send } => self.outcome(name, send),
            LinkCall::Recv { link } => self.recv(name, link),
            LinkCall::Dispose {
                link,
                disposal,
                deliveries,
            } => self.dispose(name, link, disposal, deliveries.as_slice()),
            LinkCall::SetCredit { link, credit } => self.set_credit(name, link, credit),
            LinkCall::Credit { link } => self.credit(name, link),
            LinkCall::Regulate { link, regulation } => self.regulate(name, link, regulation),
            LinkCall::Disposer { link } => self.make_disposer(name, link),
            LinkCall::DisposeBy {
                disposer,
                disposal,
                delivery,
            } => self.dispose_by(name, disposer, disposal, delivery),
            LinkCall::Part { link, parting } => self.part(name, link, parting),
        }
    }

    /// Answers a call on a link, and takes up what has become of it.
    pub(crate) fn finish(
        &mut self,
        name: u64,
        link: u64,
        reply: LinkReply,
    ) -> Result<(), AllocError>
        ensures { OnOk result (seen self.new ≡ finished name link reply (seen self.old)) }
    {
        self.answer(name, reply)?;
        self.take_up(link)
    }

    /// Sends a message.
    fn send(&mut self, name: u64, link: u64, message: Sendable) -> Result<(), AllocError>
        ensures { OnOk result (seen self.new ≡ sending_at (link_of link (seen self.old)) name link message (seen self.old)) }
    {
        let Some(endpoint) = self.endpoints.get_mut(&link) else {
            discard_message(message);
            return Ok(());
        };
        let (reply, token) = endpoint.send(message)?;
        self.keep_send(name, link, token)?;
        self.finish(name, link, reply)
    }

    /// Asks what has become of the message of a call.
    fn outcome(&mut self, name: u64, send: u64) -> Result<(), AllocError>
        ensures { OnOk result (seen self.new ≡ outcome_for (lookup (nat_eq send) (seen self.old).sends) name (seen self.old)) }
    {
        match self.sends.get(&send).copied() {
            Some(sent) => self.outcome_of(name, sent.link, sent.token),
            None => Ok(()),
        }
    }

    fn outcome_of(&mut self, name: u64, link: u64, token: DeliveryToken) -> Result<(), AllocError>
        ensures { OnOk result (seen self.new ≡ outcome_at (link_of link (seen self.old)) name link token (seen self.old)) }
    {
        let Some(endpoint) = self.endpoints.get_mut(&link) else {
            return Ok(());
        };
        let reply = endpoint.outcome(name, token)?;
        self.finish(name, link, reply)
    }

    fn keep_delivery(&mut self, name: u64, link: u64, reply: &LinkReply) -> Result<(), AllocError>
        ensures { OnOk result (seen self.new ≡ delivery_kept name link (info_of reply.now) (seen self.old)) }
    {
        match info_of(reply) {
            Some(info) => {
                let info = info.try_clone(self.alloc)?;
                self.deliveries.insert(name, GivenDelivery { link, info })?;
                Ok(())
            }
            None => Ok(()),
        }
    }

    /// Asks for the next message.
    fn recv(&mut self, name: u64, link: u64) -> Result<(), AllocError>
        ensures { OnOk result (ReceivesAt (link_of link (seen self.old)) name link (seen self.old) (seen self.new)) }
    {
        let Some(endpoint) = self.endpoints.get_mut(&link) else {
            return Ok(());
        };
        let reply = endpoint.recv()?;
        self.keep_delivery(name, link, &reply)?;
        self.leave_given(link, &reply);
        self.finish(name, link, reply)
    }

    /// What names the delivery of a call goes behind those.
    fn push_info(&self, infos: &mut Vec<DeliveryInfo>, delivery: u64) -> Result<(), AllocError>
        ensures { OnOk result (infos.new.items ≡ infos.old.items ++ info_at (lookup (nat_eq delivery) (seen self.now).deliveries)) }
    {
        match self.deliveries.get(&delivery) {
            Some(given) => {
                let info = given.info.try_clone(self.alloc)?;
                infos.push(info)?;
                Ok(())
            }
            None => Ok(()),
        }
    }

    /// What names the deliveries of those calls.
    pub(crate) fn infos_of(&self, deliveries: &[u64]) -> Result<Vec<DeliveryInfo>, AllocError>
        ensures { IfOk result (λ infos. infos.items ≡ infos_of deliveries.now (seen self.now).deliveries) }
    {
        let mut infos = Vec::new(self.alloc);
        for delivery in deliveries {
            self.push_info(&mut infos, *delivery)?;
        }
        Ok(infos)
    }

    /// Gives deliveries a state in which they end.
    fn dispose(
        &mut self,
        name: u64,
        link: u64,
        disposal: Disposal,
        deliveries: &[u64],
    ) -> Result<(), AllocError>
        ensures { OnOk result (seen self.new ≡ disposing name link disposal deliveries.now (seen self.old)) }
    {
        let infos = self.infos_of(deliveries)?;
        let Some(endpoint) = self.endpoints.get_mut(&link) else {
            drop(disposal);
            return Ok(());
        };
        let reply = endpoint.dispose(disposal, &infos)?;
        self.leave_disposed(link, &infos, &reply);
        self.finish(name, link, reply)
    }

    /// Gives the sender of a link credit.
    fn set_credit(&mut self, name: u64, link: u64, credit: u32) -> Result<(), AllocError>
        ensures { OnOk result (seen self.new ≡ crediting_at (link_of link (seen self.old)) name link credit (seen self.old)) }
    {
        let Some(endpoint) = self.endpoints.get_mut(&link) else {
            return Ok(());
        };
        let reply = endpoint.set_credit(credit)?;
        self.finish(name, link, reply)
    }

    /// Asks how much credit the sender of a link has.
    fn credit(&mut self, name: u64, link: u64) -> Result<(), AllocError>
        ensures { OnOk result (seen self.new ≡ credit_at (link_of link (seen self.old)) name (seen self.old)) }
    {
        let Some(endpoint) = self.endpoints.get(&link) else {
            return Ok(());
        };
        let credit = endpoint.credit();
        self.answer(name, LinkReply::Credit(credit))
    }
}
