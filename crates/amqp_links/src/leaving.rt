//! The calls that leave links (OASIS AMQP 1.0, part 2, sections 2.6.4 to 2.6.6).
ghost use Rattle.std.specs.Prelude.{◌≡◌, OnOk};
ghost use Rattle.amqp_links.specs.Leaving.{is_leaving, timeout_of, spent_if, leaving_at};
ghost use Rattle.amqp_links.specs.State.{seen, link_of};

use crate::links::Links;
use amqp_data::Text;
use amqp_link_calls::amqp_link_words::Parting;
use std::alloc::AllocError;

/// Lets a call go.
fn discard(_parting: Parting) {}

/// Whether a call detaches, closes or abandons a link.
fn is_leaving(parting: &Parting) -> bool
    ensures { result ≡ is_leaving parting.now }
{
    match parting {
        Parting::OnDetach => false,
        Parting::Detach { .. } | Parting::Close { .. } | Parting::Abandon => true,
    }
}

/// How long a call waits, in milliseconds, where it waits only so long.
fn timeout_of(parting: &Parting) -> Option<u64>
    ensures { result ≡ timeout_of parting.now }
{
    match parting {
        Parting::Detach { error: _, timeout } => *timeout,
        Parting::OnDetach | Parting::Close { .. } | Parting::Abandon => None,
    }
}

impl Links {
    /// From now on no attach may use that name on the session.
    fn spend_if(&mut self, is_leaving: bool, session: u64, name: Text) -> Result<(), AllocError>
        ensures { OnOk result (seen self.new ≡ spent_if is_leaving session name (seen self.old)) }
    {
        if !is_leaving {
            drop(name);
            return Ok(());
        }
        match self.sessions.get_mut(&session) {
            Some(place) => place.spend(name),
            None => {
                drop(name);
                Ok(())
            }
        }
    }

    /// Leaves a link: from then on no attach may use its name.
    pub(crate) fn part(&mut self, name: u64, link: u64, parting: Parting) -> Result<(), AllocError>
        ensures { OnOk result (seen self.new ≡ leaving_at (link_of link (seen self.old)) name link parting (seen self.old)) }
    {
        let alloc = self.alloc;
        let Some(endpoint) = self.endpoints.get_mut(&link) else {
            discard(parting);
            return Ok(());
        };
        let is_leaving = is_leaving(&parting);
        let timeout = timeout_of(&parting);
        let session = endpoint.session();
        let link_name = endpoint.name().try_clone(alloc)?;
        let reply = endpoint.part(name, parting)?;
        self.spend_if(is_leaving, session, link_name)?;
        self.tell_part(timeout, reply, name, link)?;
        self.take_up(link)
    }
}
