//! How links get their handles, and give them back (OASIS AMQP 1.0, part 2, sections 2.6.2 and 2.6.4).
ghost use Rattle.std.specs.Prelude.{◌≡◌, Some, OnOk, IfOk};
ghost use Rattle.amqp_session_links.specs.Claims.{claimed_below, claimed_up_to, claiming, reclaimed_up_to, reclaiming, is_at, released, joined, parted, spending};

use crate::place::{Claim, SessionLinks};
use amqp_composites::modes::Role;
use amqp_data::Text;
use amqp_link::{AttachError, copied_reason};
use amqp_link_tables::AllocLinkError;
use std::alloc::AllocError;

/// Whether a place is that link's.
fn is_at(place: Option<u64>, link: u64) -> bool
    ensures { result ≡ is_at place link }
{
    match place {
        Some(other) => other == link,
        None => false,
    }
}

impl SessionLinks {
    /// A link of that name and role gets the lowest handle of this end that is free, up to `handle_max`. Refusals in this order:
    /// `SessionStopped`; `SessionNotMapped` where there is no `handle_max`; `DuplicatedLinkName` where a link of that name and role
    /// holds a handle; `HandleMaxReached`. Then nothing changes. The one error is want of memory.
    pub fn claim(
        &mut self,
        name: Text,
        role: Role,
        link: u64,
        handle_max: Option<u32>,
    ) -> Result<Claim, AllocError>
        ensures state { OnOk result (self.new ≡ (claiming name role link handle_max self.old).state) }
        ensures answer { IfOk result (λ claim. claim ≡ (claiming name role link handle_max self.old).answer) }
    {
        match &self.stop_reason {
            Some(reason) => {
                drop(name);
                let reason = copied_reason(self.alloc, reason)?;
                Ok(Claim::Refused(AttachError::SessionStopped(reason)))
            }
            None => self.claim_mapped(name, role, link, handle_max),
        }
    }

    fn claim_mapped(
        &mut self,
        name: Text,
        role: Role,
        link: u64,
        handle_max: Option<u32>,
    ) -> Result<Claim, AllocError>
        ensures state { OnOk result (self.new ≡ (claimed_up_to handle_max name role link self.old).state) }
        ensures answer { IfOk result (λ claim. claim ≡ (claimed_up_to handle_max name role link self.old).answer) }
    {
        match handle_max {
            Some(handle_max) => self.claim_handle(name, role, link, handle_max),
            None => {
                drop(name);
                Ok(Claim::Refused(AttachError::SessionNotMapped))
            }
        }
    }

    fn claim_handle(
        &mut self,
        name: Text,
        role: Role,
        link: u64,
        handle_max: u32,
    ) -> Result<Claim, AllocError>
        ensures state { OnOk result (self.new ≡ (claimed_below handle_max name role link self.old).state) }
        ensures answer { IfOk result (λ claim. claim ≡ (claimed_below handle_max name role link self.old).answer) }
    {
        match self.table.allocate(name, role, link, handle_max) {
            Ok(handle) => {
                self.links.push(link)?;
                self.handle_max = Some(handle_max);
                Ok(Claim::Handle(handle))
            }
            Err(AllocLinkError::Memory(error)) => Err(error),
            Err(AllocLinkError::DuplicatedLinkName) => {
                Ok(Claim::Refused(AttachError::DuplicatedLinkName))
            }
            Err(AllocLinkError::HandleMaxReached) => {
                Ok(Claim::Refused(AttachError::HandleMaxReached))
            }
        }
    }

    fn reclaim_handle(
        &mut self,
        name: Text,
        role: Role,
        link: u64,
        handle_max: u32,
    ) -> Result<Claim, AllocError>
        ensures state { OnOk result (self.new ≡ (reclaimed_up_to (Some handle_max) name role link self.old).state) }
        ensures answer { IfOk result (λ claim. claim ≡ (reclaimed_up_to (Some handle_max) name role link self.old).answer) }
    {
        match self.table.allocate(name, role, link, handle_max) {
            Ok(handle) => Ok(Claim::Handle(handle)),
            Err(AllocLinkError::Memory(error)) => Err(error),
            Err(AllocLinkError::DuplicatedLinkName) => {
                Ok(Claim::Refused(AttachError::DuplicatedLinkName))
            }
            Err(AllocLinkError::HandleMaxReached) => {
                Ok(Claim::Refused(AttachError::HandleMaxReached))
            }
        }
    }

    /// A link that was attached before gets the lowest handle of this end that is free, up to the highest that a link could get before.
    /// Refusals: `DuplicatedLinkName`, then `HandleMaxReached`; `SessionNotMapped` where no link has had a handle. Then nothing
    /// changes. The one error is want of memory.
    pub fn reclaim(&mut self, name: Text, role: Role, link: u64) -> Result<Claim, AllocError>
        ensures state { OnOk result (self.new ≡ (reclaiming name role link self.old).state) }
        ensures answer { IfOk result (λ claim. claim ≡ (reclaiming name role link self.old).answer) }
    {
        match self.handle_max {
            Some(handle_max) => self.reclaim_handle(name, role, link, handle_max),
            None => {
                drop(name);
                Ok(Claim::Refused(AttachError::SessionNotMapped))
            }
        }
    }

    /// The link gives that handle of this end back, if it has it.
    pub fn release(&mut self, handle: u32, link: u64)
        ensures { self.new ≡ released handle link self.old }
    {
        if is_at(self.table.link_at(handle), link) {
            self.table.release(handle);
        }
    }

    /// The link has that handle of the peer. The one error is want of memory.
    pub fn join(&mut self, remote: u32, link: u64) -> Result<(), AllocError>
        ensures { OnOk result (self.new ≡ joined remote link self.old) }
    {
        self.table.join(remote, link)
    }

    /// The handle of the peer is free.
    pub fn part(&mut self, remote: u32)
        ensures { self.new ≡ parted remote self.old }
    {
        self.table.part(remote);
    }

    /// No attach may use that name again. The one error is want of memory.
    pub fn spend(&mut self, name: Text) -> Result<(), AllocError>
        ensures { OnOk result (self.new ≡ spending name self.old) }
    {
        self.table.spend(name)
    }
}
