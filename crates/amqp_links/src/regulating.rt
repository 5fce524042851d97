//! Calls that have a receiver go on otherwise (OASIS AMQP 1.0, part 2, section 2.6.7).
ghost use Rattle.std.specs.Prelude.{◌≡◌, OnOk};
ghost use Rattle.amqp_links.specs.Regulating.{regulating_at};
ghost use Rattle.amqp_links.specs.State.{seen, link_of};

use crate::links::Links;
use amqp_link_calls::amqp_link_words::Regulation;
use std::alloc::AllocError;

impl Links {
    /// Has a receiver go on otherwise. The one error is want of memory.
    pub(crate) fn regulate(
        &mut self,
        name: u64,
        link: u64,
        regulation: Regulation,
    ) -> Result<(), AllocError>
        ensures { OnOk result (seen self.new ≡ regulating_at (link_of link (seen self.old)) name link regulation (seen self.old)) }
    {
        let Some(endpoint) = self.endpoints.get_mut(&link) else {
            return Ok(());
        };
        let reply = endpoint.regulate(regulation)?;
        self.finish(name, link, reply)
    }
}
