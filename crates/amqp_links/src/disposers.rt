//! Disposers (OASIS AMQP 1.0, part 2, section 2.6.12).
ghost use Rattle.std.specs.Prelude.{◌≡◌, nat_eq, OnOk};
ghost use Rattle.std.specs.Map.{lookup};
ghost use Rattle.amqp_links.specs.Disposers.{disposer_kept, disposer_made, disposing_with, disposing_by};
ghost use Rattle.amqp_links.specs.State.{seen, link_of};

use crate::links::{KeptDisposer, Links};
use amqp_delivery::{DeliveryInfo, DisposerView};
use amqp_link_calls::amqp_link_words::{Disposal, LinkReply};
use std::alloc::AllocError;

impl Links {
    fn keep_disposer(
        &mut self,
        view: Option<DisposerView>,
        name: u64,
        link: u64,
    ) -> Result<(), AllocError>
        ensures { OnOk result (seen self.new ≡ disposer_kept view name link (seen self.old)) }
    {
        match view {
            Some(view) => {
                self.disposers.insert(name, KeptDisposer { link, view })?;
                self.answer(name, LinkReply::Disposer)
            }
            None => Ok(()),
        }
    }

    /// Makes a disposer that keeps how the link stands. The one error is want of memory.
    pub(crate) fn make_disposer(&mut self, name: u64, link: u64) -> Result<(), AllocError>
        ensures { OnOk result (seen self.new ≡ disposer_made (link_of link (seen self.old)) name link (seen self.old)) }
    {
        let Some(endpoint) = self.endpoints.get(&link) else {
            return Ok(());
        };
        let view = endpoint.view();
        self.keep_disposer(view, name, link)
    }

    fn dispose_with(
        &mut self,
        name: u64,
        disposer: KeptDisposer,
        disposal: Disposal,
        infos: &[DeliveryInfo],
    ) -> Result<(), AllocError>
        ensures { OnOk result (seen self.new ≡ disposing_with (link_of disposer.link (seen self.old)) name disposer disposal infos.now (seen self.old)) }
    {
        let Some(endpoint) = self.endpoints.get_mut(&disposer.link) else {
            drop(disposal);
            return Ok(());
        };
        let reply = endpoint.dispose_by(&disposer.view, disposal, infos)?;
        self.leave_disposed(disposer.link, infos, &reply);
        self.finish(name, disposer.link, reply)
    }

    /// Gives a delivery a state in which it ends, by a disposer. The one error is want of memory.
    pub(crate) fn dispose_by(
        &mut self,
        name: u64,
        disposer: u64,
        disposal: Disposal,
        delivery: u64,
    ) -> Result<(), AllocError>
        ensures { OnOk result (seen self.new ≡
            disposing_by (lookup (nat_eq disposer) (seen self.old).disposers) name disposal delivery (seen self.old)) }
    {
        let deliveries = [delivery];
        let infos = self.infos_of(&deliveries)?;
        match self.disposers.get(&disposer).copied() {
            Some(kept) => self.dispose_with(name, kept, disposal, &infos),
            None => {
                drop(disposal);
                Ok(())
            }
        }
    }
}
