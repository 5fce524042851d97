//! What an end keeps of messages and deliveries by the names of calls, given up (OASIS AMQP 1.0, part 2, section 2.6.12).
ghost use Rattle.std.specs.Prelude.{◌≡◌};
ghost use Rattle.amqp_links.specs.Forgetting.{forgotten};
ghost use Rattle.amqp_links.specs.State.{seen};

use crate::links::Links;

impl Links {
    /// Forgets which message the call of that name has sent, or which delivery it was given: no later call may name it. The link itself goes
    /// on as it would, and a call that waits for the outcome waits on. Takes no memory, and does nothing for another name.
    pub fn forget(&mut self, name: u64)
        ensures { seen self.new ≡ forgotten name (seen self.old) }
    {
        self.sends.swap_remove(&name);
        drop(self.deliveries.swap_remove(&name));
    }
}
