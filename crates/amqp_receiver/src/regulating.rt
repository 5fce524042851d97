//! What a receiver does by itself, and what it asks of its sender beside that it gives credit (OASIS AMQP 1.0, part 2, section 2.6.7).
ghost use Rattle.std.specs.Prelude.{◌≡◌, ◌<◌};
ghost use Rattle.amqp_link.specs.Link as link;
ghost use Rattle.amqp_receiver.specs.Receiver.{seen, Answers};
ghost use Rattle.amqp_receiver.specs.Regulating.{credit_mode_set, auto_accept_set, asking_to_drain, drain_asked, properties_told};

use crate::receiver::Receiver;
use amqp_delivery::CreditMode;
use amqp_link::FlowError;

impl Receiver {
    /// When credit is given.
    pub fn credit_mode(&self) -> CreditMode
        ensures { result ≡ (seen self.now).book.credit_mode }
    {
        self.book.view(0).credit_mode
    }

    /// Sets when credit is given from now on, and writes nothing.
    pub fn set_credit_mode(&mut self, mode: CreditMode)
        ensures { seen self.new ≡ credit_mode_set mode (seen self.old) }
    {
        self.book.set_mode(mode);
    }

    /// Whether each delivery is accepted as it is given.
    pub fn auto_accept(&self) -> bool
        ensures { result ≡ (seen self.now).auto_accept }
    {
        self.auto_accept
    }

    /// Sets whether each delivery is accepted as it is given.
    pub fn set_auto_accept(&mut self, value: bool)
        ensures { seen self.new ≡ auto_accept_set value (seen self.old) }
    {
        self.auto_accept = value;
    }

    /// Asks the sender to use up its credit, once until it is given more.
    fn ask_to_drain(&mut self)
        requires { 0 < link.spare self.old.link }
        ensures { seen self.new ≡ asking_to_drain (seen self.old) }
    {
        if !self.is_draining {
            self.is_draining = true;
            self.tell_credit(true);
        }
    }

    /// Asks the sender to send what its credit allows at once and to give up the rest: a Flow is to be written, but nothing where it was
    /// asked before and was given no credit since. What was disposed of is counted anew in either case. `IllegalState` comes where the
    /// link is not attached, then `SessionStopped` where the session has stopped.
    pub fn drain(&mut self) -> Result<(), FlowError>
        ensures { Answers result (drain_asked (seen self.old)) (seen self.new) }
    {
        if let Some(error) = self.link.disposal_refusal()? {
            return Err(error);
        }
        self.link.make_room(1)?;
        self.book.restart();
        self.ask_to_drain();
        Ok(())
    }

    /// Tells the sender how the link stands: a Flow with its delivery-count and its credit is to be written. The refusals are those of
    /// `drain`.
    pub fn send_properties(&mut self) -> Result<(), FlowError>
        ensures { Answers result (properties_told (seen self.old)) (seen self.new) }
    {
        if let Some(error) = self.link.disposal_refusal()? {
            return Err(error);
        }
        self.link.make_room(1)?;
        self.tell_credit(false);
        Ok(())
    }
}
