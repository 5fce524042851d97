//! What is refused once the book was taken, and what the book has ordered.
ghost use Rattle.std.specs.Prelude.{◌≡◌, ◌∷◌, [], if◌then◌else◌};
ghost use Rattle.amqp_delivery.specs.States.{accepted};
ghost use Rattle.amqp_termini.specs.TerminalState.{state_of_terminal};
ghost use Rattle.amqp_receiver.specs.Disposing.{disposed, disposed_by};
ghost use Rattle.amqp_receiver.specs.Receiver.{credit_set};
ghost use Rattle.amqp_receiver.specs.Regulating.{drain_asked, properties_told};
ghost use Rattle.amqp_receiver.specs.Sharing.{orders_written};
ghost use Rattle.amqp_shared_receiver.specs.Shared.{seen, Does, Works};

use crate::shared::SharedReceiver;
use amqp_delivery::{DeliveryInfo, DisposerView, OrderList};
use amqp_link::{DispositionError, FlowError};
use amqp_termini::{DeliveryState, TerminalDeliveryState};

impl SharedReceiver {
    /// Gives deliveries a state by the view that a disposer keeps, as `Receiver::dispose_by` does. `IllegalState` comes where the book was
    /// taken.
    pub fn dispose_by(
        &mut self,
        view: &DisposerView,
        infos: &[DeliveryInfo],
        state: DeliveryState,
    ) -> Result<(), DispositionError>
        ensures { Does result (disposed_by view.now infos.now state (seen self.old).receiver) (seen self.old) (seen self.new) }
    {
        if self.is_taken {
            return Err(DispositionError::IllegalState);
        }
        self.receiver.dispose_by(view, infos, state)
    }

    /// Gives deliveries a state in which they end, with the same refusals as `dispose_by`.
    pub fn dispose_all(
        &mut self,
        infos: &[DeliveryInfo],
        state: TerminalDeliveryState,
    ) -> Result<(), DispositionError>
        ensures { Does result (disposed infos.now (state_of_terminal state) (seen self.old).receiver) (seen self.old) (seen self.new) }
    {
        if self.is_taken {
            return Err(DispositionError::IllegalState);
        }
        self.receiver.dispose_all(infos, state)
    }

    /// Gives a delivery a state in which it ends, with the same refusals as `dispose_by`.
    pub fn dispose(
        &mut self,
        info: &DeliveryInfo,
        state: TerminalDeliveryState,
    ) -> Result<(), DispositionError>
        ensures { Does result (disposed (info.now ∷ []) (state_of_terminal state) (seen self.old).receiver) (seen self.old) (seen self.new) }
    {
        if self.is_taken {
            return Err(DispositionError::IllegalState);
        }
        self.receiver.dispose(info, state)
    }

    /// Accepts a delivery, with the same refusals as `dispose_by`.
    pub fn accept_delivery(&mut self, info: &DeliveryInfo) -> Result<(), DispositionError>
        ensures { Does result (disposed (info.now ∷ []) accepted (seen self.old).receiver) (seen self.old) (seen self.new) }
    {
        if self.is_taken {
            return Err(DispositionError::IllegalState);
        }
        self.receiver.accept_delivery(info)
    }

    /// Gives the sender credit, as `Receiver::set_credit` does. `IllegalState` comes where the book was taken.
    pub fn set_credit(&mut self, credit: u32) -> Result<(), FlowError>
        ensures { Does result (credit_set credit (seen self.old).receiver) (seen self.old) (seen self.new) }
    {
        if self.is_taken {
            return Err(FlowError::IllegalState);
        }
        self.receiver.set_credit(credit)
    }

    /// Asks the sender to use up its credit, as `Receiver::drain` does. `IllegalState` comes where the book was taken.
    pub fn drain(&mut self) -> Result<(), FlowError>
        ensures { Does result (drain_asked (seen self.old).receiver) (seen self.old) (seen self.new) }
    {
        if self.is_taken {
            return Err(FlowError::IllegalState);
        }
        self.receiver.drain()
    }

    /// Tells the sender how the link stands, as `Receiver::send_properties` does. `IllegalState` comes where the book was taken.
    pub fn send_properties(&mut self) -> Result<(), FlowError>
        ensures { Does result (properties_told (seen self.old).receiver) (seen self.old) (seen self.new) }
    {
        if self.is_taken {
            return Err(FlowError::IllegalState);
        }
        self.receiver.send_properties()
    }

    /// How many deliveries the sender may still send: 0 where the book was taken.
    pub fn credit(&self) -> u32
        ensures { result ≡ (if (seen self.now).is_taken then 0 else (seen self.now).receiver.book.credit) }
    {
        if self.is_taken {
            return 0;
        }
        self.receiver.credit()
    }

    /// Writes the orders of a book that was taken, in order, as `Receiver::write_orders` does: also those of a book of another receiver, of
    /// whose deliveries the peer knows nothing on this link.
    pub fn write_orders(&mut self, orders: OrderList) -> Result<(), FlowError>
        ensures { Works result (orders_written orders.list (seen self.old).receiver) (seen self.old) (seen self.new) }
    {
        self.receiver.write_orders(orders)
    }
}
