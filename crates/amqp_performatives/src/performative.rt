//! The performatives (OASIS AMQP 1.0, part 2, section 2.7).
ghost use Rattle.std.specs.Prelude.{◌≡◌, OnOk};
ghost use Rattle.amqp_composites.specs.amqp_data.View.{view};
ghost use Rattle.amqp_composites.specs.amqp_fields.Fields.{Gives, Makes, MakesItems, trimmed};
ghost use Rattle.amqp_performatives.specs.Performative.{performative_in, kind_of_performative, performative_fields, of_performative, IsPerformativeValid};

use crate::attach::{Attach, attach_list, read_attach};
use crate::begin::{Begin, begin_list, read_begin};
use crate::close::{Close, close_list, read_close};
use crate::detach::{Detach, detach_list, read_detach};
use crate::disposition::{Disposition, disposition_list, read_disposition};
use crate::end::{End, end_list, read_end};
use crate::flow::{Flow, flow_list, read_flow};
use crate::open::{Open, open_list, read_open};
use crate::transfer::{Transfer, read_transfer, transfer_list};
use amqp_composites::amqp_data::{Value, ValueList};
use amqp_composites::amqp_fields::BaseError;
use amqp_composites::described::{list_value, read_list};
use amqp_composites::kind::CompositeKind;
use std::alloc::Global;

/// What a frame says.
#[derive(Debug, Drop)]
pub enum Performative {
    /// What an end says of itself as it opens a connection.
    Open(Open),
    /// The begin of a session.
    Begin(Begin),
    /// The attach of a link.
    Attach(Attach),
    /// The state of a session's windows and of a link's credit.
    Flow(Flow),
    /// A part of a delivery or all of it; its payload follows.
    Transfer(Transfer),
    /// What has become of deliveries.
    Disposition(Disposition),
    /// The detach of a link.
    Detach(Detach),
    /// The end of a session.
    End(End),
    /// The close of a connection.
    Close(Close),
}

impl Performative {
    /// The body that the value holds: `Decode` exactly where it holds none.
    pub fn from_value(alloc: Global, value: Value) -> Result<Self, BaseError>
        ensures { Gives result (performative_in (view value)) }
    {
        let (kind, fields) = read_list(value)?;
        match kind {
            CompositeKind::Open => Ok(Performative::Open(read_open(alloc, fields)?)),
            CompositeKind::Begin => Ok(Performative::Begin(read_begin(alloc, fields)?)),
            CompositeKind::Attach => Ok(Performative::Attach(read_attach(alloc, fields)?)),
            CompositeKind::Flow => Ok(Performative::Flow(read_flow(alloc, fields)?)),
            CompositeKind::Transfer => Ok(Performative::Transfer(read_transfer(alloc, fields)?)),
            CompositeKind::Disposition => Ok(Performative::Disposition(read_disposition(
                alloc, fields,
            )?)),
            CompositeKind::Detach => Ok(Performative::Detach(read_detach(alloc, fields)?)),
            CompositeKind::End => Ok(Performative::End(read_end(alloc, fields)?)),
            CompositeKind::Close => Ok(Performative::Close(read_close(alloc, fields)?)),
            _ => Err(BaseError::Decode),
        }
    }

    /// Which described list the body is.
    pub fn kind(&self) -> CompositeKind
        ensures { result ≡ kind_of_performative self.now }
    {
        match self {
            Performative::Open(_) => CompositeKind::Open,
            Performative::Begin(_) => CompositeKind::Begin,
            Performative::Attach(_) => CompositeKind::Attach,
            Performative::Flow(_) => CompositeKind::Flow,
            Performative::Transfer(_) => CompositeKind::Transfer,
            Performative::Disposition(_) => CompositeKind::Disposition,
            Performative::Detach(_) => CompositeKind::Detach,
            Performative::End(_) => CompositeKind::End,
            Performative::Close(_) => CompositeKind::Close,
        }
    }

    /// The fields of the body without the nulls at the end; the one error is want of memory.
    pub fn to_list(&self, alloc: Global) -> Result<ValueList, BaseError>
        ensures list { MakesItems (λ l. l) result (trimmed (performative_fields self.now)) }
        ensures valid { OnOk result (IsPerformativeValid self.now) }
    {
        match self {
            Performative::Open(body) => open_list(alloc, body),
            Performative::Begin(body) => begin_list(alloc, body),
            Performative::Attach(body) => attach_list(alloc, body),
            Performative::Flow(body) => flow_list(alloc, body),
            Performative::Transfer(body) => transfer_list(alloc, body),
            Performative::Disposition(body) => disposition_list(alloc, body),
            Performative::Detach(body) => detach_list(alloc, body),
            Performative::End(body) => end_list(alloc, body),
            Performative::Close(body) => close_list(alloc, body),
        }
    }

    /// The value that holds the body; the one error is want of memory.
    pub fn to_value(&self, alloc: Global) -> Result<Value, BaseError>
        ensures value { Makes view result (of_performative self.now) }
        ensures valid { OnOk result (IsPerformativeValid self.now) }
    {
        let fields = self.to_list(alloc)?;
        list_value(alloc, self.kind(), fields)
    }
}
