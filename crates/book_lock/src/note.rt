//! Notes between seats.
ghost use Rattle.std.specs.Prelude.{◌≡◌, []};
ghost use Rattle.book_lock.specs.Calls.{Idle};

use crate::steps::Place;
use crate::ticket_book::TicketName;
use std::marker::Model;

/// What a seat had seen of the history, for another seat to take in. It makes no calls.
#[derive(Drop)]
pub struct TicketNote<L: TicketName> {
    pub(crate) place: Place<L>,
}

impl<L: TicketName> Model for TicketNote<L> {
    ghost use Rattle.std.specs.Prelude.{◌≡◌, []};
    ghost use Rattle.book_lock.specs.Calls.{Idle};
    ghost use Rattle.book_lock.specs.Seats.{Note};

    ghost Value = { Note };

    ghost use Rattle.std.specs.Coded.{codes};
    ghost use Rattle.amqp_fields.specs.contracts.map.FieldMap as map;

    ghost coded = { Prim.hlevel (codes, map.the_row.coded) };

    ghost view = { λ a. record { front = a.place.me.0.front; table = a.place.table_id } };

    ghost invariant = { λ a. Idle a.place.me × (a.place.me.0.numbers ≡ []) };
}

impl<L: TicketName> TicketNote<L> {
    pub(crate) fn new(place: Place<L>) -> Self
        requires idle { Idle place.me }
        requires numbers { place.me.0.numbers ≡ [] }
        ensures { result ≡ record { front = place.me.0.front; table = place.table_id } }
    {
        TicketNote { place }
    }

    /// The note's place at the lock.
    pub(crate) fn into_place(self) -> Place<L>
        ensures idle { Idle result.me }
        ensures numbers { result.me.0.numbers ≡ [] }
        ensures front { result.me.0.front ≡ self.front }
        ensures table { result.table_id ≡ self.table }
    {
        let TicketNote { place } = self;
        place
    }
}
