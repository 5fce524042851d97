//! Workers that accept deliveries from their own threads, in turns by tickets.
ghost use Rattle.std.specs.Prelude.{◌≡◌, ℕ, map, slice_get, Ok, Some, OnOk, IfOk};
ghost use Rattle.book_lock.specs.Seats.{Seat};
ghost use Rattle.amqp_disposers.specs.Tickets.{AcceptsOnce, AllTicketsServe, EachTicketServes, TicketServes};

use crate::gate::{Gate, wait_for};
use amqp_delivery::DeliveryInfo;
use book_lock::{TicketDesk, TicketError, TicketName, TicketSeat};
use std::alloc::{AllocError, Global};
use std::sync::Wait;
use std::thread;
use std::thread::Threads;

#[tactic(auto, using(crate::proofs::Turning::accepts_once, crate::proofs::Turning::keeps_same, crate::proofs::Turning::keeps_on))]
/// Accepts a delivery. Where the desk is full, it asks again; the one error is want of memory.
fn accept<L: TicketName, R: Wait>(
    rt: &R,
    desk: &TicketDesk<L>,
    seat: &mut TicketSeat<L>,
    info: &DeliveryInfo,
) -> Result<(), AllocError>
    requires { seat.old.table ≡ desk.now.table.shared.table_id }
    ensures { OnOk result (AcceptsOnce seat.old info.now seat.new) }
{
    for _ in rt.forever() {
        match seat.accept(rt, desk, info) {
            Ok(_) => return Ok(()),
            Err(TicketError::Memory(error)) => return Err(error),
            Err(TicketError::Full { ticket: _ }) => thread::yield_now(),
        }
    }
    unreachable!()
}

/// Accepts each delivery in turn.
fn work<L: TicketName, R: Wait, G: Gate>(
    rt: &R,
    gate: &G,
    desk: &TicketDesk<L>,
    mut seat: TicketSeat<L>,
    infos: &[DeliveryInfo],
    worker: u32,
) -> Result<TicketSeat<L>, AllocError>
    requires { seat.table ≡ desk.now.table.shared.table_id }
    ensures { IfOk result (λ s. TicketServes seat infos.now s) }
{
    for i in 0..infos.len() {
        wait_for(gate, worker, i as u64);
        accept(rt, desk, &mut seat, &infos[i])?;
    }
    Ok(seat)
}

/// What each seat gives back, each from a thread of its own where one can be started.
fn serve_each<L: TicketName + Send + Sync, R: Threads + Wait + Sync, G: Gate + Sync>(
    rt: &R,
    gate: &G,
    desk: &TicketDesk<L>,
    infos: &[DeliveryInfo],
    seats: Vec<TicketSeat<L>>,
) -> Result<Vec<Result<TicketSeat<L>, AllocError>>, AllocError>
    requires { (k : ℕ) (s : Seat) → slice_get seats.items k ≡ Some s → s.table ≡ desk.now.table.shared.table_id }
    ensures { IfOk result (λ v. EachTicketServes seats.items infos.now v.items) }
{
    let serve = |seat: TicketSeat<L>| -> Result<TicketSeat<L>, AllocError>
        requires { seat.table ≡ desk.now.table.shared.table_id }
        ensures { IfOk result (λ s. TicketServes seat infos.entry.now s) }
    {
        let worker = seat.number().wrapping_add(1);
        work(rt, gate, desk, seat, infos, worker)
    };
    thread::map_vec(rt, seats, &serve)
}

/// The seats that are given back, or the first error.
fn seats_of<L: TicketName>(
    alloc: Global,
    served: Vec<Result<TicketSeat<L>, AllocError>>,
) -> Result<Vec<TicketSeat<L>>, AllocError>
    ensures { IfOk result (λ v. served.items ≡ map Ok v.items) }
{
    let mut seats = Vec::new(alloc);
    for seat in served {
        match seat {
            Ok(seat) => seats.push(seat).map_err(AllocError::from)?,
            Err(error) => return Err(error),
        }
    }
    Ok(seats)
}

#[tactic(auto, using(crate::proofs::Turning::all_tickets_served))]
/// All seats accept all deliveries, each in a thread of its own where one can be started. The worker of a seat has a number
/// greater by one than the seat's.
pub fn run_all<L: TicketName + Send + Sync, R: Threads + Wait + Sync, G: Gate + Sync>(
    rt: &R,
    gate: &G,
    alloc: Global,
    desk: &TicketDesk<L>,
    infos: &[DeliveryInfo],
    seats: Vec<TicketSeat<L>>,
) -> Result<Vec<TicketSeat<L>>, AllocError>
    requires { (k : ℕ) (s : Seat) → slice_get seats.items k ≡ Some s → s.table ≡ desk.now.table.shared.table_id }
    ensures { IfOk result (λ v. AllTicketsServe seats.items infos.now v.items) }
{
    let served = serve_each(rt, gate, desk, infos, seats)?;
    seats_of(alloc, served)
}
