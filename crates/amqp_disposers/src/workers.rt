//! Workers that accept deliveries from their own threads.
ghost use Rattle.std.specs.Prelude.{◌≡◌, map, Ok, IfOk};
ghost use Rattle.amqp_disposers.specs.Work.{Serves, EachServes, AllServe};

use crate::gate::{Gate, wait_for};
use amqp_delivery::DeliveryInfo;
use amqp_threads::error::DeskError;
use amqp_threads::{Desk, DeskName, DeskSeat};
use std::alloc::{AllocError, Global};
use std::sync::Wait;
use std::thread;
use std::thread::Threads;

/// Accepts each delivery in turn.
fn work<L: DeskName, R: Wait, G: Gate>(
    rt: &R,
    gate: &G,
    desk: &Desk<L>,
    mut seat: DeskSeat<L>,
    infos: &[DeliveryInfo],
    worker: u32,
) -> Result<DeskSeat<L>, DeskError>
    ensures { IfOk result (λ s. Serves seat infos.now s) }
{
    for i in 0..infos.len() {
        wait_for(gate, worker, i as u64);
        seat.accept(rt, desk, &infos[i])?;
    }
    Ok(seat)
}

/// What each seat gives back, each from a thread of its own where one can be started.
fn serve_each<L: DeskName + Send + Sync, R: Threads + Wait + Sync, G: Gate + Sync>(
    rt: &R,
    gate: &G,
    desk: &Desk<L>,
    infos: &[DeliveryInfo],
    seats: Vec<DeskSeat<L>>,
) -> Result<Vec<Result<DeskSeat<L>, DeskError>>, AllocError>
    ensures { IfOk result (λ v. EachServes seats.items infos.now v.items) }
{
    let serve = |seat: DeskSeat<L>| -> Result<DeskSeat<L>, DeskError>
        ensures { IfOk result (λ s. Serves seat infos.entry.now s) }
    {
        let worker = seat.number().wrapping_add(1);
        work(rt, gate, desk, seat, infos, worker)
    };
    thread::map_vec(rt, seats, &serve)
}

/// The seats that are given back, or the first error.
fn seats_of<L: DeskName>(
    alloc: Global,
    served: Vec<Result<DeskSeat<L>, DeskError>>,
) -> Result<Vec<DeskSeat<L>>, DeskError>
    ensures { IfOk result (λ v. served.items ≡ map Ok v.items) }
{
    let mut seats = Vec::new(alloc);
    for seat in served {
        match seat {
            Ok(seat) => seats.push(seat).map_err(AllocError::from)?,
            Err(error) => return Err(error),
        }
    }
    Ok(seats)
}

#[tactic(auto, using(crate::proofs::Working::all_served))]
/// All seats accept all deliveries, each in a thread of its own where one can be started. The worker of a seat has a number
/// greater by one than the seat's.
pub fn run_all<L: DeskName + Send + Sync, R: Threads + Wait + Sync, G: Gate + Sync>(
    rt: &R,
    gate: &G,
    alloc: Global,
    desk: &Desk<L>,
    infos: &[DeliveryInfo],
    seats: Vec<DeskSeat<L>>,
) -> Result<Vec<DeskSeat<L>>, DeskError>
    ensures { IfOk result (λ v. AllServe seats.items infos.now v.items) }
{
    let served = serve_each(rt, gate, desk, infos, seats)?;
    seats_of(alloc, served)
}
