//! The run.
ghost use Rattle.std.specs.Prelude.{◌≡◌, ◌≢◌, ◌<◌, ◌≤◌, ◌⊎◌, min, true, IfOk, IfErr};
ghost use Rattle.amqp_wire.specs.Link.{Rose};
ghost use Rattle.list_laws.specs.Told.{Gains};
ghost use Rattle.amqp_streams.specs.Streams.{WritesFront};
ghost use Rattle.book_history.specs.Counts.{accept_count, settled_in};
ghost use Rattle.amqp_disposers.specs.Ending.{IsEndUnwritten, IsEndWritten, IsWantOfMemory};
ghost use Rattle.amqp_disposers.specs.Work.{Ran};
ghost use Rattle.amqp_disposers.specs.Counts.{IsCounted, IsCountText, WritesCounts, WritesSomeCounts};

use crate::counts::Counts;
use crate::deliveries::{book_of, deliveries};
use crate::ending::{Ending, ending_of};
use crate::gate::Gate;
use crate::tickets;
use crate::workers::run_all;
use amqp_delivery::{BookState, DeliveryInfo};
use amqp_streams::outside::{WriteError, write_all};
use amqp_threads::error::DeskError;
use amqp_threads::{Desk, DeskName, SeatList};
use amqp_wire::source::Sink;
use book_history::History;
use book_history::counts::{count_accepts, count_settled_in};
use book_lock::{TicketDesk, TicketName};
use std::alloc::{AllocError, Global};
use std::marker::Brand;
use std::sync::Wait;
use std::sync::ledger::Blank;
use std::thread::Threads;

/// So many workers accept all deliveries of the book.
fn run_at<L: DeskName + Send + Sync, R: Threads + Wait + Sync, G: Gate + Sync>(
    rt: &R,
    gate: &G,
    alloc: Global,
    blank: Blank,
    book: BookState,
    infos: &[DeliveryInfo],
    workers: usize,
) -> Result<(BookState, History), DeskError>
    requires name { blank.name ≡ L.name }
    requires parts { blank.parts ≡ L.parts }
    requires one_each { blank.parts ≡ workers }
    requires some { 0 < workers }
    requires few { workers ≤ 64 }
    requires book { book.book ≡ L.book }
    ensures { IfOk result (λ r. Ran book.book infos.now workers r.1.events r.0.book) }
{
    let (desk, seats) = Desk::<L>::new(alloc, blank, book, workers)?;
    let seats = run_all(rt, gate, alloc, &desk, infos, seats.into_vec())?;
    desk.close(alloc, SeatList::new(seats))
}

/// So many workers accept all deliveries of the book, at a desk of their own.
fn accept_all<R: Threads + Wait + Sync, G: Gate + Sync>(
    rt: &R,
    gate: &G,
    alloc: Global,
    book: BookState,
    infos: &[DeliveryInfo],
    workers: usize,
) -> Result<(BookState, History), DeskError>
    requires some { 0 < workers }
    requires few { workers ≤ 64 }
    ensures { IfOk result (λ r. Ran book.book infos.now workers r.1.events r.0.book) }
{
    let blank = Blank::new(workers as u64);
    run_at::<Brand, R, G>(rt, gate, alloc, blank, book, infos, workers)
}

/// How many calls a ticket desk allows: as many as there may be.
const CALLS: u64 = 4_294_967_296;

/// So many workers accept all deliveries of the book, in turns by tickets.
fn take_turns<L: TicketName + Send + Sync, R: Threads + Wait + Sync, G: Gate + Sync>(
    rt: &R,
    gate: &G,
    alloc: Global,
    book: BookState,
    infos: &[DeliveryInfo],
    workers: usize,
) -> Result<(BookState, History), AllocError>
    requires some { 0 < workers }
    requires few { workers ≤ 64 }
    requires book { book.book ≡ L.book }
    ensures { IfOk result (λ r. Ran book.book infos.now workers r.1.events r.0.book) }
{
    let Ok((desk, seats)) = TicketDesk::<L>::new(alloc, book, workers, CALLS) else {
        return Err(AllocError);
    };
    let seats = tickets::run_all(rt, gate, alloc, &desk, infos, seats)?;
    Ok(desk.close(seats))
}

/// So many workers accept all deliveries of the book, by turns at a ticket desk of their own.
fn accept_by_ticket<R: Threads + Wait + Sync, G: Gate + Sync>(
    rt: &R,
    gate: &G,
    alloc: Global,
    book: BookState,
    infos: &[DeliveryInfo],
    workers: usize,
) -> Result<(BookState, History), DeskError>
    requires some { 0 < workers }
    requires few { workers ≤ 64 }
    ensures ran { IfOk result (λ r. Ran book.book infos.now workers r.1.events r.0.book) }
    ensures never { IfErr result IsWantOfMemory }
{
    match take_turns::<Brand, R, G>(rt, gate, alloc, book, infos, workers) {
        Ok(left) => Ok(left),
        Err(error) => Err(DeskError::Memory(error)),
    }
}

/// So many workers accept all deliveries of the book, by tickets or under one lock.
fn accept<R: Threads + Wait + Sync, G: Gate + Sync>(
    rt: &R,
    gate: &G,
    alloc: Global,
    book: BookState,
    infos: &[DeliveryInfo],
    workers: usize,
    ticket: bool,
) -> Result<(BookState, History), DeskError>
    requires some { 0 < workers }
    requires few { workers ≤ 64 }
    ensures ran { IfOk result (λ r. Ran book.book infos.now workers r.1.events r.0.book) }
    ensures never { ticket ≡ true → IfErr result IsWantOfMemory }
{
    if ticket {
        accept_by_ticket(rt, gate, alloc, book, infos, workers)
    } else {
        accept_all(rt, gate, alloc, book, infos, workers)
    }
}

/// What the history and the book that it leaves count.
fn counts_in(history: &History, left: &BookState) -> Counts
    ensures calls { result.calls ≡ accept_count history.now.events }
    ensures settled { result.settled ≡ min (settled_in history.now.events left.now.book) 18446744073709551615 }
{
    Counts {
        calls: count_accepts(history.entries()) as u64,
        settled: count_settled_in(history, left),
    }
}

#[tactic(auto, using(crate::proofs::Counted::is_counted))]
/// What so many workers count that accept so many deliveries.
fn count_run<R: Threads + Wait + Sync, G: Gate + Sync>(
    rt: &R,
    gate: &G,
    alloc: Global,
    count: u32,
    workers: u32,
    ticket: bool,
) -> Result<Counts, DeskError>
    requires some { 0 < workers }
    requires few { workers ≤ 64 }
    ensures counted { IfOk result (λ c. IsCounted count workers c.calls c.settled) }
    ensures never { ticket ≡ true → IfErr result IsWantOfMemory }
{
    let infos = deliveries(alloc, count)?;
    let book = book_of(alloc, infos.as_slice())?;
    let (left, history) = accept(
        rt,
        gate,
        alloc,
        book,
        infos.as_slice(),
        workers as usize,
        ticket,
    )?;
    Ok(counts_in(&history, &left))
}

/// The lines of a run, or how it ends that has none.
fn text_of_run<R: Threads + Wait + Sync, G: Gate + Sync>(
    rt: &R,
    gate: &G,
    alloc: Global,
    count: u32,
    workers: u32,
    ticket: bool,
) -> Result<Vec<u8>, Ending>
    requires some { 0 < workers }
    requires few { workers ≤ 64 }
    ensures never { ticket ≡ true → IfErr result (λ e. e ≡ Ending.Memory) }
    ensures lines { IfOk result (λ t. IsCountText count workers t.items) }
    ensures ends { IfErr result IsEndUnwritten }
{
    let counts = match count_run(rt, gate, alloc, count, workers, ticket) {
        Ok(counts) => counts,
        Err(error) => return Err(ending_of(error)),
    };
    match counts.text(alloc) {
        Ok(text) => Ok(text),
        Err(_) => Err(Ending::Memory),
    }
}

/// Registers so many deliveries, lets so many workers accept all of them at one desk, and writes `calls N`, the calls that
/// accept a delivery, and `settled N`, the settled Dispositions, a line each.
///
/// Each worker is a thread of its own where one can be started, and the gate holds it before each of its calls. With `ticket`
/// the workers take their turns by tickets, else they share the book under one lock. Both numbers are read off one history,
/// which leads from the book with the deliveries to the book that is left. It is not promised that a thread runs, that a call
/// returns, or which worker comes first.
pub fn run_disposers<R: Threads + Wait + Sync, G: Gate + Sync, K: Sink>(
    rt: &R,
    gate: &G,
    alloc: Global,
    count: u32,
    workers: u32,
    sink: &mut K,
    ticket: bool,
) -> Ending
    requires most { count ≤ 10000 }
    requires some { 0 < workers }
    requires few { workers ≤ 64 }
    ensures done { result ≡ Ending.Done → WritesCounts count workers (K.written sink.old) (K.written sink.new) }
    ensures memory { result ≡ Ending.Memory → (K.written sink.new ≡ K.written sink.old) ⊎
        WritesSomeCounts count workers (K.written sink.old) (K.written sink.new) }
    ensures write_fault { result ≡ Ending.WriteFault → Rose (K.faults sink.old) (K.faults sink.new) }
    ensures write_front { result ≡ Ending.WriteFault →
        WritesSomeCounts count workers (K.written sink.old) (K.written sink.new) }
    ensures never { ticket ≡ true → result ≢ Ending.Differs }
    ensures unwritten { result ≡ Ending.Differs → K.written sink.new ≡ K.written sink.old }
    ensures later { K.faults sink.old ≤ K.faults sink.new }
{
    match text_of_run(rt, gate, alloc, count, workers, ticket) {
        Ok(text) => write_lines(sink, text.as_slice()),
        Err(ending) => ending,
    }
}

/// Writes the lines; how a run ends that has come so far.
fn write_lines<K: Sink>(sink: &mut K, text: &[u8]) -> Ending
    ensures done { result ≡ Ending.Done → Gains (K.written sink.old) (K.written sink.new) text.now }
    ensures ends { IsEndWritten result }
    ensures front { WritesFront text.now (K.written sink.old) (K.written sink.new) }
    ensures write_fault { result ≡ Ending.WriteFault → Rose (K.faults sink.old) (K.faults sink.new) }
    ensures later { K.faults sink.old ≤ K.faults sink.new }
{
    match write_all(sink, text) {
        Ok(()) => Ending::Done,
        Err(WriteError::Failed) => Ending::WriteFault,
        Err(WriteError::Memory) => Ending::Memory,
    }
}
