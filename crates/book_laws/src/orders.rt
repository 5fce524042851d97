//! What a book orders over its life.
ghost use Rattle.book_laws.specs.Laws.{OrdersGroup, HistoriesGroup};

#[tactic(auto, using(crate::proofs::Lives::orders_group))]
/// Whatever calls are made of a book, its orders group as the calls do. What the takings of orders hand out, and what is
/// left, is what the book had at first, and then the orders of each call, in the order of the calls. A disposal orders a
/// Disposition for each run of consecutive numbers and one mode among the deliveries that it found unsettled, in order,
/// each delivery once, in as few runs as can be, and then a Flow where credit is due and the disposer's attachment is
/// current; no other call orders anything.
pub fn orders_group_as_calls()
    ensures { OrdersGroup }
{}

#[tactic(auto, using(crate::proofs::Lives::histories_group))]
/// The same of a history, in which the replies say what the takings of orders handed out.
pub fn histories_group_as_calls()
    ensures { HistoriesGroup }
{}
