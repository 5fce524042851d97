//! What a history says of one delivery.
ghost use Rattle.book_history.specs.Once.{IsSettledOnce};

#[tactic(auto, using(crate::proofs::Once::settled_once))]
/// A delivery that a history registers once, and disposes of later in mode First, has exactly one settled Disposition
/// among the orders that the steps of the history make. No other call of the history is of a delivery with its tag or
/// its number, and the book that the history begins with has none with its tag.
pub fn a_delivery_is_settled_once()
    ensures { IsSettledOnce }
{}
