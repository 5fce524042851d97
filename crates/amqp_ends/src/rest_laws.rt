//! Laws over two ends between which nothing is in flight (OASIS AMQP 1.0, part 2, sections 2.2 and 2.4).
ghost use Rattle.std.specs.Prelude.{◌⊎◌, ℕ, List};
ghost use Rattle.amqp_peer.specs.History.{Local, made_in};
ghost use Rattle.amqp_peer.specs.Layers.{layer_in, HasLayer, IsResting};
ghost use Rattle.amqp_peer.specs.Rest.{OpenWaits, CloseWaits, RestsBehind};
ghost use Rattle.amqp_ends.specs.Quiet.{IsFew, IsQuiet};
ghost use Rattle.amqp_ends.specs.Wants.{AreStill, Wants};

/// An end does not wait in the exchange of headers for another that waits there or behind the headers (part 2, section 2.2; part 5,
/// section 5.3.2).
pub fn headers_do_not_wait()
    ensures { (h far : List Local) → IsQuiet h far → IsResting (layer_in (made_in h)) h
        → IsResting (layer_in (made_in far)) far ⊎ RestsBehind far → ⊥ }
{}

/// An open or accept does not wait for the Open of another end that waits (part 2, section 2.4.1).
pub fn openings_do_not_wait()
    ensures { (h far : List Local) → IsQuiet h far → RestsBehind h → OpenWaits h
        → RestsBehind far ⊎ IsResting (layer_in (made_in far)) far → ⊥ }
{}

/// A close does not wait for the Close of another end that waits (part 2, section 2.4.3).
pub fn closes_do_not_wait()
    ensures { (h far : List Local) → IsQuiet h far → RestsBehind h → CloseWaits h
        → RestsBehind far ⊎ IsResting (layer_in (made_in far)) far → ⊥ }
{}

/// Where each end has done what it can, an open or accept waits for the call of the other end alone, and a close for nothing, unless
/// the connection has failed or is at its end (part 2, sections 2.4.1 and 2.4.3). `left` is what a link still holds for its end.
pub fn calls_wait_for_the_other()
    ensures { (h far : List Local) (left far_left : List ℕ) → AreStill h far left far_left → Wants h far }
{}

/// An end writes at most three frames of a SASL layer (part 5, section 5.3.2).
pub fn few_frames()
    ensures { (h : List Local) → HasLayer (layer_in (made_in h)) h → IsFew h }
{}
