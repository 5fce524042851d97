//! What follows of the contracts, over the whole life of a session's links.
ghost use Rattle.std.specs.Prelude.{◌≡◌, ℕ, ◌<◌, ◌^◌, nat_eq, true, false, List, [], Some, None, Ok};
ghost use Rattle.amqp_composites.specs.declared.modes.Role.{Role};
ghost use Rattle.amqp_link_tables.specs.declared.deliveries.Delivered.{Delivered};
ghost use Rattle.amqp_link_tables.specs.Calls.{link_at, allocation, allocated, attached, released, joined, parted, spending, is_spent};
ghost use Rattle.amqp_link_tables.specs.Deliveries.{entered, forgotten, covered, AreApart, AreInOrder, IsCover};
ghost use Rattle.amqp_link_tables.specs.Laws.{IsApart, IsRight};
ghost use Rattle.amqp_link_tables.specs.State.{State, no_links};

/// A call for a handle is answered by the lowest one that is free and not above the highest; by `HandleMaxReached` only where none of
/// them is free; by `DuplicatedLinkName` exactly where a link has that name in that role.
#[tactic(auto, using(crate::proofs::Allocation::right))]
pub fn answers_are_right()
    ensures { (name : List ℕ) (role : Role) (max : ℕ) (s : State) → IsRight (allocation name role max s) name role max s }
{}

/// At every moment no handle of this end and no number of a delivery stands twice, and the deliveries stand in the order of their numbers.
#[tactic(auto, using(crate::proofs::Apart::apart_none, crate::proofs::Apart::apart_allocated, crate::proofs::Apart::apart_released, crate::proofs::Numbers::none_in_order, crate::proofs::Numbers::entered_in_order, crate::proofs::Numbers::forgotten_in_order, crate::proofs::Numbers::in_order_apart))]
pub fn nothing_stands_twice()
    ensures none { IsApart no_links }
    ensures allocated { (name : List ℕ) (role : Role) (max link : ℕ) (s : State) → IsApart s → IsApart (allocated (allocation name role max s) name role link s) }
    ensures released { (handle : ℕ) (s : State) → IsApart s → IsApart (released handle s) }
    ensures joined { (remote link : ℕ) (s : State) → IsApart s → IsApart (joined remote link s) }
    ensures parted { (remote : ℕ) (s : State) → IsApart s → IsApart (parted remote s) }
    ensures spending { (name : List ℕ) (s : State) → IsApart s → IsApart (spending name s) }
    ensures unnumbered { AreInOrder [] }
    ensures entered { (id : ℕ) (d : Delivered) (ds : List (ℕ × Delivered)) → AreInOrder ds → AreInOrder (entered id d ds) }
    ensures forgotten { (id : ℕ) (ds : List (ℕ × Delivered)) → AreInOrder ds → AreInOrder (forgotten id ds) }
    ensures numbered { (ds : List (ℕ × Delivered)) → AreInOrder ds → AreApart ds }
{}

/// Two links never have one handle: one that a call gets had no link, and each other handle keeps its own.
#[tactic(auto, using(crate::proofs::Apart::had_none, crate::proofs::Apart::has_it, crate::proofs::Apart::others_attached))]
pub fn no_handle_has_two_links()
    ensures before { (name : List ℕ) (role : Role) (max handle : ℕ) (s : State) → allocation name role max s ≡ Ok handle → link_at handle s ≡ None }
    ensures behind { (name : List ℕ) (role : Role) (handle link : ℕ) (s : State) → link_at handle (attached handle name role link s) ≡ Some link }
    ensures others { (name : List ℕ) (role : Role) (handle other link : ℕ) (s : State) → nat_eq handle other ≡ false → link_at other (attached handle name role link s) ≡ link_at other s }
{}

/// A handle that was released is free again, and each other handle keeps its link.
#[tactic(auto, using(crate::proofs::Apart::free_again, crate::proofs::Apart::others_released))]
pub fn released_is_free()
    ensures free { (handle : ℕ) (s : State) → IsApart s → link_at handle (released handle s) ≡ None }
    ensures others { (handle other : ℕ) (s : State) → IsApart s → nat_eq handle other ≡ false → link_at other (released handle s) ≡ link_at other s }
{}

/// A name that is spent stays so.
#[tactic(auto, using(crate::proofs::Allocation::spent_now, crate::proofs::Allocation::spent_still, crate::proofs::Allocation::spent_allocated, crate::proofs::Allocation::spent_released))]
pub fn spent_is_spent()
    ensures now { (name : List ℕ) (s : State) → is_spent name (spending name s) ≡ true }
    ensures spending { (name other : List ℕ) (s : State) → is_spent name s ≡ true → is_spent name (spending other s) ≡ true }
    ensures allocated { (name : List ℕ) (role : Role) (max link : ℕ) (s : State) → (allocated (allocation name role max s) name role link s).spent ≡ s.spent }
    ensures released { (handle : ℕ) (s : State) → (released handle s).spent ≡ s.spent }
{}

/// Of the numbers from the first to the last, modulo 2 ^ 32, those that have a delivery are covered, each once, and no others.
#[tactic(auto, using(crate::proofs::Covered::covers))]
pub fn covers_each_once()
    ensures { (first last : ℕ) (ds : List (ℕ × Delivered)) → first < 2 ^ 32 → last < 2 ^ 32 → AreApart ds → IsCover first last ds (covered first last ds) }
{}
