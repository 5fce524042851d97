//! What follows of the contracts.
ghost use Rattle.std.specs.Prelude.{ℕ, List, ◌↔◌};
ghost use Rattle.amqp_performatives.specs.declared.transfer.Transfer.{Transfer};
ghost use Rattle.amqp_parts.specs.declared.part.Part.{Part};
ghost use Rattle.amqp_parts.specs.Split.{IsSplit};
ghost use Rattle.amqp_parts.specs.Cut.{cut_of, GoesOn};

/// A delivery is split into its first part and the parts of what is left, and into no others; and each delivery is split so.
#[tactic(auto, using(crate::proofs::Cutting::splits_by, crate::proofs::Cutting::has_parts))]
pub fn splits_by_first_part()
    ensures each { (frame : ℕ) (x : Transfer) (payload : List ℕ) → (parts : List Part) × IsSplit frame x payload parts }
    ensures parts { (frame : ℕ) (x : Transfer) (payload : List ℕ) (parts : List Part) → IsSplit frame x payload parts ↔ GoesOn frame (cut_of frame x payload).first (cut_of frame x payload).rest parts }
{}
