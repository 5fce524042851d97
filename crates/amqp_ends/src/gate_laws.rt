//! Laws over the negotiation of an end that faces another (OASIS AMQP 1.0, part 5, section 5.3).
ghost use Rattle.std.specs.Prelude.{◌≡◌, ◌⊎◌, ◌≤◌, ℕ, List, [], ◌∷◌, ◌++◌, length, Option};
ghost use Rattle.sasl_exchange.specs.declared.error.NegotiationError.{NegotiationError};
ghost use Rattle.amqp_opening.specs.declared.authentication.SaslCall.{SaslCall};
ghost use Rattle.amqp_peer.specs.amqp_words.declared.call.Call.{Call};
ghost use Rattle.amqp_peer.specs.Causes.{AllCaused, OpenCauseIn};
ghost use Rattle.amqp_peer.specs.History.{Local, Made, Polled, made_in, link_in, replied_in, read_in, wrote_in, IsInside};
ghost use Rattle.amqp_peer.specs.Layers.{layer_in};
ghost use Rattle.amqp_ends.specs.Gates.{Agree, AllFair, Faces, IsFairNegotiation};
ghost use Rattle.amqp_ends.specs.Joined.{IsCalm};
ghost use Rattle.amqp_ends.specs.Passes.{AreAgreed, AreCompared, FacedWhenTold, IsThrough, IsThroughOrRefused};

/// Over a link that does not fail, the negotiation of an end that faces another fails only where one of them has a SASL layer and the
/// other has none, where their mechanisms, users or passwords differ, or for a user, a password or a body of its own.
pub fn negotiations_are_fair()
    ensures { (g far : List Local) → IsCalm (link_in g) → Faces g far
        → (e : NegotiationError) → OpenCauseIn (made_in g) e (link_in g)
        → IsFairNegotiation (layer_in (made_in g)) (layer_in (made_in far)) e }
{}

/// The same of what an end replied at one step, of whose bytes the other end has read none yet.
pub fn replies_are_fair()
    ensures { (inside before far : List Local) → IsInside inside → IsCalm (link_in (inside ++ before)) → Faces (inside ++ before) far
        → (left : List ℕ) → read_in far ++ left ≡ wrote_in before → AllCaused (inside ++ before)
        → AllFair (layer_in (made_in before)) (layer_in (made_in far)) (replied_in inside) }
{}

/// Two ends whose layers agree have no cause to fail: no error of a negotiation is fair between them.
pub fn equal_ends_are_not_refused()
    ensures { (near far : Option SaslCall) → Agree near far → (e : NegotiationError) → IsFairNegotiation near far e → ⊥ }
{}

/// Where both were called and each has done what it can, the check of each holds, and both have written their AMQP header. `left` is
/// what a link still holds for its end.
pub fn equal_ends_pass()
    ensures { (h far : List Local) (left far_left : List ℕ) → AreAgreed h far left far_left → IsThrough h × IsThrough far }
{}

/// Where both were called with one mechanism, whether or not user and password are the same, and each has done what it can, each has written
/// its AMQP header, or was refused by an outcome: neither waits for an outcome that the other did not write. `left` is what a link still
/// holds for its end.
pub fn refusals_are_told()
    ensures { (h far : List Local) (left far_left : List ℕ) → AreCompared h far left far_left → IsThroughOrRefused h × IsThroughOrRefused far }
{}

/// That an end faced the other whenever it told of a negotiation that failed (`FacedWhenTold`) holds of two ends at which nothing happened,
/// and each step of one of them keeps it so: a call or a poll, what comes of it, of which the other end has read nothing yet, and what
/// happens at the other end.
pub fn ends_face_when_they_tell()
    ensures none { (far : List Local) → FacedWhenTold [] far }
    ensures called { (at name : ℕ) (call : Call) (h far : List Local) → FacedWhenTold h far → FacedWhenTold (Made at name call ∷ h) far }
    ensures polled { (at : ℕ) (h far : List Local) → FacedWhenTold h far → FacedWhenTold (Polled at ∷ h) far }
    ensures inside { (inside before far : List Local) → IsInside inside → Faces (inside ++ before) far
        → (left : List ℕ) → read_in far ++ left ≡ wrote_in before → (1 ≤ length (made_in far)) ⊎ (wrote_in far ≡ [])
        → FacedWhenTold before far → FacedWhenTold (inside ++ before) far }
    ensures other { (h more far : List Local) → FacedWhenTold h far → FacedWhenTold h (more ++ far) }
{}
