//! Laws over ends with SCRAM whose negotiation failed by its mechanism (RFC 5802, section 3; OASIS AMQP 1.0, part 5, section 5.3.2).
ghost use Rattle.std.specs.Prelude.{◌≡◌, ℕ, List};
ghost use Rattle.amqp_sasl_bodies.specs.declared.sasl_body.SaslBody.{SaslBody};
ghost use Rattle.amqp_sasl_bodies.specs.declared.sasl_code.SaslCode.TheVariants as sasl;
ghost use Rattle.amqp_opening.specs.Authentication.{stored_for};
ghost use Rattle.amqp_wire.specs.Events.{LinkEvent, read_of};
ghost use Rattle.sasl_exchange.specs.declared.error.NegotiationError.{NegotiationError};
ghost use Rattle.sasl_exchange.specs.ScramClient.{ClientEnd, client_causes, client_owes, client_turn};
ghost use Rattle.sasl_exchange.specs.Exchange.{refused_with};
ghost use Rattle.sasl_gate.specs.Negotiation.{IsCaused, IsCauseAfter, IsHeard};
ghost use Rattle.sasl_exchange.specs.ScramServer.{ServerEnd, server_causes, server_owes, server_turn};
ghost use Rattle.sasl_scram.specs.States.{Account};
ghost use Rattle.amqp_pairs.specs.Errors.{MayRefuse};
ghost use Rattle.amqp_pairs.specs.Failures.{FailsBy, IsFollowed, IsOwnCause};
ghost use Rattle.amqp_pairs.specs.Joined.{AreEnds, IsSameAccount, IsOtherAccount};
ghost use Rattle.amqp_pairs.specs.Streams.{IsSaid};

/// Where two ends read one another's bytes, a client fails by its mechanism only with what it can refuse a body for, and a
/// listener only with `Auth`, and because of another account.
pub fn only_other_accounts_fail()
    ensures client { (x : ClientEnd) (y : ServerEnd Account) (salt : List ℕ) (count : ℕ) (gc sc gl sl : List SaslBody)
        (e : NegotiationError) (events : List LinkEvent) (to_client after_listener listener_read to_listener after_client : List ℕ)
        → AreEnds x y salt count gc sc gl sl
        → IsSaid (read_of events) to_client after_listener sl
        → IsHeard listener_read gl → IsSaid listener_read to_listener after_client sc
        → FailsBy (client_causes x) (client_owes x) (client_turn x) e events gc sc → (body : SaslBody) × MayRefuse x y body e }
    ensures listener { (x : ClientEnd) (y : ServerEnd Account) (salt : List ℕ) (count : ℕ) (gc sc gl sl : List SaslBody)
        (e : NegotiationError) (events : List LinkEvent) (client_read to_client after_listener to_listener after_client : List ℕ)
        → AreEnds x y salt count gc sc gl sl
        → IsHeard client_read gc → IsSaid client_read to_client after_listener sl
        → IsSaid (read_of events) to_listener after_client sc
        → FailsBy (server_causes stored_for y) (server_owes y) (server_turn y) e events gl sl
        → (e ≡ refused_with sasl.Auth) × IsOtherAccount x y.server.provider }
{}

/// Where user and password are the same at both ends, the negotiation of neither end fails by its mechanism.
pub fn same_accounts_do_not_fail()
    ensures client { (x : ClientEnd) (y : ServerEnd Account) (salt : List ℕ) (count : ℕ) (gc sc gl sl : List SaslBody)
        (e : NegotiationError) (events : List LinkEvent) (to_client after_listener listener_read to_listener after_client : List ℕ)
        → AreEnds x y salt count gc sc gl sl → IsSameAccount x y.server.provider
        → IsSaid (read_of events) to_client after_listener sl
        → IsHeard listener_read gl → IsSaid listener_read to_listener after_client sc
        → FailsBy (client_causes x) (client_owes x) (client_turn x) e events gc sc → ⊥ }
    ensures listener { (x : ClientEnd) (y : ServerEnd Account) (salt : List ℕ) (count : ℕ) (gc sc gl sl : List SaslBody)
        (e : NegotiationError) (events : List LinkEvent) (client_read to_client after_listener to_listener after_client : List ℕ)
        → AreEnds x y salt count gc sc gl sl → IsSameAccount x y.server.provider
        → IsHeard client_read gc → IsSaid client_read to_client after_listener sl
        → IsSaid (read_of events) to_listener after_client sc
        → FailsBy (server_causes stored_for y) (server_owes y) (server_turn y) e events gl sl → ⊥ }
{}

/// Where moreover nothing follows the SASL layer of an end before it passes, the negotiation of each fails only by its link, or for
/// a body of its own that has no frame.
pub fn same_accounts_fail_on_their_own()
    ensures client { (x : ClientEnd) (y : ServerEnd Account) (salt : List ℕ) (count : ℕ) (gc sc gl sl : List SaslBody)
        (e : NegotiationError) (events : List LinkEvent) (to_client after_listener listener_read to_listener after_client : List ℕ)
        → AreEnds x y salt count gc sc gl sl → IsSameAccount x y.server.provider
        → IsSaid (read_of events) to_client after_listener sl → IsFollowed (server_turn y) after_listener
        → IsHeard listener_read gl → IsSaid listener_read to_listener after_client sc
        → (cause : IsCaused (client_causes x) (client_owes x) e events)
        → IsCauseAfter (client_causes x) (client_owes x) (client_turn x) e events gc sc cause
        → IsOwnCause (client_causes x) (client_owes x) e events cause }
    ensures listener { (x : ClientEnd) (y : ServerEnd Account) (salt : List ℕ) (count : ℕ) (gc sc gl sl : List SaslBody)
        (e : NegotiationError) (events : List LinkEvent) (client_read to_client after_listener to_listener after_client : List ℕ)
        → AreEnds x y salt count gc sc gl sl → IsSameAccount x y.server.provider
        → IsHeard client_read gc → IsSaid client_read to_client after_listener sl
        → IsSaid (read_of events) to_listener after_client sc → IsFollowed (client_turn x) after_client
        → (cause : IsCaused (server_causes stored_for y) (server_owes y) e events)
        → IsCauseAfter (server_causes stored_for y) (server_owes y) (server_turn y) e events gl sl cause
        → IsOwnCause (server_causes stored_for y) (server_owes y) e events cause }
{}
