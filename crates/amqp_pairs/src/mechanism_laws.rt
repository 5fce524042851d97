//! Laws over two ends, whatever their mechanisms are, and over two whose mechanisms are not the same (OASIS AMQP 1.0, part 5, sections 5.3.2
//! and 5.3.3.1).
ghost use Rattle.std.specs.Prelude.{◌≡◌, ◌≢◌, ◌⊎◌, ℕ, List, [], ◌∷◌, ◌++◌};
ghost use Rattle.amqp_sasl_bodies.specs.declared.sasl_body.SaslBody.{SaslBody};
ghost use Rattle.amqp_sasl_bodies.specs.declared.sasl_code.SaslCode.{SaslCode};
ghost use Rattle.amqp_opening.specs.Authentication.{passwords_for, stored_for};
ghost use Rattle.amqp_wire.specs.Events.{LinkEvent, read_of};
ghost use Rattle.sasl_exchange.specs.declared.client.ClientExchange.{ClientExchange};
ghost use Rattle.sasl_exchange.specs.declared.error.NegotiationError.{NegotiationError};
ghost use Rattle.sasl_exchange.specs.declared.error.NegotiationError.TheVariants.{NotImplemented};
ghost use Rattle.sasl_exchange.specs.declared.exchange.Turn.TheVariants.{Send, Pass};
ghost use Rattle.sasl_scram.specs.declared.hash.ScramHash.{ScramHash};
ghost use Rattle.sasl_exchange.specs.AnyClient.{any_client_causes, any_client_holds, any_client_owes, any_client_turn};
ghost use Rattle.sasl_exchange.specs.AnyServer.{any_server_causes, any_server_holds, any_server_owes, any_server_turn};
ghost use Rattle.sasl_scram.specs.Hashes.{mechanism_of};
ghost use Rattle.sasl_exchange.specs.InitTexts.{anonymous_name, plain_name};
ghost use Rattle.sasl_gate.specs.Negotiation.{IsHeard};
ghost use Rattle.sasl_exchange.specs.ScramBodies.{mechanisms_body};
ghost use Rattle.amqp_pairs.specs.Failures.{FailsBy};
ghost use Rattle.amqp_pairs.specs.Mechanisms.{ForFacing, ForUnlike, HasRefusalCause, Listening, client_name, listener_name};
ghost use Rattle.amqp_pairs.specs.Streams.{IsSaid};

/// The five mechanisms have five names.
pub fn mechanisms_have_names_of_their_own()
    ensures scram { (a b : ScramHash) → mechanism_of a ≡ mechanism_of b → a ≡ b }
    ensures scram_or_anonymous { (hash : ScramHash) → mechanism_of hash ≢ anonymous_name }
    ensures scram_or_plain { (hash : ScramHash) → mechanism_of hash ≢ plain_name }
    ensures anonymous_or_plain { anonymous_name ≢ plain_name }
{}

/// An end that passes was given all that the other sent. Where nothing is in flight and neither end has anything to send, both pass: so
/// their mechanisms are the same.
pub fn facing_ends_come_to_rest()
    ensures client { ForFacing (λ x y gc sc gl sl fc fl. any_client_turn x ≡ Pass → fc ≡ []) }
    ensures listener { ForFacing (λ x y gc sc gl sl fc fl. any_server_turn y ≡ Pass → fl ≡ []) }
    ensures passed { ForFacing (λ x y gc sc gl sl fc fl.
        fc ≡ [] → fl ≡ [] → any_client_turn x ≢ Send → any_server_turn y ≢ Send
        → (any_client_turn x ≡ Pass) × (any_server_turn y ≡ Pass)) }
{}

/// Two ends whose mechanisms are not the same go no further than the listener's list, which the client does not take: it sends nothing,
/// and the listener is given nothing. The client has a cause to refuse the list, and none but `NotImplemented`; the listener has no cause
/// to refuse. They do not come to rest.
pub fn other_mechanisms_do_not_meet()
    ensures nothing { ForUnlike (λ x y gc sc gl sl fc fl. (gc ≡ []) × (sc ≡ []) × (gl ≡ []) × (fl ≡ [])) }
    ensures list { ForUnlike (λ x y gc sc gl sl fc fl. (fc ≡ []) ⊎ (fc ≡ mechanisms_body (listener_name y ∷ []) ∷ [])) }
    ensures client { ForUnlike (λ x y gc sc gl sl fc fl.
        (e : NegotiationError) → any_client_causes x e gc sc → ⊥) }
    ensures next_at_client { ForUnlike (λ x y gc sc gl sl fc fl.
        (e : NegotiationError) (body : SaslBody) (more : List SaslBody) → fc ≡ body ∷ more
        → any_client_causes x e (gc ++ body ∷ []) sc → e ≡ NotImplemented) }
    ensures refused { ForUnlike (λ x y gc sc gl sl fc fl.
        (body : SaslBody) (more : List SaslBody) → fc ≡ body ∷ more → any_client_causes x NotImplemented (gc ++ body ∷ []) sc) }
    ensures listener { ForUnlike (λ x y gc sc gl sl fc fl.
        (code : SaslCode) → HasRefusalCause y code gl → ⊥) }
    ensures restless { ForUnlike (λ x y gc sc gl sl fc fl.
        fc ≡ [] → fl ≡ [] → any_client_turn x ≢ Send → any_server_turn y ≢ Send → ⊥) }
{}

/// Where two such ends read one another's bytes, the client fails by its mechanism only with `NotImplemented`, and the listener does not.
pub fn other_mechanisms_fail()
    ensures client { (x : ClientExchange) (y : Listening) (gc sc gl sl : List SaslBody)
        (e : NegotiationError) (events : List LinkEvent) (to_client after_listener listener_read to_listener after_client : List ℕ)
        → client_name x ≢ listener_name y → any_client_holds x gc sc → any_server_holds passwords_for stored_for y gl sl
        → IsSaid (read_of events) to_client after_listener sl
        → IsHeard listener_read gl → IsSaid listener_read to_listener after_client sc
        → FailsBy (any_client_causes x) (any_client_owes x) (any_client_turn x) e events gc sc → e ≡ NotImplemented }
    ensures listener { (x : ClientExchange) (y : Listening) (gc sc gl sl : List SaslBody)
        (e : NegotiationError) (events : List LinkEvent) (client_read to_client after_listener to_listener after_client : List ℕ)
        → client_name x ≢ listener_name y → any_client_holds x gc sc → any_server_holds passwords_for stored_for y gl sl
        → IsHeard client_read gc → IsSaid client_read to_client after_listener sl
        → IsSaid (read_of events) to_listener after_client sc
        → FailsBy (any_server_causes passwords_for stored_for y) (any_server_owes y) (any_server_turn y) e events gl sl → ⊥ }
{}
