//! Laws over the bodies of an exchange with SCRAM (RFC 5802, section 3; OASIS AMQP 1.0, part 5, section 5.3.2).
ghost use Rattle.std.specs.Prelude.{◌≡◌, ◌≢◌, List, [], ◌∷◌, ◌++◌, None};
ghost use Rattle.amqp_sasl_bodies.specs.declared.sasl_body.SaslBody.{SaslBody};
ghost use Rattle.amqp_sasl_bodies.specs.declared.sasl_code.SaslCode.{SaslCode};
ghost use Rattle.amqp_sasl_bodies.specs.declared.sasl_code.SaslCode.TheVariants as sasl;
ghost use Rattle.amqp_opening.specs.Authentication.{stored_for};
ghost use Rattle.sasl_exchange.specs.declared.error.NegotiationError.{NegotiationError};
ghost use Rattle.sasl_exchange.specs.declared.exchange.Turn.TheVariants.{Send, Receive, Refuse, Pass};
ghost use Rattle.sasl_exchange.specs.ScramClient.{client_causes, client_turn};
ghost use Rattle.sasl_exchange.specs.Exchange.{refused_with};
ghost use Rattle.sasl_exchange.specs.ScramBodies.{outcome_body};
ghost use Rattle.sasl_exchange.specs.ScramServer.{IsRefusalCause, server_turn};
ghost use Rattle.amqp_pairs.specs.Joined.{ForJoined, IsSameAccount, IsOtherAccount, IsRefusing};
ghost use Rattle.amqp_pairs.specs.Errors.{MayRefuse};

/// Where user and password are the same at both ends, the listener neither refuses nor owes a refusal, has no cause to refuse what
/// it was given, and neither end has a cause to refuse the next body in flight.
pub fn same_accounts_are_not_refused()
    ensures listener { ForJoined (λ x y gc sc gl sl fc fl.
        IsSameAccount x y.server.provider → IsRefusing y.stage → ⊥) }
    ensures cause { ForJoined (λ x y gc sc gl sl fc fl.
        IsSameAccount x y.server.provider
        → (code : SaslCode) → IsRefusalCause y.hash (stored_for y.server.provider) y.server.nonce code gl → ⊥) }
    ensures next_at_listener { ForJoined (λ x y gc sc gl sl fc fl.
        IsSameAccount x y.server.provider → server_turn y ≡ Receive
        → (code : SaslCode) (body : SaslBody) (more : List SaslBody) → fl ≡ body ∷ more
        → IsRefusalCause y.hash (stored_for y.server.provider) y.server.nonce code (gl ++ body ∷ []) → ⊥) }
    ensures next_at_client { ForJoined (λ x y gc sc gl sl fc fl.
        IsSameAccount x y.server.provider
        → (e : NegotiationError) (body : SaslBody) (more : List SaslBody) → fc ≡ body ∷ more
        → client_causes x e (gc ++ body ∷ []) sc → ⊥) }
{}

/// The listener refuses with `Auth` alone, and only another account. The client refuses only that outcome, or the signature of
/// another password, for which the listener took its proof; it has no cause to refuse what it took.
pub fn only_other_accounts_are_refused()
    ensures cause { ForJoined (λ x y gc sc gl sl fc fl.
        (code : SaslCode) → IsRefusalCause y.hash (stored_for y.server.provider) y.server.nonce code gl
        → (code ≡ sasl.Auth) × IsOtherAccount x y.server.provider) }
    ensures next_at_listener { ForJoined (λ x y gc sc gl sl fc fl.
        server_turn y ≡ Receive → (code : SaslCode) (body : SaslBody) (more : List SaslBody) → fl ≡ body ∷ more
        → IsRefusalCause y.hash (stored_for y.server.provider) y.server.nonce code (gl ++ body ∷ [])
        → (code ≡ sasl.Auth) × IsOtherAccount x y.server.provider) }
    ensures client { ForJoined (λ x y gc sc gl sl fc fl.
        (e : NegotiationError) → client_causes x e gc sc → ⊥) }
    ensures next_at_client { ForJoined (λ x y gc sc gl sl fc fl.
        (e : NegotiationError) (body : SaslBody) (more : List SaslBody) → fc ≡ body ∷ more
        → client_causes x e (gc ++ body ∷ []) sc → MayRefuse x y body e) }
{}

/// Where nothing is in flight and neither end has anything to send, both pass. A listener that refused has its outcome in
/// flight to a client that took all it was given, and where nothing else is, that outcome is why the client fails.
pub fn joined_ends_come_to_rest()
    ensures passed { ForJoined (λ x y gc sc gl sl fc fl.
        fc ≡ [] → fl ≡ [] → client_turn x ≢ Send → server_turn y ≢ Send → (client_turn x ≡ Pass) × (server_turn y ≡ Pass)) }
    ensures refused { ForJoined (λ x y gc sc gl sl fc fl.
        (code : SaslCode) → server_turn y ≡ Refuse code
        → (code ≡ sasl.Auth) × IsOtherAccount x y.server.provider
        × (front : List SaslBody) × (fc ≡ front ++ outcome_body sasl.Auth None ∷ [])) }
    ensures told { ForJoined (λ x y gc sc gl sl fc fl.
        (code : SaslCode) → server_turn y ≡ Refuse code → (body : SaslBody) → fc ≡ body ∷ []
        → client_causes x (refused_with sasl.Auth) (gc ++ body ∷ []) sc) }
{}
