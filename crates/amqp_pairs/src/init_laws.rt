//! Laws over the two ends of an exchange with ANONYMOUS or PLAIN (RFC 4505; RFC 4616; OASIS AMQP 1.0, part 5, section 5.3.2).
ghost use Rattle.std.specs.Prelude.{◌≡◌, ◌≢◌, ◌↔◌, ℕ, List, [], ◌∷◌, ◌++◌, Option, Some, None};
ghost use Rattle.amqp_sasl_bodies.specs.declared.sasl_body.SaslBody.{SaslBody};
ghost use Rattle.amqp_sasl_bodies.specs.declared.sasl_code.SaslCode.{SaslCode};
ghost use Rattle.amqp_sasl_bodies.specs.declared.sasl_code.SaslCode.TheVariants as sasl;
ghost use Rattle.amqp_opening.specs.Authentication.{passwords_for};
ghost use Rattle.amqp_wire.specs.Events.{LinkEvent, read_of};
ghost use Rattle.sasl_exchange.specs.declared.error.NegotiationError.{NegotiationError};
ghost use Rattle.sasl_exchange.specs.declared.exchange.Turn.TheVariants.{Send, Refuse, Pass};
ghost use Rattle.sasl_exchange.specs.declared.init_server.InitCheck.TheVariants as init_check;
ghost use Rattle.sasl_exchange.specs.Credentials.{Credentials, anonymous, plain};
ghost use Rattle.sasl_exchange.specs.Exchange.{refused_with};
ghost use Rattle.sasl_exchange.specs.InitClient.{InitClientEnd, InitClientSame, init_client_begun, init_client_causes, init_client_holds, init_client_owes, init_client_turn};
ghost use Rattle.sasl_exchange.specs.InitServer.{InitServerEnd, InitServerSame, IsJudged, IsPassing, init_server_begun, init_server_causes, init_server_holds, init_server_owes, init_server_turn};
ghost use Rattle.sasl_exchange.specs.InitTexts.{anonymous_name, plain_name, plain_of};
ghost use Rattle.sasl_gate.specs.Negotiation.{IsCaused, IsCauseAfter, IsHeard};
ghost use Rattle.sasl_scram.specs.Profile.{IsAllowedUser, IsAllowedPassword};
ghost use Rattle.sasl_exchange.specs.ScramBodies.{init_body, outcome_body};
ghost use Rattle.sasl_scram.specs.States.{Account};
ghost use Rattle.amqp_pairs.specs.Failures.{FailsBy, IsFollowed, IsOwnCause};
ghost use Rattle.amqp_pairs.specs.InitEnds.{AreInitEnds, AreInitJoined, ForInitJoined, HasOtherAccount, HasSameAccount, IsRefusingWith, MayRefuseInit};
ghost use Rattle.amqp_pairs.specs.Streams.{IsRead, IsSaid};

/// An init of ANONYMOUS passes. One of PLAIN with a user of the profile passes exactly where user and password are those of the listener.
pub fn inits_pass_exactly()
    ensures with_anonymous { (response hostname : Option (List ℕ)) → IsPassing passwords_for init_check.Anonymous (init_body anonymous_name response hostname) }
    ensures with_plain { (user password : List ℕ) (hostname : Option (List ℕ)) (account : Account) → IsAllowedUser user
        → IsPassing passwords_for (init_check.Plain account) (init_body plain_name (Some (plain_of user password)) hostname)
        ↔ ((user ≡ account.user) × (password ≡ account.password)) }
{}

/// With ANONYMOUS, and with PLAIN where user and password are the same at both ends, the listener neither refuses nor owes a refusal, the
/// next body in flight to it passes, and neither end has a cause to refuse the next body in flight.
pub fn same_inits_are_not_refused()
    ensures listener { ForInitJoined (λ c x y gc sc gl sl fc fl.
        HasSameAccount c y.check → (code : SaslCode) → IsRefusingWith code y.stage → ⊥) }
    ensures passes { ForInitJoined (λ c x y gc sc gl sl fc fl.
        HasSameAccount c y.check → (body : SaslBody) (more : List SaslBody) → fl ≡ body ∷ more → IsPassing passwords_for y.check body) }
    ensures next_at_listener { ForInitJoined (λ c x y gc sc gl sl fc fl.
        HasSameAccount c y.check → (code : SaslCode) (body : SaslBody) (more : List SaslBody) → fl ≡ body ∷ more
        → IsJudged passwords_for y.check body code → code ≡ sasl.Ok) }
    ensures next_at_client { ForInitJoined (λ c x y gc sc gl sl fc fl.
        HasSameAccount c y.check → (e : NegotiationError) (body : SaslBody) (more : List SaslBody) → fc ≡ body ∷ more
        → init_client_causes x e (gc ++ body ∷ []) sc → ⊥) }
{}

/// The listener refuses with `Auth` alone, only with PLAIN, and only another user or password. The client refuses only that outcome, told
/// without data; it has no cause to refuse what it took.
pub fn only_other_inits_are_refused()
    ensures listener { ForInitJoined (λ c x y gc sc gl sl fc fl.
        (code : SaslCode) → IsRefusingWith code y.stage → (code ≡ sasl.Auth) × HasOtherAccount c y.check) }
    ensures next_at_listener { ForInitJoined (λ c x y gc sc gl sl fc fl.
        (code : SaslCode) (body : SaslBody) (more : List SaslBody) → fl ≡ body ∷ more → IsJudged passwords_for y.check body code
        → code ≢ sasl.Ok → (code ≡ sasl.Auth) × HasOtherAccount c y.check) }
    ensures client { ForInitJoined (λ c x y gc sc gl sl fc fl.
        (e : NegotiationError) → init_client_causes x e gc sc → ⊥) }
    ensures next_at_client { ForInitJoined (λ c x y gc sc gl sl fc fl.
        (e : NegotiationError) (body : SaslBody) (more : List SaslBody) → fc ≡ body ∷ more
        → init_client_causes x e (gc ++ body ∷ []) sc → MayRefuseInit c y body e) }
{}

/// Where nothing is in flight and neither end has anything to send, both pass. A listener that refused has its outcome in flight to a client
/// that took all it was given, and where nothing else is, that outcome is why the client fails.
pub fn init_ends_come_to_rest()
    ensures passed { ForInitJoined (λ c x y gc sc gl sl fc fl.
        fc ≡ [] → fl ≡ [] → init_client_turn x ≢ Send → init_server_turn y ≢ Send
        → (init_client_turn x ≡ Pass) × (init_server_turn y ≡ Pass)) }
    ensures refused { ForInitJoined (λ c x y gc sc gl sl fc fl.
        (code : SaslCode) → init_server_turn y ≡ Refuse code
        → (code ≡ sasl.Auth) × HasOtherAccount c y.check
        × (front : List SaslBody) × (fc ≡ front ++ outcome_body sasl.Auth None ∷ [])) }
    ensures told { ForInitJoined (λ c x y gc sc gl sl fc fl.
        (code : SaslCode) → init_server_turn y ≡ Refuse code → (body : SaslBody) → fc ≡ body ∷ []
        → init_client_causes x (refused_with sasl.Auth) (gc ++ body ∷ []) sc) }
{}

/// Two ends of the same mechanism that have read and written nothing are joined.
pub fn begun_init_ends_are_joined()
    ensures with_anonymous { (hostname : Option (List ℕ))
        → AreInitJoined anonymous (init_client_begun anonymous_name None hostname) (init_server_begun init_check.Anonymous) [] [] [] [] [] [] }
    ensures with_plain { (user password : List ℕ) (hostname : Option (List ℕ)) (account : Account) → IsAllowedUser user → IsAllowedPassword password
        → AreInitJoined (plain user password) (init_client_begun plain_name (Some (plain_of user password)) hostname)
        (init_server_begun (init_check.Plain account)) [] [] [] [] [] [] }
{}

/// They stay joined where one sends a body, which is then in flight, or takes the next one.
pub fn joined_init_ends_stay_joined()
    ensures client_sends { (c : Credentials) (x x' : InitClientEnd) (y : InitServerEnd Account) (gc sc gl sl fc fl : List SaslBody) (body : SaslBody)
        → AreInitJoined c x y gc sc gl sl fc fl → InitClientSame x x' → init_client_holds x' gc (sc ++ body ∷ [])
        → AreInitJoined c x' y gc (sc ++ body ∷ []) gl sl fc (fl ++ body ∷ []) }
    ensures client_takes { (c : Credentials) (x x' : InitClientEnd) (y : InitServerEnd Account) (gc sc gl sl fc fl : List SaslBody) (body : SaslBody)
        → AreInitJoined c x y gc sc gl sl (body ∷ fc) fl → InitClientSame x x' → init_client_holds x' (gc ++ body ∷ []) sc
        → AreInitJoined c x' y (gc ++ body ∷ []) sc gl sl fc fl }
    ensures listener_sends { (c : Credentials) (x : InitClientEnd) (y y' : InitServerEnd Account) (gc sc gl sl fc fl : List SaslBody) (body : SaslBody)
        → AreInitJoined c x y gc sc gl sl fc fl → InitServerSame y y' → init_server_holds passwords_for y' gl (sl ++ body ∷ [])
        → AreInitJoined c x y' gc sc gl (sl ++ body ∷ []) (fc ++ body ∷ []) fl }
    ensures listener_takes { (c : Credentials) (x : InitClientEnd) (y y' : InitServerEnd Account) (gc sc gl sl fc fl : List SaslBody) (body : SaslBody)
        → AreInitJoined c x y gc sc gl sl fc (body ∷ fl) → InitServerSame y y' → init_server_holds passwords_for y' (gl ++ body ∷ []) sl
        → AreInitJoined c x y' gc sc (gl ++ body ∷ []) sl fc fl }
{}

/// Two ends that read one another's bytes are joined.
pub fn bytes_join_init_ends()
    ensures { (c : Credentials) (x : InitClientEnd) (y : InitServerEnd Account) (gc sc gl sl : List SaslBody)
        (client_read client_rest to_client after_listener listener_read listener_rest to_listener after_client : List ℕ)
        → AreInitEnds c x y gc sc gl sl
        → IsRead client_read client_rest to_client after_listener gc sl
        → IsRead listener_read listener_rest to_listener after_client gl sc
        → (fc : List SaslBody) × (fl : List SaslBody) × AreInitJoined c x y gc sc gl sl fc fl }
{}

/// Where two ends read one another's bytes, a client fails by its mechanism only with what it can refuse a body for, and a listener only
/// with `Auth`, and because of another user or password.
pub fn only_other_inits_fail()
    ensures client { (c : Credentials) (x : InitClientEnd) (y : InitServerEnd Account) (gc sc gl sl : List SaslBody)
        (e : NegotiationError) (events : List LinkEvent) (to_client after_listener listener_read to_listener after_client : List ℕ)
        → AreInitEnds c x y gc sc gl sl
        → IsSaid (read_of events) to_client after_listener sl
        → IsHeard listener_read gl → IsSaid listener_read to_listener after_client sc
        → FailsBy (init_client_causes x) (init_client_owes x) (init_client_turn x) e events gc sc → (body : SaslBody) × MayRefuseInit c y body e }
    ensures listener { (c : Credentials) (x : InitClientEnd) (y : InitServerEnd Account) (gc sc gl sl : List SaslBody)
        (e : NegotiationError) (events : List LinkEvent) (client_read to_client after_listener to_listener after_client : List ℕ)
        → AreInitEnds c x y gc sc gl sl
        → IsHeard client_read gc → IsSaid client_read to_client after_listener sl
        → IsSaid (read_of events) to_listener after_client sc
        → FailsBy (init_server_causes passwords_for y) (init_server_owes y) (init_server_turn y) e events gl sl
        → (e ≡ refused_with sasl.Auth) × HasOtherAccount c y.check }
{}

/// With ANONYMOUS, and with PLAIN where user and password are the same at both ends, the negotiation of neither end fails by its mechanism.
pub fn same_inits_do_not_fail()
    ensures client { (c : Credentials) (x : InitClientEnd) (y : InitServerEnd Account) (gc sc gl sl : List SaslBody)
        (e : NegotiationError) (events : List LinkEvent) (to_client after_listener listener_read to_listener after_client : List ℕ)
        → AreInitEnds c x y gc sc gl sl → HasSameAccount c y.check
        → IsSaid (read_of events) to_client after_listener sl
        → IsHeard listener_read gl → IsSaid listener_read to_listener after_client sc
        → FailsBy (init_client_causes x) (init_client_owes x) (init_client_turn x) e events gc sc → ⊥ }
    ensures listener { (c : Credentials) (x : InitClientEnd) (y : InitServerEnd Account) (gc sc gl sl : List SaslBody)
        (e : NegotiationError) (events : List LinkEvent) (client_read to_client after_listener to_listener after_client : List ℕ)
        → AreInitEnds c x y gc sc gl sl → HasSameAccount c y.check
        → IsHeard client_read gc → IsSaid client_read to_client after_listener sl
        → IsSaid (read_of events) to_listener after_client sc
        → FailsBy (init_server_causes passwords_for y) (init_server_owes y) (init_server_turn y) e events gl sl → ⊥ }
{}

/// Where moreover nothing follows the SASL layer of an end before it passes, the negotiation of each fails only by its link, or for
/// a body of its own that has no frame.
pub fn same_inits_fail_on_their_own()
    ensures client { (c : Credentials) (x : InitClientEnd) (y : InitServerEnd Account) (gc sc gl sl : List SaslBody)
        (e : NegotiationError) (events : List LinkEvent) (to_client after_listener listener_read to_listener after_client : List ℕ)
        → AreInitEnds c x y gc sc gl sl → HasSameAccount c y.check
        → IsSaid (read_of events) to_client after_listener sl → IsFollowed (init_server_turn y) after_listener
        → IsHeard listener_read gl → IsSaid listener_read to_listener after_client sc
        → (cause : IsCaused (init_client_causes x) (init_client_owes x) e events)
        → IsCauseAfter (init_client_causes x) (init_client_owes x) (init_client_turn x) e events gc sc cause
        → IsOwnCause (init_client_causes x) (init_client_owes x) e events cause }
    ensures listener { (c : Credentials) (x : InitClientEnd) (y : InitServerEnd Account) (gc sc gl sl : List SaslBody)
        (e : NegotiationError) (events : List LinkEvent) (client_read to_client after_listener to_listener after_client : List ℕ)
        → AreInitEnds c x y gc sc gl sl → HasSameAccount c y.check
        → IsHeard client_read gc → IsSaid client_read to_client after_listener sl
        → IsSaid (read_of events) to_listener after_client sc → IsFollowed (init_client_turn x) after_client
        → (cause : IsCaused (init_server_causes passwords_for y) (init_server_owes y) e events)
        → IsCauseAfter (init_server_causes passwords_for y) (init_server_owes y) (init_server_turn y) e events gl sl cause
        → IsOwnCause (init_server_causes passwords_for y) (init_server_owes y) e events cause }
{}
