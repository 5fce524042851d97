//! Laws over the bytes of a SASL layer (OASIS AMQP 1.0, part 5, section 5.3).
ghost use Rattle.std.specs.Prelude.{◌≡◌, ◌≢◌, ℕ, List, [], ◌++◌};
ghost use Rattle.amqp_sasl_bodies.specs.declared.sasl_body.SaslBody.{SaslBody};
ghost use Rattle.amqp_opening.specs.Authentication.{passwords_for, stored_for};
ghost use Rattle.sasl_exchange.specs.declared.error.NegotiationError.{NegotiationError};
ghost use Rattle.sasl_exchange.specs.declared.exchange.Turn.TheVariants.{Send, Pass};
ghost use Rattle.sasl_exchange.specs.declared.client.ClientExchange.{ClientExchange};
ghost use Rattle.sasl_exchange.specs.AnyClient.{any_client_holds, any_client_turn};
ghost use Rattle.sasl_exchange.specs.AnyServer.{any_server_holds, any_server_turn};
ghost use Rattle.sasl_exchange.specs.ScramClient.{ClientEnd};
ghost use Rattle.sasl_gate.specs.Negotiation.{FrameCause, HeaderCause};
ghost use Rattle.sasl_exchange.specs.ScramServer.{ServerEnd};
ghost use Rattle.sasl_scram.specs.States.{Account};
ghost use Rattle.amqp_pairs.specs.Joined.{AreEnds, AreJoined};
ghost use Rattle.amqp_pairs.specs.Mechanisms.{Listening};
ghost use Rattle.amqp_pairs.specs.Streams.{IsPart, IsRead, IsSaid, AreFirstSent};

/// The bodies that an end was given are the first of those that the other sent; what is left of the bytes that were read, with
/// those to come, is the frames of the others and what the other writes after its SASL layer.
pub fn hears_what_was_said()
    ensures { (read rest coming after : List ℕ) (given sent : List SaslBody) → IsRead read rest coming after given sent
        → AreFirstSent given sent (rest ++ coming) after }
{}

/// Where no byte is to come and what is left begins with no whole frame, all bodies were given, and what is left is what follows.
pub fn hears_all_that_was_said()
    ensures { (read rest after : List ℕ) (given sent : List SaslBody) → IsRead read rest [] after given sent
        → IsPart rest → (given ≡ sent) × (rest ≡ after) }
{}

/// Of the bytes of a SASL layer no header is refused, and no frame before all bodies were given.
pub fn no_bytes_of_it_are_refused()
    ensures header { (read coming after : List ℕ) (sent : List SaslBody) (e : NegotiationError) → IsSaid read coming after sent
        → HeaderCause e read → ⊥ }
    ensures frame { (read rest coming after : List ℕ) (given sent : List SaslBody) (e : NegotiationError)
        → IsRead read rest coming after given sent → FrameCause e rest → (given ≡ sent) × (rest ++ coming ≡ after) }
{}

/// Two ends of SCRAM that read one another's bytes are joined.
pub fn bytes_join_ends()
    ensures { (x : ClientEnd) (y : ServerEnd Account) (salt : List ℕ) (count : ℕ) (gc sc gl sl : List SaslBody)
        (client_read client_rest to_client after_listener listener_read listener_rest to_listener after_client : List ℕ)
        → AreEnds x y salt count gc sc gl sl
        → IsRead client_read client_rest to_client after_listener gc sl
        → IsRead listener_read listener_rest to_listener after_client gl sc
        → (fc : List SaslBody) × (fl : List SaslBody) × AreJoined x y salt count gc sc gl sl fc fl }
{}

/// Where no byte is to come, no rest begins with a whole frame, and neither end has anything to send, both pass, whatever their mechanisms
/// are.
pub fn bytes_come_to_rest()
    ensures { (x : ClientExchange) (y : Listening) (gc sc gl sl : List SaslBody)
        (client_read client_rest after_listener listener_read listener_rest after_client : List ℕ)
        → any_client_holds x gc sc → any_server_holds passwords_for stored_for y gl sl
        → IsRead client_read client_rest [] after_listener gc sl
        → IsRead listener_read listener_rest [] after_client gl sc
        → IsPart client_rest → IsPart listener_rest → any_client_turn x ≢ Send → any_server_turn y ≢ Send
        → (any_client_turn x ≡ Pass) × (any_server_turn y ≡ Pass) }
{}
