//! What follows of the contracts, over a whole negotiation.
ghost use Rattle.std.specs.Prelude.{ℕ, List, Option};
ghost use Rattle.amqp_wire.specs.Events.{LinkEvent, read_of, wrote_of};
ghost use Rattle.sasl_exchange.specs.declared.client.ClientExchange.{ClientExchange};
ghost use Rattle.sasl_exchange.specs.AnyClient.{any_client_begun, any_client_same};
ghost use Rattle.sasl_exchange.specs.Credentials.{Credentials};
ghost use Rattle.sasl_gate.specs.ClientGate.{HasAnyClientPassed, AnyClientPassed};

/// What a client that has passed says, in words of what it was made for: its mechanism, user, password, nonce and host
/// are those of its first state.
pub fn client_passes_for_its_credentials()
    ensures { (c : Credentials) (hostname : Option (List ℕ)) (x : ClientExchange) (events : List LinkEvent) → any_client_same (any_client_begun c hostname) x
        → HasAnyClientPassed x events → AnyClientPassed c hostname (wrote_of events) (read_of events) }
{}
