//! What follows of the contracts, over a whole exchange.
ghost use Rattle.std.specs.Prelude.{List, length, ◌≤◌};
ghost use Rattle.amqp_sasl_bodies.specs.declared.sasl_body.SaslBody.{SaslBody};
ghost use Rattle.sasl_exchange.specs.declared.client.ClientExchange.{ClientExchange};
ghost use Rattle.sasl_exchange.specs.declared.server.ServerExchange.{ServerExchange};
ghost use Rattle.sasl_exchange.specs.AnyClient.{any_client_holds};
ghost use Rattle.sasl_exchange.specs.AnyServer.{any_server_holds};
ghost use Rattle.sasl_exchange.specs.ScramClient.{ClientEnd, client_holds};
ghost use Rattle.sasl_exchange.specs.ScramServer.{ServerEnd, server_holds};

use sasl_scram::provider::{PlainCredentialProvider, ScramCredentialProvider};

/// A client with SCRAM sends three bodies at most: the init, the response, and the empty response to a server final that
/// came as a challenge (part 5, section 5.3.2).
pub fn client_sends_few()
    ensures { (x : ClientEnd) (given sent : List SaslBody) → client_holds x given sent → length sent ≤ 3 }
{}

/// So does a client with any of the mechanisms.
pub fn any_client_sends_few()
    ensures { (x : ClientExchange) (given sent : List SaslBody) → any_client_holds x given sent → length sent ≤ 3 }
{}

/// A listener with SCRAM sends three bodies at most: the mechanisms, the challenge and the outcome (part 5, section
/// 5.3.2).
pub fn listener_sends_few<P: ScramCredentialProvider>()
    ensures { (x : ServerEnd P) (given sent : List SaslBody) → server_holds P.stored x given sent → length sent ≤ 3 }
{}

/// So does a listener with any of the mechanisms.
pub fn any_listener_sends_few<Q: PlainCredentialProvider, P: ScramCredentialProvider>()
    ensures { (x : ServerExchange Q P) (given sent : List SaslBody) → any_server_holds Q.passwords P.stored x given sent → length sent ≤ 3 }
{}
