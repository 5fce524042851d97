//! Two ends with SCRAM are joined from the beginning, and stay so by each step of one of them.
ghost use Rattle.std.specs.Prelude.{◌≡◌, ℕ, List, [], ◌∷◌, ◌++◌, Option, Some};
ghost use Rattle.amqp_sasl_bodies.specs.declared.sasl_body.SaslBody.{SaslBody};
ghost use Rattle.amqp_opening.specs.Authentication.{stored_for};
ghost use Rattle.base64.specs.GeneralPurpose.{IsBytes};
ghost use Rattle.sasl_scram.specs.declared.hash.ScramHash.{ScramHash};
ghost use Rattle.sasl_scram.specs.Check.{stored_of};
ghost use Rattle.sasl_exchange.specs.ScramClient.{ClientEnd, ClientSame, client_begun, client_holds};
ghost use Rattle.sasl_scram.specs.Hashes.{digest_of, block_of, output_of};
ghost use Rattle.sasl_scram.specs.Profile.{IsAllowedUser, IsAllowedCount, IsNonce};
ghost use Rattle.sasl_exchange.specs.ScramServer.{ServerEnd, ServerSame, server_begun, server_holds};
ghost use Rattle.sasl_scram.specs.States.{Account};
ghost use Rattle.amqp_pairs.specs.Joined.{AreJoined};

/// Two ends of the same mechanism that have read and written nothing are joined.
pub fn begun_ends_are_joined()
    ensures { (hash : ScramHash) (user password nonce : List ℕ) (hostname : Option (List ℕ)) (account : Account) (own salt : List ℕ) (count : ℕ)
        → IsAllowedUser user → IsNonce nonce → IsNonce own
        → account.stored ≡ Some (stored_of (digest_of hash) (block_of hash) (output_of hash) account.password salt count)
        → IsBytes salt → IsAllowedCount count
        → AreJoined (client_begun hash user password nonce hostname) (server_begun hash account own) salt count [] [] [] [] [] [] }
{}

/// They stay joined where one sends a body, which is then in flight, or takes the next one.
pub fn joined_ends_stay_joined()
    ensures client_sends { (x x' : ClientEnd) (y : ServerEnd Account) (salt : List ℕ) (count : ℕ) (gc sc gl sl fc fl : List SaslBody)
        (body : SaslBody) → AreJoined x y salt count gc sc gl sl fc fl → ClientSame x x'
        → client_holds x' gc (sc ++ body ∷ [])
        → AreJoined x' y salt count gc (sc ++ body ∷ []) gl sl fc (fl ++ body ∷ []) }
    ensures client_takes { (x x' : ClientEnd) (y : ServerEnd Account) (salt : List ℕ) (count : ℕ) (gc sc gl sl fc fl : List SaslBody)
        (body : SaslBody) → AreJoined x y salt count gc sc gl sl (body ∷ fc) fl → ClientSame x x'
        → client_holds x' (gc ++ body ∷ []) sc
        → AreJoined x' y salt count (gc ++ body ∷ []) sc gl sl fc fl }
    ensures listener_sends { (x : ClientEnd) (y y' : ServerEnd Account) (salt : List ℕ) (count : ℕ) (gc sc gl sl fc fl : List SaslBody)
        (body : SaslBody) → AreJoined x y salt count gc sc gl sl fc fl → ServerSame y y'
        → server_holds stored_for y' gl (sl ++ body ∷ [])
        → AreJoined x y' salt count gc sc gl (sl ++ body ∷ []) (fc ++ body ∷ []) fl }
    ensures listener_takes { (x : ClientEnd) (y y' : ServerEnd Account) (salt : List ℕ) (count : ℕ) (gc sc gl sl fc fl : List SaslBody)
        (body : SaslBody) → AreJoined x y salt count gc sc gl sl fc (body ∷ fl) → ServerSame y y'
        → server_holds stored_for y' (gl ++ body ∷ []) sl
        → AreJoined x y' salt count gc sc (gl ++ body ∷ []) sl fc fl }
{}
