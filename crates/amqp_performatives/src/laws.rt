//! What is written is read again as the same.
ghost use Rattle.std.specs.Prelude.{◌≡◌, Some};
ghost use Rattle.amqp_performatives.specs.declared.performative.Performative.{Performative};
ghost use Rattle.amqp_performatives.specs.Performative.{performative_in, of_performative, IsPerformativeValid, read_again};

/// A performative is read again as the same, but for a max-message-size of 0, which is read again as none.
pub fn performative_is_read_again()
    ensures { (x : Performative) → IsPerformativeValid x → performative_in (of_performative x) ≡ Some (read_again x) }
{}
