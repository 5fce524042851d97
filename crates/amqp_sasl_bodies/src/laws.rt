//! What is written is read again as the same.
ghost use Rattle.std.specs.Prelude.{◌≡◌, Some};
ghost use Rattle.amqp_sasl_bodies.specs.declared.sasl_body.SaslBody.{SaslBody};
ghost use Rattle.amqp_sasl_bodies.specs.SaslBody.{sasl_body_in, of_sasl_body};

/// The body of a SASL frame is read again as the same.
pub fn sasl_body_is_read_again()
    ensures { (x : SaslBody) → sasl_body_in (of_sasl_body x) ≡ Some x }
{}
