//! SASL bodies that say what they must, and nothing more (OASIS AMQP 1.0, part 5, section 5.3.3).
ghost use Rattle.std.specs.Prelude.{◌≡◌};
ghost use Rattle.amqp_codec.specs.Defaults.{default_sasl_init, default_sasl_outcome};

use amqp_sasl_bodies::{SaslCode, SaslInit, SaslOutcome};
use amqp_text::Symbol;

/// The choice of that mechanism, without an initial response (section 5.3.3.2).
pub fn sasl_init(mechanism: Symbol) -> SaslInit
    ensures { result ≡ default_sasl_init mechanism }
{
    SaslInit {
        mechanism,
        initial_response: None,
        hostname: None,
    }
}

/// The end of a dialog with that code, without additional data (section 5.3.3.5).
pub fn sasl_outcome(code: SaslCode) -> SaslOutcome
    ensures { result ≡ default_sasl_outcome code }
{
    SaslOutcome {
        code,
        additional_data: None,
    }
}
