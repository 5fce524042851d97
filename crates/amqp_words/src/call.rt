//! What an end is asked to do.
ghost use Rattle.std.specs.Prelude.{◌≡◌, IfOk};

use crate::copies::{copied_symbol, copied_text};
use amqp_opening::{AcceptSasl, SaslProfile};
use amqp_text::{Symbol, Text};
use std::alloc::{AllocError, Global};

/// What an end says of itself as its connection begins (part 2, section 2.7.1).
#[derive(Debug, Drop)]
pub struct ConnectionSettings {
    /// The container's id.
    pub container_id: Text,
    /// The host that the other end is to be.
    pub hostname: Option<Text>,
    /// The largest frame that the end takes, in bytes; less than 512 counts as 512.
    pub max_frame_size: u32,
    /// The highest number of a channel.
    pub channel_max: u16,
    /// How long the end waits for a frame, in milliseconds; 0 is for ever.
    pub idle_time_out: Option<u32>,
}

/// A call of an end.
#[derive(Debug, Drop)]
pub enum Call {
    /// A client opens the connection.
    Open {
        /// What it says of itself.
        settings: ConnectionSettings,
        /// The host that it names to the SASL layer (part 5, section 5.3.3.2).
        sasl_hostname: Option<Text>,
        /// What it authenticates with; without it there is no SASL layer.
        sasl: Option<SaslProfile>,
    },
    /// A listener accepts the connection.
    Accept {
        /// What it says of itself.
        settings: ConnectionSettings,
        /// Whom it lets in; without it there is no SASL layer.
        sasl: Option<AcceptSasl>,
    },
    /// Either end closes the connection.
    Close {
        /// The condition of the error for which it does, if it is for one (part 2, section 2.8.14).
        error: Option<Symbol>,
    },
}

fn clone_profile(
    profile: &Option<SaslProfile>,
    alloc: Global,
) -> Result<Option<SaslProfile>, AllocError>
    ensures { IfOk result (λ p. p ≡ profile.now) }
{
    match profile {
        Some(profile) => {
            let profile = profile.try_clone(alloc)?;
            Ok(Some(profile))
        }
        None => Ok(None),
    }
}

fn clone_sasl(sasl: &Option<AcceptSasl>, alloc: Global) -> Result<Option<AcceptSasl>, AllocError>
    ensures { IfOk result (λ s. s ≡ sasl.now) }
{
    match sasl {
        Some(sasl) => {
            let sasl = sasl.try_clone(alloc)?;
            Ok(Some(sasl))
        }
        None => Ok(None),
    }
}

impl ConnectionSettings {
    /// A copy; the one error is want of memory.
    pub fn try_clone(&self, alloc: Global) -> Result<Self, AllocError>
        ensures { IfOk result (λ s. s ≡ self.now) }
    {
        let container_id = self.container_id.try_clone(alloc)?;
        let hostname = copied_text(alloc, &self.hostname)?;
        Ok(ConnectionSettings {
            container_id,
            hostname,
            max_frame_size: self.max_frame_size,
            channel_max: self.channel_max,
            idle_time_out: self.idle_time_out,
        })
    }
}

impl Call {
    /// A copy; the one error is want of memory.
    pub fn try_clone(&self, alloc: Global) -> Result<Self, AllocError>
        ensures { IfOk result (λ c. c ≡ self.now) }
    {
        match self {
            Call::Open {
                settings,
                sasl_hostname,
                sasl,
            } => {
                let settings = settings.try_clone(alloc)?;
                let sasl_hostname = copied_text(alloc, sasl_hostname)?;
                let sasl = clone_profile(sasl, alloc)?;
                Ok(Call::Open {
                    settings,
                    sasl_hostname,
                    sasl,
                })
            }
            Call::Accept { settings, sasl } => {
                let settings = settings.try_clone(alloc)?;
                let sasl = clone_sasl(sasl, alloc)?;
                Ok(Call::Accept { settings, sasl })
            }
            Call::Close { error: Some(error) } => {
                let error = copied_symbol(alloc, error)?;
                Ok(Call::Close { error: Some(error) })
            }
            Call::Close { error: None } => Ok(Call::Close { error: None }),
        }
    }
}
