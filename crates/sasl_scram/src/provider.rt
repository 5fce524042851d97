//! Where a listener finds its users' passwords, or what it keeps of them.

ghost use Rattle.std.specs.Prelude.{◌≡◌, ℕ, List, Option, Some, None, IfOk, IfErr, OnOk, if◌then◌else◌};
ghost use Rattle.std.specs.Option.{option_copied};
ghost use Rattle.std.specs.Str.{bytes_eq};
ghost use Rattle.sasl_scram.specs.declared.error.ScramErrorKind.TheVariants.{TextNotAllowed};
ghost use Rattle.sasl_scram.specs.declared.stored.StoredPassword.{StoredPassword};
ghost use Rattle.sasl_scram.specs.Profile.{IsAllowedUser, IsAllowedPassword};

use crate::error::ScramErrorKind;
use crate::profile::{is_allowed_password, is_allowed_user};
use crate::stored::StoredPassword;
use amqp_text::Text;
use std::marker::Model;

/// The passwords of a listener's users, with which PLAIN is checked.
pub trait PlainCredentialProvider: Drop {
    // The password of a user.
    ghost passwords: { Self → List ℕ → Option (List ℕ) };

    /// The password of a user; `None` where there is no such user. The same at each call.
    fn get(&self, username: &str) -> Option<&str>
        ensures { option_copied result ≡ passwords self.now username.now };
}

/// What is stored of the passwords of a listener's users, with which SCRAM is checked.
pub trait ScramCredentialProvider: Drop {
    // What is stored for a user.
    ghost stored: { Self → List ℕ → Option StoredPassword };

    /// What is stored for a user; `None` where there is no such user. The same at each call.
    fn get(&self, username: &str) -> Option<&StoredPassword>
        ensures { option_copied result ≡ stored self.now username.now };
}

/// No user at all.
#[derive(Clone, Copy, Debug)]
pub struct NoUsers;

impl PlainCredentialProvider for NoUsers {
    ghost passwords = { λ _ _. None };

    fn get(&self, username: &str) -> Option<&str> {
        let _ = username;
        None
    }
}

impl ScramCredentialProvider for NoUsers {
    ghost stored = { λ _ _. None };

    fn get(&self, username: &str) -> Option<&StoredPassword> {
        let _ = username;
        None
    }
}

/// One user, with a password, and what is stored of it for SCRAM.
#[derive(Debug, Drop)]
pub struct OneUser {
    user: Text,
    password: Text,
    stored: Option<StoredPassword>,
}

impl Model for OneUser {
    ghost use Rattle.sasl_scram.specs.States.{Account};

    ghost Value = { Account };

    ghost view = { λ a. record { user = a.user; password = a.password; stored = a.stored } };
}

impl OneUser {
    /// A provider of one user. `TextNotAllowed` comes exactly where user or password is outside the profile; takes no
    /// memory.
    pub fn new(
        user: Text,
        password: Text,
        stored: Option<StoredPassword>,
    ) -> Result<Self, ScramErrorKind>
        ensures ok { IfOk result (λ a. a ≡ record { user = user; password = password; stored = stored }) }
        ensures allowed { OnOk result (IsAllowedUser user × IsAllowedPassword password) }
        ensures err { IfErr result (λ e. (e ≡ TextNotAllowed) × (¬ (IsAllowedUser user × IsAllowedPassword password))) }
    {
        if !is_allowed_user(user.as_bytes()) || !is_allowed_password(password.as_bytes()) {
            return Err(ScramErrorKind::TextNotAllowed);
        }
        Ok(OneUser {
            user,
            password,
            stored,
        })
    }
}

impl PlainCredentialProvider for OneUser {
    ghost passwords = { λ a name. if bytes_eq a.user name then Some a.password else None };

    fn get(&self, username: &str) -> Option<&str> {
        if self.user.as_str() == username {
            Some(self.password.as_str())
        } else {
            None
        }
    }
}

impl ScramCredentialProvider for OneUser {
    ghost stored = { λ a name. if bytes_eq a.user name then a.stored else None };

    fn get(&self, username: &str) -> Option<&StoredPassword> {
        if self.user.as_str() == username {
            self.stored.as_ref()
        } else {
            None
        }
    }
}
