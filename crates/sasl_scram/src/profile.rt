//! Which users, passwords and nonces are taken.

ghost use Rattle.std.specs.Prelude.{◌↔◌, IsTrue};
ghost use Rattle.sasl_scram.specs.Profile.{IsAllowedUser, IsAllowedPassword, IsNonce};

/// Whether the text is a password of the profile: characters from 0x20 to 0x7e.
pub fn is_allowed_password(text: &[u8]) -> bool
    ensures { IsTrue result ↔ IsAllowedPassword text.now }
{
    text.iter().all(|b| *b >= 0x20 && *b <= 0x7e)
}

/// Whether the text is a user of the profile: one or more characters from 0x20 to 0x7e.
pub fn is_allowed_user(text: &[u8]) -> bool
    ensures { IsTrue result ↔ IsAllowedUser text.now }
{
    !text.is_empty() && text.iter().all(|b| *b >= 0x20 && *b <= 0x7e)
}

/// Whether the text is a nonce (RFC 5802, section 7, `printable`): one or more characters from 0x21 to 0x7e and no comma.
pub fn is_nonce(text: &[u8]) -> bool
    ensures { IsTrue result ↔ IsNonce text.now }
{
    !text.is_empty() && text.iter().all(|b| *b >= 0x21 && *b <= 0x7e && *b != b',')
}
