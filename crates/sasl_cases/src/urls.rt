//! What a client authenticates with by a URL: `URL => plain USER PASSWORD`, in hexadecimal, or `URL => none`.
use crate::error::CaseError;
use sasl_exchange::SaslProfile;
use std::alloc::Global;
use url::Url;

/// What a URL says.
pub fn profile(alloc: Global, text: &str) -> Result<String, CaseError> {
    let Ok(url) = Url::parse(alloc, text) else {
        return Err(CaseError::Malformed);
    };
    match SaslProfile::from_url(alloc, &url)? {
        Some(SaslProfile::Plain { username, password }) => {
            let username = hex::encode(alloc, username.as_bytes())?;
            let password = hex::encode(alloc, password.as_bytes())?;
            let text = format!(in alloc; "plain {username} {password}")?;
            Ok(text)
        }
        Some(_) => Err(CaseError::Malformed),
        None => {
            let text = String::from_str(alloc, "none")?;
            Ok(text)
        }
    }
}
