//! The office's secret, from which the salts are made.
ghost use Rattle.std.specs.Prelude.{◌≡◌};
ghost use Rattle.seal_text.specs.Secret as spec;

use crate::fault::SecretFault;
use hex::FromHex;

// Whether the bytes end with a line feed.
fn ends_line(bytes: &[u8]) -> bool
    ensures { result ≡ spec.ends_line bytes.now }
{
    bytes.len() > 0 && bytes[bytes.len() - 1] == b'\n'
}

// The digits of a secret: its bytes without a line feed at their end.
fn digits_of(bytes: &[u8]) -> &[u8]
    ensures { result.now ≡ spec.digits_of bytes.now }
{
    if ends_line(bytes) {
        &bytes[..bytes.len().saturating_sub(1)]
    } else {
        bytes
    }
}

// Whether each byte is 0.
fn is_zero(secret: &[u8; 32]) -> bool
    ensures { result ≡ spec.is_zero secret.now }
{
    secret.iter().all(|byte| *byte == 0)
}

/// The 32 bytes of a secret that is written as 64 hexadecimal digits, and maybe a line feed. Not all of them may be 0.
#[tactic(auto, unfolding(crate::specs::Secret::secret_of))]
pub fn read_secret(bytes: &[u8]) -> Result<[u8; 32], SecretFault>
    ensures { result ≡ spec.secret_of bytes.now }
{
    match <[u8; 32] as FromHex>::from_hex(digits_of(bytes)) {
        Ok(secret) if is_zero(&secret) => Err(SecretFault::Zeros),
        Ok(secret) => Ok(secret),
        Err(_) => Err(SecretFault::NotDigits),
    }
}
