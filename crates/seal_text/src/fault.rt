//! Why nothing was sealed.

use audit_files::FilesFault;
use reasons_text::NamesFault;
use thiserror::Error;

/// Why a text is no secret.
#[derive(Clone, Copy, Debug, PartialEq, Eq, Error)]
pub enum SecretFault {
    /// The text isn't 64 hexadecimal digits with at most one line feed after them.
    #[error("not 64 hexadecimal digits")]
    NotDigits,
    /// All its digits are zeros.
    #[error("a secret of zeros is none")]
    Zeros,
}

/// Why nothing was sealed.
#[derive(Debug, PartialEq, Eq, Drop, Error)]
pub enum SealFault {
    /// The secret's file has no secret.
    #[error(transparent)]
    Secret(SecretFault),
    /// The docket's or the sheet's file is at fault, or memory or the writer failed.
    #[error(transparent)]
    Files(FilesFault),
    /// The key gives no real names.
    #[error(transparent)]
    Key(NamesFault),
    /// Receipts were wanted, but the sheet isn't stable, so that what its receipts say would not be
    /// true.
    #[error("the sheet is not stable, so no receipts are made of it: residency-audit tells why")]
    Unstable,
}
