//! The token that an entered close gives.
use crate::identity::ExchangeIdentity;
use std::marker::PhantomData;

/// A token that says that the close of the exchange was entered. The type names the exchange. Only a ledger's
/// `close_and_tell` makes such a token. The token takes no bytes.
#[derive(Drop)]
pub struct CloseToken<J: ExchangeIdentity> {
    exchange: PhantomData<J>,
}

impl<J: ExchangeIdentity> CloseToken<J> {
    /// The token for a close that was just entered.
    pub(crate) fn new() -> CloseToken<J> {
        CloseToken {
            exchange: PhantomData,
        }
    }
}
