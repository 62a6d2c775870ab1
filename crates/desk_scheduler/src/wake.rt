//! The reason for which a desk is woken.

/// The reason for which a desk is woken. This reason decides whether the desk is taken sooner or later.
#[derive(Clone, Copy, Debug, Default, PartialEq, Eq)]
pub enum Wake {
    /// The desk may have more to do than to hear the answer `hold`.
    #[default]
    Work,
    /// The desk was sent the answer `hold`, after which it mostly has nothing more to do.
    Hold,
}
