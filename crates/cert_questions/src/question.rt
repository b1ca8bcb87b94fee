//! Questions of signatures.

/// Whose key is meant: a certificate, by its position among the items of the bundle or among those
/// of the anchors, each from 0.
#[derive(Clone, Copy, Debug, PartialEq, Eq)]
pub enum KeyHolder {
    /// A certificate of the bundle.
    Item(usize),
    /// An anchor.
    Anchor(usize),
}

/// Whether a certificate's key verifies the signature of an item of the bundle.
#[derive(Clone, Copy, Debug, PartialEq, Eq)]
pub struct Question {
    /// The position of the certificate or list whose signature is meant, from 0.
    pub item: usize,
    /// Whose key it is.
    pub holder: KeyHolder,
}
