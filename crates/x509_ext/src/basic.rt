//! `BasicExtension`, the result of looking an extension up.

ghost use Rattle.std.specs.Prelude.{◌≡◌};

/// A parsed value with the critical flag of its extension.
#[derive(Debug, Drop, PartialEq, Eq)]
pub struct BasicExtension<T> {
    /// The critical flag: whoever doesn't process the extension must reject the certificate or list
    /// (RFC 5280, 4.2).
    pub critical: bool,
    /// The parsed value.
    pub value: T,
}

impl<T> BasicExtension<T> {
    /// Joins a flag and a value.
    pub fn new(critical: bool, value: T) -> BasicExtension<T>
        ensures { result ≡ record { critical = critical; value = value } }
    {
        BasicExtension { critical, value }
    }
}
