//! The purposes that RFC 5280 names.

ghost use Rattle.std.specs.Prelude.{◌≡◌, ◌≢◌, ◌↔◌, IfSome, IfNone, IsTrue};
ghost use Rattle.purpose_names.specs.Names.{name_of, identifier_of, IsWord, IsWordOf};
ghost use Rattle.purpose_names.specs.declared.naming.NamedPurpose as names;

/// A purpose under id-kp, 1.3.6.1.5.5.7.3 (RFC 5280, 4.2.1.12).
#[derive(Clone, Copy, Debug, PartialEq, Eq, Hash)]
pub enum NamedPurpose {
    ServerAuth,
    ClientAuth,
    CodeSigning,
    EmailProtection,
    TimeStamping,
    OcspSigning,
}

impl NamedPurpose {
    /// Returns the name in RFC 5280, as `serverAuth`.
    pub fn name(self) -> &'static str
        ensures { result.now ≡ name_of self }
    {
        match self {
            NamedPurpose::ServerAuth => "serverAuth",
            NamedPurpose::ClientAuth => "clientAuth",
            NamedPurpose::CodeSigning => "codeSigning",
            NamedPurpose::EmailProtection => "emailProtection",
            NamedPurpose::TimeStamping => "timeStamping",
            NamedPurpose::OcspSigning => "OCSPSigning",
        }
    }

    /// Returns the content octets of the object identifier.
    pub fn identifier(self) -> &'static [u8]
        ensures { result.now ≡ identifier_of self }
    {
        match self {
            NamedPurpose::ServerAuth => &[0x2b, 6, 1, 5, 5, 7, 3, 1],
            NamedPurpose::ClientAuth => &[0x2b, 6, 1, 5, 5, 7, 3, 2],
            NamedPurpose::CodeSigning => &[0x2b, 6, 1, 5, 5, 7, 3, 3],
            NamedPurpose::EmailProtection => &[0x2b, 6, 1, 5, 5, 7, 3, 4],
            NamedPurpose::TimeStamping => &[0x2b, 6, 1, 5, 5, 7, 3, 8],
            NamedPurpose::OcspSigning => &[0x2b, 6, 1, 5, 5, 7, 3, 9],
        }
    }
}

/// Whether a text is a word, letters of ASCII without case.
pub(crate) fn is_word(text: &str, word: &str) -> bool
    ensures { IsTrue result ↔ IsWord text.now word.now }
{
    text.eq_ignore_ascii_case(word)
}

/// Whether a text is one of the words for a purpose.
fn is_word_of(text: &str, purpose: NamedPurpose) -> bool
    ensures { IsTrue result ↔ IsWordOf text.now purpose }
{
    match purpose {
        NamedPurpose::ServerAuth => {
            is_word(text, "serverAuth") || is_word(text, "server") || is_word(text, "sslserver")
        }
        NamedPurpose::ClientAuth => {
            is_word(text, "clientAuth") || is_word(text, "client") || is_word(text, "sslclient")
        }
        NamedPurpose::CodeSigning => is_word(text, "codeSigning") || is_word(text, "codesign"),
        NamedPurpose::EmailProtection => {
            is_word(text, "emailProtection")
                || is_word(text, "smimesign")
                || is_word(text, "smimeencrypt")
        }
        NamedPurpose::TimeStamping => {
            is_word(text, "timeStamping") || is_word(text, "timestampsign")
        }
        NamedPurpose::OcspSigning => is_word(text, "OCSPSigning"),
    }
}

/// Returns the purpose that a text names: by its name in RFC 5280, or by one that `openssl verify
/// -purpose` accepts; letters without case.
#[tactic(auto, using(crate::proofs::EachPurpose::no_word))]
pub fn named_by(text: &str) -> Option<NamedPurpose>
    ensures found { IfSome result (λ p. IsWordOf text.now p) }
    ensures none { IfNone result ((p : names.NamedPurpose) → ¬ IsWordOf text.now p) }
{
    if is_word_of(text, NamedPurpose::ServerAuth) {
        Some(NamedPurpose::ServerAuth)
    } else if is_word_of(text, NamedPurpose::ClientAuth) {
        Some(NamedPurpose::ClientAuth)
    } else if is_word_of(text, NamedPurpose::CodeSigning) {
        Some(NamedPurpose::CodeSigning)
    } else if is_word_of(text, NamedPurpose::EmailProtection) {
        Some(NamedPurpose::EmailProtection)
    } else if is_word_of(text, NamedPurpose::TimeStamping) {
        Some(NamedPurpose::TimeStamping)
    } else if is_word_of(text, NamedPurpose::OcspSigning) {
        Some(NamedPurpose::OcspSigning)
    } else {
        None
    }
}

/// Whether octets are the identifier of a purpose.
fn is_identifier_of(identifier: &[u8], purpose: NamedPurpose) -> bool
    ensures { IsTrue result ↔ (identifier.now ≡ identifier_of purpose) }
{
    identifier == purpose.identifier()
}

/// Returns the purpose of an identifier, by its content octets.
#[tactic(auto, using(crate::proofs::EachPurpose::no_identifier))]
pub fn named(identifier: &[u8]) -> Option<NamedPurpose>
    ensures found { IfSome result (λ p. identifier.now ≡ identifier_of p) }
    ensures none { IfNone result ((p : names.NamedPurpose) → identifier.now ≢ identifier_of p) }
{
    if is_identifier_of(identifier, NamedPurpose::ServerAuth) {
        Some(NamedPurpose::ServerAuth)
    } else if is_identifier_of(identifier, NamedPurpose::ClientAuth) {
        Some(NamedPurpose::ClientAuth)
    } else if is_identifier_of(identifier, NamedPurpose::CodeSigning) {
        Some(NamedPurpose::CodeSigning)
    } else if is_identifier_of(identifier, NamedPurpose::EmailProtection) {
        Some(NamedPurpose::EmailProtection)
    } else if is_identifier_of(identifier, NamedPurpose::TimeStamping) {
        Some(NamedPurpose::TimeStamping)
    } else if is_identifier_of(identifier, NamedPurpose::OcspSigning) {
        Some(NamedPurpose::OcspSigning)
    } else {
        None
    }
}
