//! Names, algorithms, keys and versions (RFC 5280, 4.1.1.2, 4.1.2.1, 4.1.2.4 and 4.1.2.7).

pub use x509_ext::X509Version;
pub use x509_ext::types::ReasonCode;
pub use x509_names::{
    AlgorithmIdentifier, AttributeTypeAndValue, Attributes, AttributesOf,
    RelativeDistinguishedName, SubjectPublicKeyInfo, X509Name, laws as name_laws,
    text_laws as name_text_laws,
};
