//! Algorithms, names and keys of certificates (RFC 5280, 4.1.1.2, 4.1.2.4 and 4.1.2.7). Reading is
//! lenient: octets that remain in the content of a SEQUENCE or SET are ignored, and so are the
//! class and the constructed bit of its tag.
#![tactic(auto)]

mod algorithm;
mod attribute;
mod attributes;
mod key;
mod labels;
pub mod laws;
mod leaves;
mod name;
mod public_key;
mod relative;
mod text;
pub mod text_laws;
mod value_text;

pub use crate::algorithm::{AlgorithmIdentifier, algorithm_of, next_algorithm};
pub use crate::attribute::{AttributeTypeAndValue, attribute_of};
pub use crate::attributes::{Attributes, AttributesOf};
pub use crate::key::{SubjectPublicKeyInfo, key_of, next_key};
pub use crate::leaves::{bits_within, next_bits, next_oid};
pub use crate::name::{X509Name, name_of, next_name};
pub use crate::public_key::{ECPoint, PublicKey, RSAPublicKey};
pub use crate::relative::{RelativeDistinguishedName, relative_name_of};
pub use x509_core::{front_element as whole_element, leaf_of};
