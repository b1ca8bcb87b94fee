//! Extensions, and the other parts that certificates, revocation lists and requests share (RFC
//! 5280, 4.1 and 4.2). Reading is lenient. Each reader of extensions has a parameter `deep`; with
//! `false` values stay `ParsedExtension::Unparsed`.
#![tactic(auto)]

mod basic;
mod copies;
mod extension;
mod list;
mod lookup;
mod maps;
mod once;
mod parser;
mod serial;
mod unique;
mod version;

pub use crate::basic::BasicExtension;
pub use crate::copies::copy_extensions;
pub use crate::extension::{X509Extension, extension_of};
pub use crate::list::{each_extension, extension_list_of, extensions_of};
pub use crate::lookup::{find_extension, get_extension_unique};
pub use crate::maps::extensions_map;
pub use crate::once::add_once;
pub use crate::parser::X509ExtensionParser;
pub use crate::serial::next_serial;
pub use crate::unique::{UniqueIdentifier, next_issuer_id, next_subject_id};
pub use crate::version::{X509Version, next_version, version_of};
pub use x509_ext_parse::{ParsedExtension, types};
