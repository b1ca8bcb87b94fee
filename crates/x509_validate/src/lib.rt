//! Validators of certificates and their parts (RFC 5280, 4.1), and the loggers that take their messages.
//!
//! A validator makes the list of its messages (`Message`, `push_text`) and hands them to a `Logger` (`log_all`); a logger of one's own
//! implements `Logger`, which has one method for warnings and one for errors.
#![tactic(auto)]

mod callback_logger;
mod extension_list;
mod extensions;
mod key;
mod logger;
mod logging;
mod message;
mod name;
mod parts;
mod repeats;
mod stderr_logger;
mod structure;
mod validate;
mod validator;
mod vec_logger;

pub use crate::callback_logger::{CallbackLogger, OnError, OnWarning};
pub use crate::extension_list::{X509CertificateValidator, X509ExtensionsValidator};
pub use crate::key::{X509PublicKeyValidator, messages_of_key};
pub use crate::logger::{LogError, Logger};
pub use crate::logging::log_all;
pub use crate::message::{Message, Weight, push_text};
pub use crate::name::X509NameStructureValidator;
pub use crate::stderr_logger::StderrLogger;
pub use crate::structure::{TbsCertificateStructureValidator, X509StructureValidator};
pub use crate::validate::Validate;
pub use crate::validator::{ChainValidator, Validator};
pub use crate::vec_logger::VecLogger;
