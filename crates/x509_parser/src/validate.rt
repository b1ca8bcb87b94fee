//! Validators, and loggers for their messages. A `StderrLogger` writes to a sink, such as a
//! `WriteSink` over a writer of std.

pub use asn1_device::WriteSink;
pub use x509_validate::{
    CallbackLogger, ChainValidator, LogError, Logger, OnError, OnWarning, StderrLogger,
    TbsCertificateStructureValidator, Validate, Validator, VecLogger, X509CertificateValidator,
    X509ExtensionsValidator, X509NameStructureValidator, X509PublicKeyValidator,
    X509StructureValidator, messages_of_key,
};
