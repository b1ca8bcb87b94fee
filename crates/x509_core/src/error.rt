//! `X509Error`, the errors of the readers of certificates, revocation lists and requests.

use asn1_core::{Err as Refusal, Error, ErrorKind, IResult, OutOfMemory};
use std::alloc::{AllocError, AllocFailed};
use std::{error, fmt};

/// The errors of the readers of certificates, revocation lists and requests.
#[derive(Clone, Copy, Debug, PartialEq, Eq)]
pub enum X509Error {
    /// A fault that has no variant of its own.
    Generic,
    /// The version isn't an INTEGER of 32 bits (RFC 5280, 4.1.2.1).
    InvalidVersion,
    /// The serial number isn't an INTEGER (RFC 5280, 4.1.2.2).
    InvalidSerial,
    /// An algorithm has no identifier (RFC 5280, 4.1.1.2).
    InvalidAlgorithmIdentifier,
    /// An attribute of a name has no type or no value (RFC 5280, 4.1.2.4).
    InvalidX509Name,
    /// A time is malformed, or no date of the calendar (RFC 5280, 4.1.2.5).
    InvalidDate,
    /// The key has no bits (RFC 5280, 4.1.2.7).
    InvalidSPKI,
    /// The subject's unique identifier isn't a BIT STRING (RFC 5280, 4.1.2.8).
    InvalidSubjectUID,
    /// The issuer's unique identifier isn't a BIT STRING (RFC 5280, 4.1.2.8).
    InvalidIssuerUID,
    /// An extension, or the field of extensions, is malformed (RFC 5280, 4.1.2.9).
    InvalidExtensions,
    /// An attribute of a request, or the field of attributes, is malformed (RFC 2986, 4.1).
    InvalidAttributes,
    /// Two extensions have the same identifier (RFC 5280, 4.2).
    DuplicateExtensions,
    /// Two attributes have the same identifier.
    DuplicateAttributes,
    /// The signature isn't a BIT STRING (RFC 5280, 4.1.1.3).
    InvalidSignatureValue,
    /// The signed part is malformed.
    InvalidTbsCertificate,
    /// An entry of a revocation list is malformed (RFC 5280, 5.1.2.6).
    InvalidUserCertificate,
    /// The certificate is malformed.
    InvalidCertificate,
    /// A signature doesn't verify. No reader returns it: signatures aren't computed here.
    SignatureVerificationError,
    /// The signature's algorithm is unknown.
    SignatureUnsupportedAlgorithm,
    /// A number is negative, empty or too large.
    InvalidNumber,
    /// An element is malformed; the error of `asn1_core`.
    Der(Error),
    /// A general parser failed.
    NomError(ErrorKind),
    /// Memory ran out.
    OutOfMemory,
}

/// The result of a reader: `(rest, value)`, or a refusal.
pub type X509Result<'a, T> = IResult<&'a [u8], T, X509Error>;

/// Writes the error in words, as x509-parser does.
impl fmt::Display for X509Error {
    ghost use Rattle.std.specs.Prelude.{Some};
    ghost use Rattle.x509_core.specs.Errors.{x509_text};

    ghost output = { λ e. Some (x509_text e) };

    fn fmt<W: fmt::Write>(&self, f: &mut fmt::Formatter<W>) -> fmt::Result {
        match self {
            X509Error::Generic => f.write_str("generic error"),
            X509Error::InvalidVersion => f.write_str("invalid version"),
            X509Error::InvalidSerial => f.write_str("invalid serial"),
            X509Error::InvalidAlgorithmIdentifier => f.write_str("invalid algorithm identifier"),
            X509Error::InvalidX509Name => f.write_str("invalid X.509 name"),
            X509Error::InvalidDate => f.write_str("invalid date"),
            X509Error::InvalidSPKI => f.write_str("invalid X.509 Subject Public Key Info"),
            X509Error::InvalidSubjectUID => f.write_str("invalid X.509 Subject Unique ID"),
            X509Error::InvalidIssuerUID => f.write_str("invalid X.509 Issuer Unique ID"),
            X509Error::InvalidExtensions => f.write_str("invalid extensions"),
            X509Error::InvalidAttributes => f.write_str("invalid attributes"),
            X509Error::DuplicateExtensions => f.write_str("duplicate extensions"),
            X509Error::DuplicateAttributes => f.write_str("duplicate attributes"),
            X509Error::InvalidSignatureValue => f.write_str("invalid Signature DER Value"),
            X509Error::InvalidTbsCertificate => f.write_str("invalid TBS certificate"),
            X509Error::InvalidUserCertificate => f.write_str("invalid User certificate"),
            X509Error::InvalidCertificate => f.write_str("invalid certificate"),
            X509Error::SignatureVerificationError => f.write_str("signature verification error"),
            X509Error::SignatureUnsupportedAlgorithm => {
                f.write_str("signature unsupported algorithm")
            }
            X509Error::InvalidNumber => f.write_str("invalid number"),
            X509Error::Der(e) => write!(f, "BER error: {e}"),
            X509Error::NomError(kind) => write!(f, "nom error: {kind}"),
            X509Error::OutOfMemory => f.write_str("out of memory"),
        }
    }
}

impl error::Error for X509Error {}

/// Out of memory stays out of memory; any other error becomes `Der`.
impl From<Error> for X509Error {
    ghost use Rattle.std.specs.Prelude.{◌≡◌};
    ghost use Rattle.x509_core.specs.Errors.{told};

    ghost from_gives = { λ given e. e ≡ told given };

    fn from(e: Error) -> X509Error {
        match e {
            Error::OutOfMemory => X509Error::OutOfMemory,
            _ => X509Error::Der(e),
        }
    }
}

impl From<ErrorKind> for X509Error {
    ghost use Rattle.std.specs.Prelude.{◌≡◌};
    ghost use Rattle.x509_core.specs.declared.error.X509Error.TheVariants as errors;

    ghost from_gives = { λ kind e. e ≡ errors.NomError kind };

    fn from(kind: ErrorKind) -> X509Error {
        X509Error::NomError(kind)
    }
}

/// `Incomplete` becomes `Der(..)`; out of memory is kept.
impl From<Refusal<Error>> for X509Error {
    ghost use Rattle.std.specs.Prelude.{◌≡◌};
    ghost use Rattle.x509_core.specs.Errors.{told_refusal};

    ghost from_gives = { λ refusal e. e ≡ told_refusal refusal };

    fn from(refusal: Refusal<Error>) -> X509Error {
        match refusal {
            Refusal::Incomplete(needed) => X509Error::Der(Error::Incomplete(needed)),
            Refusal::Error(e) => X509Error::from(e),
            Refusal::Failure(e) => X509Error::from(e),
        }
    }
}

/// `Incomplete` becomes `Der(..)`; an error is kept.
impl From<Refusal<X509Error>> for X509Error {
    ghost use Rattle.std.specs.Prelude.{◌≡◌};
    ghost use Rattle.x509_core.specs.Errors.{held_error};

    ghost from_gives = { λ refusal e. e ≡ held_error refusal };

    fn from(refusal: Refusal<X509Error>) -> X509Error {
        match refusal {
            Refusal::Incomplete(needed) => X509Error::Der(Error::Incomplete(needed)),
            Refusal::Error(e) => e,
            Refusal::Failure(e) => e,
        }
    }
}

impl From<OutOfMemory> for X509Error {
    ghost use Rattle.std.specs.Prelude.{◌≡◌};
    ghost use Rattle.x509_core.specs.declared.error.X509Error.TheVariants as errors;

    ghost from_gives = { λ _ e. e ≡ errors.OutOfMemory };

    fn from(_refused: OutOfMemory) -> X509Error {
        X509Error::OutOfMemory
    }
}

impl From<AllocError> for X509Error {
    ghost use Rattle.std.specs.Prelude.{◌≡◌};
    ghost use Rattle.x509_core.specs.declared.error.X509Error.TheVariants as errors;

    ghost from_gives = { λ _ e. e ≡ errors.OutOfMemory };

    fn from(_refused: AllocError) -> X509Error {
        X509Error::OutOfMemory
    }
}

impl<T: Drop> From<AllocFailed<T>> for X509Error {
    ghost use Rattle.std.specs.Prelude.{◌≡◌};
    ghost use Rattle.x509_core.specs.declared.error.X509Error.TheVariants as errors;

    ghost from_gives = { λ _ e. e ≡ errors.OutOfMemory };

    fn from(_refused: AllocFailed<T>) -> X509Error {
        X509Error::OutOfMemory
    }
}
