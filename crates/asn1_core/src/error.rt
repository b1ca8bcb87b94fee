//! The errors of all readers.

use crate::class::Class;
use crate::tag::Tag;
use crate::{memory, outcome};
use std::alloc::{AllocError, AllocFailed};
use std::str::Utf8Error;
use std::{error, fmt};

/// How many octets are missing when an input ends early.
#[derive(Clone, Copy, Debug, PartialEq, Eq)]
pub enum Needed {
    /// At least one; the number isn't known.
    Unknown,
    /// At least this number of octets.
    Size(usize),
}

/// The reader that failed, if no rule of the encoding names the fault. The names are those of the
/// `nom` crate.
#[derive(Clone, Copy, Debug, PartialEq, Eq)]
pub enum ErrorKind {
    /// No alternative matched.
    Alt,
    /// An optional part is incomplete.
    Complete,
    /// Octets are left at the end, or the end came too soon.
    Eof,
    /// A reader that always fails.
    Fail,
    /// A repetition of none or more: a value in it took no octet, so the repetition would not end.
    Many0,
    /// A repetition of one or more found none.
    Many1,
    /// What was read couldn't be converted.
    MapRes,
    /// A tag isn't the wanted one.
    Tag,
}

/// The rule of DER that an element breaks though BER allows it (X.690, 10 and 11).
#[derive(Clone, Copy, Debug, PartialEq, Eq)]
pub enum DerConstraint {
    /// The indefinite form of length, `80` (X.690, 10.1).
    IndefiniteLength,
    /// A string in constructed form (X.690, 10.2).
    Constructed,
    /// A primitive element of a type that DER writes constructed.
    NotConstructed,
    /// A time without its zone (X.690, 11.7 and 11.8).
    MissingTimeZone,
    /// A time without its seconds (X.690, 11.7 and 11.8).
    MissingSeconds,
    /// An unused bit of a bit string that is 1 (X.690, 11.2.1).
    UnusedBitsNotZero,
    /// A boolean whose octet is neither `00` nor `ff` (X.690, 11.1).
    InvalidBoolean,
    /// An integer without content octets (X.690, 8.3.1).
    IntegerEmpty,
    /// An integer whose first nine bits are 0, as `00 05` (X.690, 8.3.2).
    IntegerLeadingZeroes,
    /// An integer whose first nine bits are 1, as `ff 80` (X.690, 8.3.2).
    IntegerLeadingFF,
}

/// Why octets are rejected: the error of all readers. It takes no memory.
#[derive(Clone, Copy, Debug, PartialEq, Eq)]
pub enum Error {
    /// The value is of another type than the one that was asked for.
    BerTypeError,
    /// The content is no value of its type.
    BerValueError,
    /// The length octets are not allowed here (X.690, 8.1.3), or the type has no content of this
    /// length.
    InvalidLength,
    /// The content is no value of its type; `msg` says why, in English.
    InvalidValue {
        tag: Tag,
        msg: &'static str,
    },
    /// The identifier octets end early, are longer than need be, or hold a number that passes 32
    /// bits (X.690, 8.1.2).
    InvalidTag,
    /// No reader is known for this tag number.
    UnknownTag,
    /// The element has the tag number `actual`. `expected` is the wanted one, `None` if several
    /// would do.
    UnexpectedTag {
        expected: Option<Tag>,
        actual: Tag,
    },
    /// The element has the class `actual`. `expected` is the wanted one, `None` if several would
    /// do.
    UnexpectedClass {
        expected: Option<Class>,
        actual: Class,
    },
    /// The length is in the indefinite form, and a definite one is wanted (X.690, 8.1.3.6).
    IndefiniteLengthUnexpected,
    /// The element is primitive, and a constructed one is wanted (X.690, 8.1.2.5).
    ConstructExpected,
    /// The element is constructed, and a primitive one is wanted (X.690, 8.1.2.5).
    ConstructUnexpected,
    /// The integer is too large for the Rust type.
    IntegerTooLarge,
    /// The integer is negative, and the Rust type is unsigned.
    IntegerNegative,
    /// Elements are nested more deeply than the reader's limit.
    BerMaxDepth,
    /// The string has a character outside its type's set (X.680, 41), or isn't UTF-8.
    StringInvalidCharset,
    /// The fields are no date and time of the calendar.
    InvalidDateTime,
    /// BER allows the octets, DER does not; the constraint says which rule is broken.
    DerConstraintFailed(DerConstraint),
    /// The input ends early, or octets are missing within a whole element.
    Incomplete(Needed),
    /// The form is known, and no reader for it exists.
    Unsupported,
    /// A general reader failed, as a repetition.
    NomError(ErrorKind),
    /// An allocation failed.
    OutOfMemory,
}

impl fmt::Display for ErrorKind {
    ghost use Rattle.std.specs.Prelude.{Some};
    ghost use Rattle.asn1_core.specs.Texts.{kind_text};

    ghost output = { λ kind. Some (kind_text kind) };

    fn fmt<W: fmt::Write>(&self, f: &mut fmt::Formatter<W>) -> fmt::Result {
        f.write_str(match self {
            ErrorKind::Alt => "Alt",
            ErrorKind::Complete => "Complete",
            ErrorKind::Eof => "Eof",
            ErrorKind::Fail => "Fail",
            ErrorKind::Many0 => "Many0",
            ErrorKind::Many1 => "Many1",
            ErrorKind::MapRes => "MapRes",
            ErrorKind::Tag => "Tag",
        })
    }
}

impl Error {
    ghost use Rattle.std.specs.Prelude.{◌≡◌};

    /// Returns `InvalidValue` for this tag number; `msg` says in English what is wrong with the
    /// value.
    pub fn invalid_value(tag: Tag, msg: &'static str) -> Error
        ensures { result ≡ Error.InvalidValue tag msg.entry }
    {
        Error::InvalidValue { tag, msg }
    }

    /// Returns `UnexpectedClass`; `expected` is the wanted class, `None` if several would do.
    pub fn unexpected_class(expected: Option<Class>, actual: Class) -> Error
        ensures { result ≡ Error.UnexpectedClass expected actual }
    {
        Error::UnexpectedClass { expected, actual }
    }

    /// Returns `UnexpectedTag`; `expected` is the wanted tag number, `None` if several would do.
    pub fn unexpected_tag(expected: Option<Tag>, actual: Tag) -> Error
        ensures { result ≡ Error.UnexpectedTag expected actual }
    {
        Error::UnexpectedTag { expected, actual }
    }
}

/// Writes the name of the case, as `InvalidLength`, without its fields.
impl fmt::Display for Error {
    ghost use Rattle.std.specs.Prelude.{Some};
    ghost use Rattle.asn1_core.specs.Texts.{error_text};

    ghost output = { λ e. Some (error_text e) };

    fn fmt<W: fmt::Write>(&self, f: &mut fmt::Formatter<W>) -> fmt::Result {
        f.write_str(match self {
            Error::BerTypeError => "BerTypeError",
            Error::BerValueError => "BerValueError",
            Error::InvalidLength => "InvalidLength",
            Error::InvalidValue { .. } => "InvalidValue",
            Error::InvalidTag => "InvalidTag",
            Error::UnknownTag => "UnknownTag",
            Error::UnexpectedTag { .. } => "UnexpectedTag",
            Error::UnexpectedClass { .. } => "UnexpectedClass",
            Error::IndefiniteLengthUnexpected => "IndefiniteLengthUnexpected",
            Error::ConstructExpected => "ConstructExpected",
            Error::ConstructUnexpected => "ConstructUnexpected",
            Error::IntegerTooLarge => "IntegerTooLarge",
            Error::IntegerNegative => "IntegerNegative",
            Error::BerMaxDepth => "BerMaxDepth",
            Error::StringInvalidCharset => "StringInvalidCharset",
            Error::InvalidDateTime => "InvalidDateTime",
            Error::DerConstraintFailed(_) => "DerConstraintFailed",
            Error::Incomplete(_) => "Incomplete",
            Error::Unsupported => "Unsupported",
            Error::NomError(_) => "NomError",
            Error::OutOfMemory => "OutOfMemory",
        })
    }
}

impl error::Error for Error {}

impl From<memory::OutOfMemory> for Error {
    ghost use Rattle.std.specs.Prelude.{◌≡◌};
    ghost use Rattle.asn1_core.specs.declared.error.Error.TheVariants.{OutOfMemory};

    ghost from_gives = { λ _ e. e ≡ OutOfMemory };

    fn from(_refused: memory::OutOfMemory) -> Error {
        Error::OutOfMemory
    }
}

impl From<AllocError> for Error {
    ghost use Rattle.std.specs.Prelude.{◌≡◌};
    ghost use Rattle.asn1_core.specs.declared.error.Error.TheVariants.{OutOfMemory};

    ghost from_gives = { λ _ e. e ≡ OutOfMemory };

    fn from(_refused: AllocError) -> Error {
        Error::OutOfMemory
    }
}

impl<T: Drop> From<AllocFailed<T>> for Error {
    ghost use Rattle.std.specs.Prelude.{◌≡◌};
    ghost use Rattle.asn1_core.specs.declared.error.Error.TheVariants.{OutOfMemory};

    ghost from_gives = { λ _ e. e ≡ OutOfMemory };

    fn from(_refused: AllocFailed<T>) -> Error {
        Error::OutOfMemory
    }
}

impl From<Utf8Error> for Error {
    ghost use Rattle.std.specs.Prelude.{◌≡◌};
    ghost use Rattle.asn1_core.specs.declared.error.Error.TheVariants.{StringInvalidCharset};

    ghost from_gives = { λ _ e. e ≡ StringInvalidCharset };

    fn from(_fault: Utf8Error) -> Error {
        Error::StringInvalidCharset
    }
}

impl From<ErrorKind> for Error {
    ghost use Rattle.std.specs.Prelude.{◌≡◌};
    ghost use Rattle.asn1_core.specs.declared.error.Error.TheVariants.{NomError};

    ghost from_gives = { λ kind e. e ≡ NomError kind };

    fn from(kind: ErrorKind) -> Error {
        Error::NomError(kind)
    }
}

/// Missing octets become `Error::Incomplete`; an error or a failure gives the error in it.
impl From<outcome::Err<Error>> for Error {
    ghost use Rattle.std.specs.Prelude.{◌≡◌};
    ghost use Rattle.asn1_core.specs.Conversions.{error_of};

    ghost from_gives = { λ refusal e. e ≡ error_of refusal };

    fn from(refusal: outcome::Err<Error>) -> Error {
        match refusal {
            outcome::Err::Incomplete(needed) => Error::Incomplete(needed),
            outcome::Err::Error(e) => e,
            outcome::Err::Failure(e) => e,
        }
    }
}
