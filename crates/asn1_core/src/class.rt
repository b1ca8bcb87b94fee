//! The class of a tag.

ghost use Rattle.std.specs.Prelude.{◌≡◌, ◌↔◌, Some, IsOk, IfErr, codes};
ghost use Rattle.asn1_core.specs.declared.error.Error.TheVariants.{UnexpectedClass};

use crate::error;
use std::error::Error;
use std::fmt;

/// The class of a tag (X.690, 8.1.2.2, table 1).
#[derive(Clone, Copy, Debug, PartialEq, Eq, PartialOrd, Ord, Hash)]
pub enum Class {
    /// Tags of the standard's own types.
    Universal = 0,
    /// Tags of one application.
    Application = 1,
    /// Tags whose meaning depends on the type that contains them, as `[0]` in a certificate.
    ContextSpecific = 2,
    /// Tags of one enterprise.
    Private = 3,
}

/// A number above 3, which is no class.
#[derive(Clone, Copy, Debug, PartialEq, Eq)]
pub struct BerClassFromIntError(());

impl Class {
    /// 0, the number of the class of the standard's own types.
    pub const UNIVERSAL: u8 = 0;
    /// 1, the number of the class of one application's types.
    pub const APPLICATION: u8 = 1;
    /// 2, the number of the class whose tags depend on the type that contains them.
    pub const CONTEXT_SPECIFIC: u8 = 2;
    /// 3, the number of the class of one enterprise's types.
    pub const PRIVATE: u8 = 3;

    /// Returns `Ok(())` if the class is `class`.
    ///
    /// # Errors
    ///
    /// `UnexpectedClass` with both classes if it is another.
    pub fn assert_eq(&self, class: Class) -> Result<(), error::Error>
        ensures ok { IsOk result ↔ (self.now ≡ class) }
        ensures err { IfErr result (λ e. e ≡ UnexpectedClass (Some class) self.now) }
    {
        if *self == class {
            Ok(())
        } else {
            Err(error::Error::UnexpectedClass {
                expected: Some(class),
                actual: *self,
            })
        }
    }
}

/// Converts a number from 0 to 3 (X.690, table 1): bits 8 and 7 of an identifier's first octet. A
/// greater number is `BerClassFromIntError`.
impl TryFrom<u8> for Class {
    type Error = BerClassFromIntError;

    ghost use Rattle.asn1_core.specs.Views.{ClassOf};

    ghost try_from_gives = { ClassOf };

    fn try_from(number: u8) -> Result<Class, BerClassFromIntError> {
        match number {
            0 => Ok(Class::Universal),
            1 => Ok(Class::Application),
            2 => Ok(Class::ContextSpecific),
            3 => Ok(Class::Private),
            _ => Err(BerClassFromIntError(())),
        }
    }
}

impl fmt::Display for Class {
    ghost use Rattle.asn1_core.specs.Texts.{class_text};

    ghost output = { λ class. Some (class_text class) };

    fn fmt<W: fmt::Write>(&self, f: &mut fmt::Formatter<W>) -> fmt::Result {
        f.write_str(match self {
            Class::Universal => "UNIVERSAL",
            Class::Application => "APPLICATION",
            Class::ContextSpecific => "CONTEXT-SPECIFIC",
            Class::Private => "PRIVATE",
        })
    }
}

impl fmt::Display for BerClassFromIntError {
    ghost output = { λ _. Some (codes "BerClassFromIntError") };

    fn fmt<W: fmt::Write>(&self, f: &mut fmt::Formatter<W>) -> fmt::Result {
        f.write_str("BerClassFromIntError")
    }
}

impl Error for BerClassFromIntError {}
