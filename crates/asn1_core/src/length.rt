//! The length of a content (X.690, 8.1.3).

ghost use Rattle.std.specs.Prelude.{◌≡◌, ◌↔◌, IsTrue, IfErr, IsOk, MatchResult};

use crate::error::Error;

/// The length of a content: a number of octets, or the indefinite form (X.690, 8.1.3).
#[derive(Clone, Copy, Debug, PartialEq, Eq)]
pub enum Length {
    /// This number of content octets.
    Definite(usize),
    /// The indefinite form: the content ends at its end-of-contents octets, `00 00` (X.690, 8.1.5).
    Indefinite,
}

impl Length {
    ghost use Rattle.asn1_core.specs.Views.{IsDefinite};

    /// Returns whether the length is definite and 0.
    pub fn is_null(&self) -> bool
        ensures { IsTrue result ↔ (self.now ≡ Length.Definite 0) }
    {
        matches!(self, Length::Definite(0))
    }

    /// Returns the number of content octets; `IndefiniteLengthUnexpected` for the indefinite form.
    pub fn definite(&self) -> Result<usize, Error>
        ensures { MatchResult result (λ n. self.now ≡ Length.Definite n)
            (λ e. (self.now ≡ Length.Indefinite) × (e ≡ Error.IndefiniteLengthUnexpected)) }
    {
        match self {
            Length::Definite(n) => Ok(*n),
            Length::Indefinite => Err(Error::IndefiniteLengthUnexpected),
        }
    }

    /// Returns whether the length is a number of octets.
    pub fn is_definite(&self) -> bool
        ensures { IsTrue result ↔ IsDefinite self.now }
    {
        matches!(self, Length::Definite(_))
    }

    /// Returns `Ok(())` if the length is a number of octets, else `IndefiniteLengthUnexpected`.
    pub fn assert_definite(&self) -> Result<(), Error>
        ensures ok { IsOk result ↔ IsDefinite self.now }
        ensures err { IfErr result (λ e. e ≡ Error.IndefiniteLengthUnexpected) }
    {
        match self {
            Length::Definite(_) => Ok(()),
            Length::Indefinite => Err(Error::IndefiniteLengthUnexpected),
        }
    }
}

impl From<usize> for Length {
    ghost use Rattle.asn1_core.specs.declared.length.Length.TheVariants.{Definite};

    ghost from_gives = { λ n length. length ≡ Definite n };

    fn from(octets: usize) -> Length {
        Length::Definite(octets)
    }
}
