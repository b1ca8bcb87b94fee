//! `X509Version` (RFC 5280, 4.1.2.1).

ghost use Rattle.std.specs.Prelude.{◌≡◌, ◌==◌, ◌+◌, ◌^◌, ◌<◌, ◌≤◌, ℕ, List, length, IfOk, IfErr, IsOkAnd, option_map};
ghost use Rattle.asn1_core.specs.Counts.{attempts};
ghost use Rattle.asn1_core.specs.Views.{class_number};
ghost use Rattle.asn1_core.specs.declared.outcome.Err.TheVariants as refusals;
ghost use Rattle.asn1_any.specs.Views.{any_of};
ghost use Rattle.asn1_traits.specs.Reads.{Reads};
ghost use Rattle.x509_core.specs.Answers.{Gives, naming};
ghost use Rattle.x509_core.specs.Errors.{told};
ghost use Rattle.x509_core.specs.declared.error.X509Error.TheVariants as errors;
ghost use Rattle.x509_core.specs.Fronts.{one_rest};
ghost use Rattle.x509_ext.specs.Parts as grammar;
ghost use Rattle.x509_ext.specs.Reading.{version_in, version_at, tagged_version_in, any_version_at};

use asn1_any::{Any, Element};
use asn1_core::{Class, Err as Refusal, Error, HeaderCount};
use asn1_traits::{DerMeaning, FromDer};
use std::alloc::Global;
use std::fmt;
use x509_core::{Parts, X509Error, X509Result, cut_all, named};
use x509_ext_parse::number_of;

/// The version of a certificate, list or request, as it is encoded: 0 is version 1.
#[derive(Clone, Copy, Debug, PartialEq, Eq)]
pub struct X509Version(pub u32);

impl X509Version {
    /// Version 1, encoded as 0 or left out: certificates without unique identifiers and extensions
    /// (RFC 5280, 4.1.2.1).
    pub const V1: X509Version = X509Version(0);

    /// Version 2, encoded as 1: certificates with unique identifiers (RFC 5280, 4.1.2.1), and
    /// revocation lists (5.1.2.1).
    pub const V2: X509Version = X509Version(1);

    /// Version 3, encoded as 2: certificates with extensions (RFC 5280, 4.1.2.1).
    pub const V3: X509Version = X509Version(2);
}

/// Writes `V1`, `V2` or `V3`, else the number as `X509Version(3)`.
impl fmt::Display for X509Version {
    ghost use Rattle.std.specs.Prelude.{Some};
    ghost use Rattle.x509_ext.specs.Texts.{version_text};

    ghost output = { λ version. Some (version_text version.0) };

    fn fmt<W: fmt::Write>(&self, f: &mut fmt::Formatter<W>) -> fmt::Result {
        match self.0 {
            0 => f.write_str("V1"),
            1 => f.write_str("V2"),
            2 => f.write_str("V3"),
            number => write!(f, "X509Version({number})"),
        }
    }
}

/// Whether the class is context-specific.
pub(crate) fn is_context(class: Class) -> bool
    ensures { result ≡ (class_number class == 2) }
{
    match class {
        Class::Universal => false,
        Class::Application => false,
        Class::ContextSpecific => true,
        Class::Private => false,
    }
}

/// The version in an element: an unsigned INTEGER of 32 bits in its shortest form; else `None`.
#[tactic(auto, unfolding(crate::specs::Reading::version_in))]
pub fn version_of(any: Any<'_>) -> Option<X509Version>
    ensures { option_map (λ v. v.0) result ≡ version_in (any_of any.entry) }
{
    if any.tag().0 != 2 || any.header.is_constructed() {
        return None;
    }
    let number = number_of(any.content)?;
    Some(X509Version(number))
}

/// The version in a context-specific element.
#[tactic(auto, unfolding(crate::specs::Reading::tagged_version_in))]
fn tagged_version_of(
    alloc: Global,
    element: Element<'_>,
    count: &mut HeaderCount,
) -> Result<X509Version, Refusal<X509Error>>
    requires { attempts count.old + length element.any.content.now < 2 ^ 128 }
    ensures read { Gives (λ v. v.0) result (tagged_version_in (any_of element.entry.any)) }
    ensures grows { attempts count.old ≤ attempts count.new }
    ensures most { attempts count.new ≤ attempts count.old + length element.entry.any.content.now }
{
    if !is_context(element.any.class()) {
        return Err(Refusal::Error(X509Error::Der(Error::InvalidTag)));
    }
    let mut parts = cut_all(alloc, element.any.content, count)?;
    let version = parts.next()?;
    match version_of(version.any) {
        Some(version) => Ok(version),
        None => Err(Refusal::Error(X509Error::Der(Error::BerValueError))),
    }
}

#[tactic(auto, using(x509_core::proofs::Pieces::no_piece))]
fn any_version(
    alloc: Global,
    parts: &mut Parts<'_>,
    count: &mut HeaderCount,
) -> Result<X509Version, Refusal<X509Error>>
    requires { attempts count.old + length parts.old.octets < 2 ^ 128 }
    ensures read { Gives (λ v. (v.0, parts.new.octets)) result (any_version_at parts.old.octets) }
    ensures elements { IfOk result (λ _. parts.new.elements ≤ parts.old.elements) }
    ensures grows { attempts count.old ≤ attempts count.new }
    ensures ends { length parts.new.octets ≤ length parts.old.octets }
    ensures most { attempts count.new ≤ attempts count.old + length parts.old.octets }
    ensures taken { IfOk result (λ _. attempts count.new + length parts.new.octets ≤ attempts count.old + length parts.old.octets) }
{
    if parts.left().is_empty() {
        return Ok(X509Version::V1);
    }
    let Some(first) = parts.first() else {
        return Err(Refusal::Error(X509Error::Der(Error::InvalidLength)));
    };
    if first.any.tag().0 != 0 {
        return Ok(X509Version::V1);
    }
    let element = parts.next()?;
    tagged_version_of(alloc, element, count)
}

/// Reads the version of a certificate. `V1`, without reading, if no octet is left or a whole
/// element of another tag number than 0 is next.
///
/// # Errors
///
/// `InvalidVersion` for anything else.
pub fn next_version(
    alloc: Global,
    parts: &mut Parts<'_>,
    count: &mut HeaderCount,
) -> Result<X509Version, Refusal<X509Error>>
    requires { attempts count.old + length parts.old.octets < 2 ^ 128 }
    ensures read { Gives (λ v. (v.0, parts.new.octets)) result (naming errors.InvalidVersion (any_version_at parts.old.octets)) }
    ensures elements { IfOk result (λ _. parts.new.elements ≤ parts.old.elements) }
    ensures grows { attempts count.old ≤ attempts count.new }
    ensures ends { length parts.new.octets ≤ length parts.old.octets }
    ensures most { attempts count.new ≤ attempts count.old + length parts.old.octets }
    ensures taken { IfOk result (λ _. attempts count.new + length parts.new.octets ≤ attempts count.old + length parts.old.octets) }
{
    named(any_version(alloc, parts, count), X509Error::InvalidVersion)
}

impl DerMeaning for X509Version {
    ghost der_reads = { λ i v r. grammar.X509Version i v.0 r };

    ghost der_cut = { λ _ _. ⊥ };

    ghost one_rest = { λ i v w r s left right. one_rest grammar.IsVersion i v.0 w.0 r s left right };
}

impl<'a> FromDer<'a, X509Error> for X509Version {
    /// Reads one version from the front of `bytes`. Returns `(rest, version)`.
    ///
    /// # Errors
    ///
    /// `InvalidVersion` for everything else, also if `bytes` ends inside the element.
    fn from_der(_alloc: Global, bytes: &'a [u8]) -> X509Result<'a, X509Version>
        ensures reads { Reads (λ given e. e ≡ told given) ⊥ (λ _ _. ⊥) (λ i. i.now)
            (λ i v r. grammar.X509Version i v.0 r) bytes.now result }
        ensures exact { Gives (λ r. (r.1.0, r.0.now)) result (version_at bytes.now) }
        ensures refused { IfErr result (λ e. e ≡ refusals.Error errors.InvalidVersion) }
        ensures found { IfOk result (λ r. grammar.X509Version bytes.now r.1.0 r.0.now) }
        ensures only { (v : ℕ) (rest : List ℕ) → grammar.X509Version bytes.now v rest
            → IsOkAnd result (λ r. (r.1.0 ≡ v) × (r.0.now ≡ rest)) }
    {
        version_at_front(bytes)
    }
}

#[tactic(auto, unfolding(x509_core::specs::Reading::piece_at))]
fn version_at_front<'a>(i: &'a [u8]) -> X509Result<'a, X509Version>
    ensures exact { Gives (λ r. (r.1.0, r.0.now)) result (version_at i.now) }
    ensures refused { IfErr result (λ e. e ≡ refusals.Error errors.InvalidVersion) }
{
    match Any::from_der(i) {
        Ok((rest, any)) => match version_of(any) {
            Some(version) => Ok((rest, version)),
            None => Err(Refusal::Error(X509Error::InvalidVersion)),
        },
        Err(_) => Err(Refusal::Error(X509Error::InvalidVersion)),
    }
}
