//! `KeyIdentifier` (RFC 5280, 4.2.1.2).

ghost use Rattle.std.specs.Prelude.{◌≡◌, ◌<◌, ℕ, List, length, IfOk, IfErr};
ghost use Rattle.asn1_any.specs.CutViews.{piece_of};
ghost use Rattle.asn1_any.specs.Views.{any_of};
ghost use Rattle.x509_core.specs.asn1_traits.specs.Elements.{EndsWithinElement};
ghost use Rattle.x509_core.specs.asn1_traits.specs.Reads.{Reads};
ghost use Rattle.x509_core.specs.Answers.{Gives, ElseMemory};
ghost use Rattle.x509_core.specs.Errors.{told};
ghost use Rattle.x509_core.specs.Fronts.{TakesNoMemory, TellsMissing, one_rest};
ghost use Rattle.x509_core.specs.Leaves.{IsOctets};
ghost use Rattle.x509_core.specs.Reading.{leaf_in};
ghost use Rattle.x509_ext_flags.specs.Extensions as grammar;
ghost use Rattle.x509_ext_flags.specs.Reading.{key_identifier_at};
ghost use Rattle.x509_ext_flags.specs.View.{key_identifier_view};

use asn1_any::Any;
use asn1_core::{Err as Refusal, HeaderCount};
use std::alloc::Global;
use std::fmt;
use x509_core::{DerMeaning, FromDer, X509Error, X509Result, front_element, leaf_of};
use x509_items::write_octets;

/// A key identifier: octets that identify a key (RFC 5280, 4.2.1.2).
#[derive(Clone, Debug, Drop, PartialEq, Eq)]
pub struct KeyIdentifier<'a>(pub &'a [u8]);

/// Writes the octets in hexadecimal, two lower-case digits each, separated by colons: `ab:cd`.
impl<'a> fmt::Display for KeyIdentifier<'a> {
    ghost use Rattle.std.specs.Prelude.{Some};
    ghost use Rattle.x509_ext_flags.specs.Texts.{serial_text};

    ghost output = { λ id. Some (serial_text id.0.now) };

    fn fmt<W: fmt::Write>(&self, f: &mut fmt::Formatter<W>) -> fmt::Result {
        write_octets(self.0, f)
    }
}

fn key_identifier_of<'a>(any: Any<'a>) -> Result<KeyIdentifier<'a>, Refusal<X509Error>>
    ensures read { Gives key_identifier_view result (leaf_in 4 (any_of any.entry)) }
    ensures memory { IfErr result TakesNoMemory }
{
    let content = leaf_of(4, any)?;
    Ok(KeyIdentifier(content))
}

impl<'b> DerMeaning for KeyIdentifier<'b> {
    ghost der_reads = { λ i v r. grammar.KeyIdentifier i (key_identifier_view v) r };

    ghost der_cut = { EndsWithinElement };

    ghost one_rest = { λ i v w r s left right. one_rest (IsOctets) i (key_identifier_view v) (key_identifier_view w) r s left right };
}

impl<'a> FromDer<'a, X509Error> for KeyIdentifier<'a> {
    /// Reads one key identifier, an OCTET STRING, from the front of `bytes`. Returns `(rest,
    /// identifier)`.
    ///
    /// # Errors
    ///
    /// `Incomplete` if `bytes` ends inside the element; an `Error` if it isn't an OCTET STRING.
    fn from_der(_alloc: Global, bytes: &'a [u8]) -> X509Result<'a, KeyIdentifier<'a>>
        ensures reads { Reads (λ given e. e ≡ told given) ⊥ EndsWithinElement (λ i. i.now)
            (λ i v r. grammar.KeyIdentifier i (key_identifier_view v) r) bytes.now result }
        ensures exact { Gives (λ r. (key_identifier_view r.1, r.0.now)) result (key_identifier_at bytes.now) }
        ensures memory { IfErr result TakesNoMemory }
        ensures found { IfOk result (λ r. grammar.KeyIdentifier bytes.now (key_identifier_view r.1) r.0.now) }
        ensures only { (v : List ℕ) (rest : List ℕ) → grammar.KeyIdentifier bytes.now v rest
            → ElseMemory result (λ r. (key_identifier_view r.1 ≡ v) × (r.0.now ≡ rest)) }
    {
        key_identifier_at_front(bytes)
    }
}

fn key_identifier_at_front<'a>(i: &'a [u8]) -> X509Result<'a, KeyIdentifier<'a>>
    ensures exact { Gives (λ r. (key_identifier_view r.1, r.0.now)) result (key_identifier_at i.now) }
    ensures missing { TellsMissing i.now result }
    ensures shorter { IfOk result (λ r. length r.0.now < length i.now) }
    ensures memory { IfErr result TakesNoMemory }
{
    let mut count = HeaderCount::new();
    let (rest, element) = front_element(i, &mut count)?;
    match key_identifier_of(element.any) {
        Ok(value) => Ok((rest, value)),
        Err(refusal) => Err(Refusal::within(refusal)),
    }
}
