//! `KeyUsage` (RFC 5280, 4.2.1.3), `ReasonFlags` (RFC 5280, 4.2.1.13) and `NSCertType`.

ghost use Rattle.std.specs.Prelude.{◌≡◌, ◌<◌, ℕ, List, length, IfOk, IfErr};
ghost use Rattle.asn1_any.specs.CutViews.{piece_of};
ghost use Rattle.asn1_any.specs.Views.{any_of};
ghost use Rattle.x509_core.specs.asn1_traits.specs.Elements.{EndsWithinElement};
ghost use Rattle.x509_core.specs.asn1_traits.specs.Reads.{Reads};
ghost use Rattle.x509_core.specs.Answers.{Gives, ElseMemory};
ghost use Rattle.x509_core.specs.Errors.{told};
ghost use Rattle.x509_core.specs.Fronts.{TakesNoMemory, TellsMissing, one_rest};
ghost use Rattle.x509_core.specs.Leaves.{Leaf};
ghost use Rattle.x509_ext_flags.specs.Extensions as grammar;
ghost use Rattle.x509_ext_flags.specs.Flags.{bit_of, AreSixteen, AreEight};
ghost use Rattle.x509_ext_flags.specs.Reading.{element_flags, netscape_flags, usage_at, netscape_at};
ghost use Rattle.x509_ext_flags.specs.View.{usage_view, reasons_view, netscape_view};

use crate::bits::{bits_of, flag_at};
use asn1_any::Any;
use asn1_core::{Err as Refusal, Error, HeaderCount};
use std::alloc::Global;
use x509_core::{DerMeaning, FromDer, X509Error, X509Result, front_element, leaf_of};

/// A keyUsage (RFC 5280, 4.2.1.3): bit i of the flags is bit i of the BIT STRING.
#[derive(Clone, Copy, Debug, PartialEq, Eq)]
pub struct KeyUsage {
    /// The flags, of which bit 0 is the lowest.
    pub flags: u16,
}

/// Reasons of revocation (RFC 5280, 4.2.1.13): bit i of the flags is bit i of the BIT STRING.
#[derive(Clone, Debug, Drop, PartialEq, Eq)]
pub struct ReasonFlags {
    /// The flags, of which bit 0 is the lowest.
    pub flags: u16,
}

/// A Netscape certificate type: bit i of the flags is bit i of the BIT STRING.
#[derive(Clone, Copy, Debug, PartialEq, Eq)]
pub struct NSCertType(pub(crate) u8);

impl KeyUsage {
    /// digitalSignature (0): verifying signatures other than on certificates and revocation lists.
    pub fn digital_signature(&self) -> bool
        ensures { result ≡ bit_of self.now.flags 0 }
    {
        flag_at(self.flags, 0)
    }

    /// nonRepudiation (1): verifying signatures that the signer shall not be able to deny.
    pub fn non_repudiation(&self) -> bool
        ensures { result ≡ bit_of self.now.flags 1 }
    {
        flag_at(self.flags, 1)
    }

    /// keyEncipherment (2): enciphering keys.
    pub fn key_encipherment(&self) -> bool
        ensures { result ≡ bit_of self.now.flags 2 }
    {
        flag_at(self.flags, 2)
    }

    /// dataEncipherment (3): enciphering data.
    pub fn data_encipherment(&self) -> bool
        ensures { result ≡ bit_of self.now.flags 3 }
    {
        flag_at(self.flags, 3)
    }

    /// keyAgreement (4): agreeing on keys.
    pub fn key_agreement(&self) -> bool
        ensures { result ≡ bit_of self.now.flags 4 }
    {
        flag_at(self.flags, 4)
    }

    /// keyCertSign (5): verifying signatures on certificates.
    pub fn key_cert_sign(&self) -> bool
        ensures { result ≡ bit_of self.now.flags 5 }
    {
        flag_at(self.flags, 5)
    }

    /// cRLSign (6): verifying signatures on revocation lists.
    pub fn crl_sign(&self) -> bool
        ensures { result ≡ bit_of self.now.flags 6 }
    {
        flag_at(self.flags, 6)
    }

    /// encipherOnly (7): with keyAgreement, only enciphering.
    pub fn encipher_only(&self) -> bool
        ensures { result ≡ bit_of self.now.flags 7 }
    {
        flag_at(self.flags, 7)
    }

    /// decipherOnly (8): with keyAgreement, only deciphering.
    pub fn decipher_only(&self) -> bool
        ensures { result ≡ bit_of self.now.flags 8 }
    {
        flag_at(self.flags, 8)
    }
}

impl ReasonFlags {
    /// keyCompromise (1): the subject's private key may be compromised.
    pub fn key_compromise(&self) -> bool
        ensures { result ≡ bit_of self.now.flags 1 }
    {
        flag_at(self.flags, 1)
    }

    /// cACompromise (2): the issuer's private key may be compromised.
    pub fn ca_compromise(&self) -> bool
        ensures { result ≡ bit_of self.now.flags 2 }
    {
        flag_at(self.flags, 2)
    }

    /// affiliationChanged (3): the subject's name or other data have changed.
    pub fn affilation_changed(&self) -> bool
        ensures { result ≡ bit_of self.now.flags 3 }
    {
        flag_at(self.flags, 3)
    }

    /// superseded (4): another certificate has replaced this one.
    pub fn superseded(&self) -> bool
        ensures { result ≡ bit_of self.now.flags 4 }
    {
        flag_at(self.flags, 4)
    }

    /// cessationOfOperation (5): the certificate is no longer needed.
    pub fn cessation_of_operation(&self) -> bool
        ensures { result ≡ bit_of self.now.flags 5 }
    {
        flag_at(self.flags, 5)
    }

    /// certificateHold (6): the certificate is on hold.
    pub fn certificate_hold(&self) -> bool
        ensures { result ≡ bit_of self.now.flags 6 }
    {
        flag_at(self.flags, 6)
    }

    /// privilegeWithdrawn (7): a privilege in the certificate was withdrawn.
    pub fn privelege_withdrawn(&self) -> bool
        ensures { result ≡ bit_of self.now.flags 7 }
    {
        flag_at(self.flags, 7)
    }

    /// aACompromise (8): the key of an attribute authority may be compromised.
    pub fn aa_compromise(&self) -> bool
        ensures { result ≡ bit_of self.now.flags 8 }
    {
        flag_at(self.flags, 8)
    }
}

impl NSCertType {
    /// Authentication of an SSL client (0).
    pub fn ssl_client(&self) -> bool
        ensures { result ≡ bit_of self.now.0 0 }
    {
        flag_at(u16::from(self.0), 0)
    }

    /// Authentication of an SSL server (1).
    pub fn ssl_server(&self) -> bool
        ensures { result ≡ bit_of self.now.0 1 }
    {
        flag_at(u16::from(self.0), 1)
    }

    /// S/MIME (2).
    pub fn smime(&self) -> bool
        ensures { result ≡ bit_of self.now.0 2 }
    {
        flag_at(u16::from(self.0), 2)
    }

    /// Signing of objects, such as applets (3).
    pub fn object_signing(&self) -> bool
        ensures { result ≡ bit_of self.now.0 3 }
    {
        flag_at(u16::from(self.0), 3)
    }

    /// An authority for SSL certificates (5).
    pub fn ssl_ca(&self) -> bool
        ensures { result ≡ bit_of self.now.0 5 }
    {
        flag_at(u16::from(self.0), 5)
    }

    /// An authority for S/MIME certificates (6).
    pub fn smime_ca(&self) -> bool
        ensures { result ≡ bit_of self.now.0 6 }
    {
        flag_at(u16::from(self.0), 6)
    }

    /// An authority for certificates that sign objects (7).
    pub fn object_signing_ca(&self) -> bool
        ensures { result ≡ bit_of self.now.0 7 }
    {
        flag_at(u16::from(self.0), 7)
    }
}

/// The first sixteen bits of a primitive element of this tag number.
fn sixteen_of(tag: u32, any: Any<'_>) -> Result<u16, Refusal<X509Error>>
    ensures read { Gives (λ flags. flags) result (element_flags tag (any_of any.entry)) }
    ensures memory { IfErr result TakesNoMemory }
{
    let content = leaf_of(tag, any)?;
    bits_of(content, 16)
}

fn usage_of(any: Any<'_>) -> Result<KeyUsage, Refusal<X509Error>>
    ensures read { Gives usage_view result (element_flags 3 (any_of any.entry)) }
    ensures memory { IfErr result TakesNoMemory }
{
    let flags = sixteen_of(3, any)?;
    Ok(KeyUsage { flags })
}

/// The reasons in a primitive element of this tag number.
pub fn reasons_of(tag: u32, any: Any<'_>) -> Result<ReasonFlags, Refusal<X509Error>>
    ensures read { Gives reasons_view result (element_flags tag (any_of any.entry)) }
    ensures memory { IfErr result TakesNoMemory }
{
    let flags = sixteen_of(tag, any)?;
    Ok(ReasonFlags { flags })
}

fn netscape_of(any: Any<'_>) -> Result<NSCertType, Refusal<X509Error>>
    ensures read { Gives netscape_view result (netscape_flags (any_of any.entry)) }
    ensures memory { IfErr result TakesNoMemory }
{
    let content = leaf_of(3, any)?;
    if content.len() != 2 {
        return Err(Refusal::Error(X509Error::Der(Error::InvalidLength)));
    }
    let flags = bits_of(content, 8)?;
    Ok(NSCertType(flags as u8))
}

impl DerMeaning for KeyUsage {
    ghost der_reads = { λ i v r. grammar.KeyUsage i (usage_view v) r };

    ghost der_cut = { EndsWithinElement };

    ghost one_rest = { λ i v w r s left right. one_rest (Leaf 3 AreSixteen) i (usage_view v) (usage_view w) r s left right };
}

impl<'a> FromDer<'a, X509Error> for KeyUsage {
    /// Reads one keyUsage from the front of `bytes`. Returns `(rest, usage)`. Bits after the
    /// sixteenth are dropped.
    ///
    /// # Errors
    ///
    /// `Incomplete` if `bytes` ends inside the element; an `Error` if it isn't a BIT STRING in DER.
    fn from_der(_alloc: Global, bytes: &'a [u8]) -> X509Result<'a, KeyUsage>
        ensures reads { Reads (λ given e. e ≡ told given) ⊥ EndsWithinElement (λ i. i.now)
            (λ i v r. grammar.KeyUsage i (usage_view v) r) bytes.now result }
        ensures exact { Gives (λ r. (usage_view r.1, r.0.now)) result (usage_at bytes.now) }
        ensures memory { IfErr result TakesNoMemory }
        ensures found { IfOk result (λ r. grammar.KeyUsage bytes.now (usage_view r.1) r.0.now) }
        ensures only { (v : ℕ) (rest : List ℕ) → grammar.KeyUsage bytes.now v rest
            → ElseMemory result (λ r. (usage_view r.1 ≡ v) × (r.0.now ≡ rest)) }
    {
        usage_at_front(bytes)
    }
}

fn usage_at_front<'a>(i: &'a [u8]) -> X509Result<'a, KeyUsage>
    ensures exact { Gives (λ r. (usage_view r.1, r.0.now)) result (usage_at i.now) }
    ensures missing { TellsMissing i.now result }
    ensures shorter { IfOk result (λ r. length r.0.now < length i.now) }
    ensures memory { IfErr result TakesNoMemory }
{
    let mut count = HeaderCount::new();
    let (rest, element) = front_element(i, &mut count)?;
    match usage_of(element.any) {
        Ok(value) => Ok((rest, value)),
        Err(refusal) => Err(Refusal::within(refusal)),
    }
}

impl DerMeaning for NSCertType {
    ghost der_reads = { λ i v r. grammar.NetscapeType i (netscape_view v) r };

    ghost der_cut = { EndsWithinElement };

    ghost one_rest = { λ i v w r s left right. one_rest (Leaf 3 AreEight) i (netscape_view v) (netscape_view w) r s left right };
}

impl<'a> FromDer<'a, X509Error> for NSCertType {
    /// Reads one Netscape certificate type from the front of `bytes`: a BIT STRING of one octet of
    /// bits. Returns `(rest, type)`.
    ///
    /// # Errors
    ///
    /// `Incomplete` if `bytes` ends inside the element; an `Error` if it is anything else.
    fn from_der(_alloc: Global, bytes: &'a [u8]) -> X509Result<'a, NSCertType>
        ensures reads { Reads (λ given e. e ≡ told given) ⊥ EndsWithinElement (λ i. i.now)
            (λ i v r. grammar.NetscapeType i (netscape_view v) r) bytes.now result }
        ensures exact { Gives (λ r. (netscape_view r.1, r.0.now)) result (netscape_at bytes.now) }
        ensures memory { IfErr result TakesNoMemory }
        ensures found { IfOk result (λ r. grammar.NetscapeType bytes.now (netscape_view r.1) r.0.now) }
        ensures only { (v : ℕ) (rest : List ℕ) → grammar.NetscapeType bytes.now v rest
            → ElseMemory result (λ r. (netscape_view r.1 ≡ v) × (r.0.now ≡ rest)) }
    {
        netscape_at_front(bytes)
    }
}

fn netscape_at_front<'a>(i: &'a [u8]) -> X509Result<'a, NSCertType>
    ensures exact { Gives (λ r. (netscape_view r.1, r.0.now)) result (netscape_at i.now) }
    ensures missing { TellsMissing i.now result }
    ensures shorter { IfOk result (λ r. length r.0.now < length i.now) }
    ensures memory { IfErr result TakesNoMemory }
{
    let mut count = HeaderCount::new();
    let (rest, element) = front_element(i, &mut count)?;
    match netscape_of(element.any) {
        Ok(value) => Ok((rest, value)),
        Err(refusal) => Err(Refusal::within(refusal)),
    }
}
