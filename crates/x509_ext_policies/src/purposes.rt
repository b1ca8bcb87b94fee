//! An extKeyUsage: purposes of a key (RFC 5280, 4.2.1.12).

ghost use Rattle.std.specs.Prelude.{◌≡◌, ◌<◌, ℕ, List, length, IfOk, IfErr};
ghost use Rattle.asn1_any.specs.CutViews.{piece_of};
ghost use Rattle.asn1_any.specs.Views.{any_of};
ghost use Rattle.x509_core.specs.asn1_traits.specs.Elements.{EndsWithinElement};
ghost use Rattle.x509_core.specs.asn1_traits.specs.Reads.{Reads};
ghost use Rattle.x509_core.specs.Answers.{Gives, ElseMemory};
ghost use Rattle.x509_core.specs.Errors.{told};
ghost use Rattle.x509_core.specs.Fronts.{TakesNoMemory, TellsMissing, one_rest};
ghost use Rattle.std.specs.Prelude.{[], ◌∷◌, ◌||◌, bytes_eq};
ghost use Rattle.std.specs.BTreeSet as ordered;
ghost use Rattle.x509_items.specs.Grammar.{HoldsSequence};
ghost use Rattle.x509_items.specs.Reading.{all_of, oid_at};
ghost use Rattle.x509_ext_policies.specs.Purposes as grammar;
ghost use Rattle.x509_ext_policies.specs.Purposes.{id_kp, named_purposes};
ghost use Rattle.x509_ext_policies.specs.Reading.{has, once_of, sorted, purposes_in, purposes_at};
ghost use Rattle.x509_ext_policies.specs.Values as values;
ghost use Rattle.x509_ext_policies.specs.View.{purposes_view};

use asn1_any::Element;
use asn1_core::{Err as Refusal, HeaderCount, OutOfMemory};
use asn1_oid::Oid;
use std::alloc::Global;
use std::collections::BTreeSet;
use x509_core::{DerMeaning, FromDer, X509Error, X509Result, front_element};
use x509_items::{all, copy_all, sequence_content, told};

/// An extKeyUsage: purposes of a key (RFC 5280, 4.2.1.12).
#[derive(Debug, Drop, PartialEq, Eq)]
pub struct ExtendedKeyUsage<'a> {
    /// anyExtendedKeyUsage.
    pub any: bool,
    /// id-kp-serverAuth: authentication of a TLS server.
    pub server_auth: bool,
    /// id-kp-clientAuth: authentication of a TLS client.
    pub client_auth: bool,
    /// id-kp-codeSigning: signing of code.
    pub code_signing: bool,
    /// id-kp-emailProtection: protection of electronic mail.
    pub email_protection: bool,
    /// id-kp-timeStamping: signing of time stamps.
    pub time_stamping: bool,
    /// id-kp-OCSPSigning: signing of OCSP responses.
    pub ocsp_signing: bool,
    /// Other purposes, in the order of the encoding, each once.
    pub other: Vec<Oid<'a>>,
}

impl<'a> ExtendedKeyUsage<'a> {
    /// A copy that borrows the same octets as the purposes.
    ///
    /// # Errors
    ///
    /// Out of memory, for the copied vector.
    pub fn clone(&self, alloc: Global) -> Result<ExtendedKeyUsage<'a>, OutOfMemory>
        ensures { IfOk result (λ copy. purposes_view copy ≡ purposes_view self.now) }
    {
        let other = copy_all(alloc, self.other.as_slice())?;
        Ok(ExtendedKeyUsage {
            any: self.any,
            server_auth: self.server_auth,
            client_auth: self.client_auth,
            code_signing: self.code_signing,
            email_protection: self.email_protection,
            time_stamping: self.time_stamping,
            ocsp_signing: self.ocsp_signing,
            other,
        })
    }
}

// Whether an identifier of these octets is among them.
fn is_among(octets: &[u8], ids: &[Oid<'_>]) -> bool
    ensures { result ≡ has octets.now ids.now }
{
    for id in ids {
        if id.as_bytes() == octets {
            return true;
        }
    }
    false
}

// Whether it is the purpose of this arc below id-kp.
fn is_purpose(octets: &[u8], arc: u8) -> bool
    ensures { result ≡ bytes_eq (id_kp arc) octets.now }
{
    [0x2b, 0x06, 0x01, 0x05, 0x05, 0x07, 0x03, arc].as_slice() == octets
}

// Whether it is one of the last three purposes that have a flag of their own.
fn is_late(octets: &[u8]) -> bool
    ensures { result ≡ has octets.now (id_kp 4 ∷ id_kp 8 ∷ id_kp 9 ∷ []) }
{
    is_purpose(octets, 4) || is_purpose(octets, 8) || is_purpose(octets, 9)
}

// Whether a purpose has a flag of its own.
fn is_named(octets: &[u8]) -> bool
    ensures { result ≡ has octets.now named_purposes }
{
    [0x55, 0x1d, 0x25, 0x00].as_slice() == octets
        || is_purpose(octets, 1)
        || is_purpose(octets, 2)
        || is_purpose(octets, 3)
        || is_late(octets)
}

// Whether a purpose has a flag of its own, or was seen before.
fn is_known<'n>(octets: &'n [u8], seen: &BTreeSet<&'n [u8]>) -> bool
    ensures { result ≡ (has octets.now named_purposes || ordered.contains ⟦<&'n [u8] as Ord>⟧.cmp seen.now octets.entry) }
{
    is_named(octets) || seen.contains(octets)
}

// Those that have no flag of their own, each at its first place. With n of them of s octets in all,
// about s times the logarithm of n octets are compared.
fn others_of<'a>(alloc: Global, ids: &[Oid<'a>]) -> Result<Vec<Oid<'a>>, OutOfMemory>
    ensures { IfOk result (λ v. v.items ≡ once_of [] ids.now) }
{
    let mut seen: BTreeSet<&[u8]> = BTreeSet::new(alloc);
    let mut others: Vec<Oid<'a>> = Vec::new(alloc);
    for id in ids {
        let octets = id.as_bytes();
        if is_known(octets, &seen) {
            continue;
        }
        seen.insert(octets)?;
        others.push(id.clone(alloc)?)?;
    }
    Ok(others)
}

fn sort<'a>(alloc: Global, ids: &[Oid<'a>]) -> Result<ExtendedKeyUsage<'a>, OutOfMemory>
    ensures { IfOk result (λ u. purposes_view u ≡ sorted ids.now) }
{
    let other = others_of(alloc, ids)?;
    Ok(ExtendedKeyUsage {
        any: is_among(&[0x55, 0x1d, 0x25, 0x00], ids),
        server_auth: is_among(&[0x2b, 0x06, 0x01, 0x05, 0x05, 0x07, 0x03, 0x01], ids),
        client_auth: is_among(&[0x2b, 0x06, 0x01, 0x05, 0x05, 0x07, 0x03, 0x02], ids),
        code_signing: is_among(&[0x2b, 0x06, 0x01, 0x05, 0x05, 0x07, 0x03, 0x03], ids),
        email_protection: is_among(&[0x2b, 0x06, 0x01, 0x05, 0x05, 0x07, 0x03, 0x04], ids),
        time_stamping: is_among(&[0x2b, 0x06, 0x01, 0x05, 0x05, 0x07, 0x03, 0x08], ids),
        ocsp_signing: is_among(&[0x2b, 0x06, 0x01, 0x05, 0x05, 0x07, 0x03, 0x09], ids),
        other,
    })
}

fn all_ids<'a>(alloc: Global, content: &'a [u8]) -> Result<Vec<Oid<'a>>, Refusal<X509Error>>
    ensures { Gives (λ v. v.items) result (all_of oid_at content.now) }
{
    told(all(alloc, content))
}

fn purposes_of<'a>(
    alloc: Global,
    element: Element<'a>,
) -> Result<ExtendedKeyUsage<'a>, Refusal<X509Error>>
    ensures { Gives purposes_view result (purposes_in (piece_of element.entry)) }
{
    let content = sequence_content(element.any)?;
    let ids = all_ids(alloc, content)?;
    match sort(alloc, ids.as_slice()) {
        Ok(purposes) => Ok(purposes),
        Err(e) => Err(Refusal::Failure(X509Error::from(e))),
    }
}

impl<'b> DerMeaning for ExtendedKeyUsage<'b> {
    ghost der_reads = { λ i v r. grammar.ExtendedKeyUsage i (purposes_view v) r };

    ghost der_cut = { EndsWithinElement };

    ghost der_grows = { Unit {0} };

    ghost one_rest = { λ i v w r s left right. one_rest (HoldsSequence grammar.ExtendedKeyUsageParts) i (purposes_view v) (purposes_view w) r s left right };
}

impl<'a> FromDer<'a, X509Error> for ExtendedKeyUsage<'a> {
    /// Reads one extKeyUsage from the front of `bytes`: a constructed universal SEQUENCE of
    /// identifiers, possibly empty. Returns `(rest, purposes)`. Of equal other purposes the first
    /// is kept; n of them take some n log n comparisons.
    ///
    /// # Errors
    ///
    /// `Incomplete` if `bytes` ends inside the element; an `Error` if it holds anything else; out
    /// of memory.
    fn from_der(alloc: Global, bytes: &'a [u8]) -> X509Result<'a, ExtendedKeyUsage<'a>>
        ensures reads { Reads (λ given e. e ≡ told given) (Unit {0}) EndsWithinElement (λ i. i.now)
            (λ i v r. grammar.ExtendedKeyUsage i (purposes_view v) r) bytes.now result }
        ensures exact { Gives (λ r. (purposes_view r.1, r.0.now)) result (purposes_at bytes.now) }
        ensures found { IfOk result (λ r. grammar.ExtendedKeyUsage bytes.now (purposes_view r.1) r.0.now) }
        ensures only { (v : values.ExtendedKeyUsage) (rest : List ℕ) → grammar.ExtendedKeyUsage bytes.now v rest
            → ElseMemory result (λ r. (purposes_view r.1 ≡ v) × (r.0.now ≡ rest)) }
    {
        purposes_at_front(alloc, bytes)
    }
}

fn purposes_at_front<'a>(alloc: Global, i: &'a [u8]) -> X509Result<'a, ExtendedKeyUsage<'a>>
    ensures exact { Gives (λ r. (purposes_view r.1, r.0.now)) result (purposes_at i.now) }
    ensures missing { TellsMissing i.now result }
    ensures shorter { IfOk result (λ r. length r.0.now < length i.now) }
{
    let mut count = HeaderCount::new();
    let (rest, element) = front_element(i, &mut count)?;
    match purposes_of(alloc, element) {
        Ok(value) => Ok((rest, value)),
        Err(refusal) => Err(Refusal::within(refusal)),
    }
}
