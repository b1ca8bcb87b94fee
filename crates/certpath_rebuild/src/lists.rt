//! Revocation lists as parts that are written (RFC 5280, 5.1).
ghost use Rattle.std.specs.Prelude.{◌≡◌, map, option_map, ◌∷◌, []};
ghost use Rattle.cert_model.specs.Octets.{optional_octets, number_octets, time_octets, entry_octets, entries_octets, tbs_cert_list_octets, list_octets};
ghost use Rattle.cert_model.specs.View.{time_view, entry_view, list_view};
ghost use Rattle.certpath_rebuild.specs.Cuts.{contents_octets};

use crate::encode::{Both, Each, Element, Encode, Nothing, Octet, primitive, sequence};
use crate::parts::{
    Algorithm, Bits, Extensions, Name, Plain, algorithm, bits, extensions, name, plain,
    tagged_extensions,
};
use crate::times::{Time, time};
use asn1_core::Tag;
use asn1_device::{DeviceFault, Sink};
use cert_model::fields::{EntryFields, ListFields};
use jiff::civil::DateTime;

// Version (RFC 5280, 5.1.2.1).
type Version = Option<Element<Octet>>;

// An entry of revokedCertificates (RFC 5280, 5.1.2.6).
type Entry<'a> = Element<Both<Plain<'a>, Both<Time, Both<Option<Extensions<'a>>, Nothing>>>>;

// revokedCertificates.
type Entries<'a> = Option<Element<Each<'a, EntryFields<'a>>>>;

// TBSCertList.
type Signed<'a> = Element<Both<Version, Both<Algorithm<'a>, Both<Name<'a>, Contents<'a>>>>>;

// The fields after the issuer: updates, entries and extensions.
type Listed<'a> = Both<
    Time,
    Both<Option<Time>, Both<Entries<'a>, Both<Option<Element<Extensions<'a>>>, Nothing>>>,
>;

// TBSCertList of these fields.
#[derive(Clone, Copy)]
pub(crate) struct FirstPart<'a>(&'a ListFields<'a>);

impl<'a> Encode for FirstPart<'a> {
    ghost use Rattle.cert_model.specs.Octets.{tbs_cert_list_octets};
    ghost use Rattle.cert_model.specs.View.{list_view};

    ghost octets = { λ p. tbs_cert_list_octets (list_view p.0.now) };

    fn size(&self) -> Option<usize> {
        signed(self.0).size()
    }

    fn put<S: Sink>(&self, writer: &mut S) -> Result<(), DeviceFault> {
        signed(self.0).put(writer)
    }

    fn before<'w>(&self, whole: &'w [u8]) -> Option<&'w [u8]> {
        signed(self.0).before(whole)
    }
}

// The fields after the issuer.
#[derive(Clone, Copy)]
struct Contents<'a>(&'a ListFields<'a>);

impl<'a> Encode for Contents<'a> {
    ghost use Rattle.certpath_rebuild.specs.Cuts.{contents_octets};
    ghost use Rattle.cert_model.specs.View.{list_view};

    ghost octets = { λ p. contents_octets (list_view p.0.now) };

    fn size(&self) -> Option<usize> {
        listed(self.0).size()
    }

    fn put<S: Sink>(&self, writer: &mut S) -> Result<(), DeviceFault> {
        listed(self.0).put(writer)
    }

    fn before<'w>(&self, whole: &'w [u8]) -> Option<&'w [u8]> {
        listed(self.0).before(whole)
    }
}

/// A CertificateList.
pub(crate) type List<'a> = Element<
    Both<FirstPart<'a>, Both<Algorithm<'a>, Both<Bits<'a>, Nothing>>>,
>;

fn version(version: Option<u8>) -> Version
    ensures { ⟦<Version as Encode>⟧.octets result ≡ optional_octets (λ version. number_octets (version ∷ [])) version }
{
    match version {
        Some(version) => Some(primitive(Tag::Integer, Octet(version))),
        None => None,
    }
}

fn entry<'a>(fields: &'a EntryFields<'a>) -> Entry<'a>
    ensures { ⟦<Entry<'a> as Encode>⟧.octets result ≡ entry_octets (entry_view fields.now) }
{
    let additions = Both(extensions(fields.extensions.as_slice()), Nothing);
    sequence(Both(
        plain(Tag::Integer, fields.serial),
        Both(time(fields.date), additions),
    ))
}

impl<'a> Encode for EntryFields<'a> {
    ghost use Rattle.cert_model.specs.Octets.{entry_octets};
    ghost use Rattle.cert_model.specs.View.{entry_view};

    ghost octets = { λ f. entry_octets (entry_view f) };

    fn size(&self) -> Option<usize> {
        entry(self).size()
    }

    fn put<S: Sink>(&self, writer: &mut S) -> Result<(), DeviceFault> {
        entry(self).put(writer)
    }

    fn before<'w>(&self, whole: &'w [u8]) -> Option<&'w [u8]> {
        entry(self).before(whole)
    }
}

// Nothing if there is no entry (RFC 5280, 5.1.2.6).
#[tactic(auto, using(crate::proofs::Spelled::entries_spelled))]
fn entries<'a>(fields: &'a [EntryFields<'a>]) -> Entries<'a>
    ensures { ⟦<Entries<'a> as Encode>⟧.octets result ≡ entries_octets (map entry_view fields.now) }
{
    if fields.is_empty() {
        None
    } else {
        Some(sequence(Each(fields)))
    }
}

fn next_update(field: Option<DateTime>) -> Option<Time>
    ensures { ⟦<Option<Time> as Encode>⟧.octets result ≡ optional_octets time_octets (option_map time_view field) }
{
    match field {
        Some(field) => Some(time(field)),
        None => None,
    }
}

fn listed<'a>(fields: &'a ListFields<'a>) -> Listed<'a>
    ensures { ⟦<Listed<'a> as Encode>⟧.octets result ≡ contents_octets (list_view fields.now) }
{
    let extensions = Both(tagged_extensions(0, fields.extensions.as_slice()), Nothing);
    let entries = Both(entries(fields.entries.as_slice()), extensions);
    Both(
        time(fields.this_update),
        Both(next_update(fields.next_update), entries),
    )
}

fn signed<'a>(fields: &'a ListFields<'a>) -> Signed<'a>
    ensures { ⟦<Signed<'a> as Encode>⟧.octets result ≡ tbs_cert_list_octets (list_view fields.now) }
{
    let issuer = Both(name(&fields.issuer), Contents(fields));
    sequence(Both(
        version(fields.version),
        Both(algorithm(fields.signature), issuer),
    ))
}

/// Returns the list of these fields.
pub(crate) fn list<'a>(fields: &'a ListFields<'a>) -> List<'a>
    ensures { ⟦<List<'a> as Encode>⟧.octets result ≡ list_octets (list_view fields.now) }
{
    let signature = Both(
        algorithm(fields.algorithm),
        Both(bits(fields.signature_value), Nothing),
    );
    sequence(Both(FirstPart(fields), signature))
}
