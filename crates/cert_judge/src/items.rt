//! Items as they were read: the class with its fields, and the octets by which items are linked.
//!
//! The types say by their ghost fields that the windows are those of the fields, so whoever holds
//! one need not look again.

ghost use Rattle.std.specs.Prelude.{◌≡◌, option_map};
ghost use Rattle.cert_model.specs.Octets.{name_octets, key_octets, certificate_octets, list_octets};
ghost use Rattle.cert_model.specs.View.{name_view, key_view, certificate_view, list_view};
ghost use Rattle.cert_judge.specs.Named.{NamesKeyId, HasKeyId};

use crate::windows::{list_issuer_of, windows_of};
use cert_model::fields::{CertFields, ListFields};

/// An item that is a certificate (RFC 5280, 4.1), with the octets of its names and its key, which
/// lie in it, and its key identifiers.
///
/// `issuer` and `subject` are whole Name elements, `key` is a whole SubjectPublicKeyInfo, the key
/// identifiers are content octets, each `None` if the certificate names none (4.2.1.1 and 4.2.1.2).
#[derive(Drop)]
pub struct CertificateItem<'a> {
    pub octets: &'a [u8],
    pub issuer: &'a [u8],
    pub subject: &'a [u8],
    pub key: &'a [u8],
    pub authority_key_id: Option<&'a [u8]>,
    pub subject_key_id: Option<&'a [u8]>,
    pub fields: CertFields<'a>,
    ghost issuer_is: { issuer.now ≡ name_octets (name_view fields.issuer) },
    ghost subject_is: { subject.now ≡ name_octets (name_view fields.subject) },
    ghost key_is: { key.now ≡ key_octets (key_view fields.key) },
    ghost authority_is: { NamesKeyId (certificate_view fields) (option_map (λ s. s.now) authority_key_id) },
    ghost own_is: { HasKeyId (certificate_view fields) (option_map (λ s. s.now) subject_key_id) },
}

impl<'a> CertificateItem<'a> {
    /// The item that these fields write, with the key identifiers that it names. It takes no
    /// memory, and a step for each element before the key.
    pub fn new(
        octets: &'a [u8],
        fields: CertFields<'a>,
        authority_key_id: Option<&'a [u8]>,
        subject_key_id: Option<&'a [u8]>,
    ) -> CertificateItem<'a>
        requires spelled { octets.now ≡ certificate_octets (certificate_view fields) }
        requires named { NamesKeyId (certificate_view fields) (option_map (λ s. s.now) authority_key_id) }
        requires own { HasKeyId (certificate_view fields) (option_map (λ s. s.now) subject_key_id) }
        ensures octets { result.octets.now ≡ octets.now }
        ensures fields { certificate_view result.fields ≡ certificate_view fields.entry }
    {
        let Some(windows) = windows_of(octets, &fields) else {
            unreachable!()
        };
        CertificateItem {
            octets,
            issuer: windows.issuer,
            subject: windows.subject,
            key: windows.key,
            authority_key_id,
            subject_key_id,
            fields,
        }
    }
}

/// An item that is a revocation list (RFC 5280, 5.1), with the octets of its issuer, a whole Name
/// element, which lie in it.
#[derive(Drop)]
pub struct ListItem<'a> {
    pub octets: &'a [u8],
    pub issuer: &'a [u8],
    pub fields: ListFields<'a>,
    ghost issuer_is: { issuer.now ≡ name_octets (name_view fields.issuer) },
}

impl<'a> ListItem<'a> {
    /// The item that these fields write. It takes no memory, and at most three steps.
    pub fn new(octets: &'a [u8], fields: ListFields<'a>) -> ListItem<'a>
        requires { octets.now ≡ list_octets (list_view fields) }
        ensures octets { result.octets.now ≡ octets.now }
        ensures fields { list_view result.fields ≡ list_view fields.entry }
    {
        let Some(issuer) = list_issuer_of(octets, &fields) else {
            unreachable!()
        };
        ListItem {
            octets,
            issuer,
            fields,
        }
    }
}

/// An item of any class, as a `ReadsItem` reads it.
#[derive(Drop)]
pub enum ReadItem<'a> {
    /// A certificate in its one spelling.
    Certificate(CertificateItem<'a>),
    /// A revocation list in its one spelling.
    List(ListItem<'a>),
    /// The octets of something else.
    Other(&'a [u8]),
}
