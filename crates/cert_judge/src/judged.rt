//! Items as they are judged: what the building of nodes asks of each.

ghost use Rattle.std.specs.Prelude.{◌≡◌, ◌↔◌, map, All, IsTrue, IfOk};
ghost use Rattle.cert_model.specs.Fields.{CivilTime};
ghost use Rattle.cert_model.specs.View.{time_view, list_view, entry_view};
ghost use Rattle.cert_judge.specs.ItemGraph.{self_issued_of};
ghost use Rattle.cert_judge.specs.Items.{certificate_item, list_item, item_of};
ghost use Rattle.cert_judge.specs.Standing.{octets_in};
ghost use Rattle.cert_judge.specs.Further.{any_identifier};
ghost use Rattle.cert_judge.specs.Revoking.{Item};
ghost use Rattle.cert_judge.specs.JudgedItems.{IsNodeOf, IsNodeFor, IsJudgedCertificate, IsJudged, as_issued, as_member, as_anchor};

use crate::Vouch;
use crate::items::{CertificateItem, ListItem, ReadItem};
use crate::judging::{further_of, judge_certificate};
use crate::revoking::is_in_force;
use cert_graph::{Node, Place};
use cert_model::fields::EntryFields;
use jiff::civil::DateTime;
use std::alloc::{AllocError, Global};

/// A certificate: its octets, the parts of it that links go by, and what is judged of it by itself.
/// The parts are those of `CertificateItem`; `serial` is the content octets of the INTEGER.
#[derive(Drop)]
pub struct JudgedCertificate<'a> {
    pub octets: &'a [u8],
    pub issuer: &'a [u8],
    pub subject: &'a [u8],
    pub key: &'a [u8],
    pub authority_key_id: Option<&'a [u8]>,
    pub subject_key_id: Option<&'a [u8]>,
    pub serial: &'a [u8],
    /// What is judged of it if its further critical extensions are processed.
    pub node: Node,
    /// The identifiers of these extensions: critical, and not judged here.
    pub further: Vec<&'a [u8]>,
}

impl JudgedCertificate<'_> {
    /// Whether its further critical extensions are processed.
    fn is_processed<V: Vouch>(&self, vouch: &V) -> bool
        ensures { IsTrue result ↔ All ((V.vouches_for vouch.now).Processes self.now.octets.now) (map (λ s. s.now) self.now.further.items) }
    {
        self.further
            .iter()
            .all(|identifier| vouch.processes(self.octets, identifier))
    }

    /// Its node, by what is processed.
    fn node_by<V: Vouch>(&self, vouch: &V) -> Node
        ensures { (moment : CivilTime) (x : Item) → IsJudgedCertificate moment x self.now → IsNodeOf ((V.vouches_for vouch.now).Processes x.octets) moment x result }
    {
        if self.is_processed(vouch) {
            return self.node;
        }
        Node {
            certificate: true,
            usable: false,
            fit: false,
            self_issued: self.node.self_issued,
            limit: None,
        }
    }
}

/// A list: its octets, its issuer, a whole Name element, and the serial numbers of its entries, as
/// content octets, in their order.
#[derive(Drop)]
pub struct JudgedList<'a> {
    pub octets: &'a [u8],
    pub issuer: &'a [u8],
    /// It is current at the moment, and nothing in it says that it must not be read as it is.
    pub in_force: bool,
    pub serials: Vec<&'a [u8]>,
}

/// An item of any class, as it is judged at a moment.
#[derive(Drop)]
pub enum JudgedItem<'a> {
    /// A certificate in its one spelling.
    Certificate(JudgedCertificate<'a>),
    /// A revocation list in its one spelling.
    List(JudgedList<'a>),
    /// Something else, of which nothing is kept.
    Other,
}

impl<'a> JudgedItem<'a> {
    /// Its octets; none are kept of what is neither a certificate nor a list.
    pub(crate) fn octets(&self) -> &'a [u8]
        ensures { result.now ≡ octets_in self.now }
    {
        match self {
            JudgedItem::Certificate(certificate) => certificate.octets,
            JudgedItem::List(list) => list.octets,
            JudgedItem::Other => &[],
        }
    }

    /// Its node, by what is processed.
    pub(crate) fn node_by<V: Vouch>(&self, vouch: &V) -> Node
        ensures { IsNodeFor (V.vouches_for vouch.now).Processes self.now result }
    {
        if let JudgedItem::Certificate(certificate) = self {
            return certificate.node_by(vouch);
        }
        Node {
            certificate: false,
            usable: false,
            fit: false,
            self_issued: false,
            limit: None,
        }
    }

    /// What the item shows as one that was issued.
    pub(crate) fn as_issued(&self) -> Place<'a>
        ensures { result ≡ as_issued self.now }
    {
        match self {
            JudgedItem::Certificate(certificate) => Place {
                name: Some(certificate.issuer),
                key: None,
                id: certificate.authority_key_id,
            },
            JudgedItem::List(list) => Place {
                name: Some(list.issuer),
                key: None,
                id: None,
            },
            JudgedItem::Other => Place {
                name: None,
                key: None,
                id: None,
            },
        }
    }

    /// What it shows as an issuer, if it may be fit to be one.
    pub(crate) fn as_member(&self) -> Place<'a>
        ensures { result ≡ as_member self.now }
    {
        match self {
            JudgedItem::Certificate(certificate) if certificate.node.fit => Place {
                name: Some(certificate.subject),
                key: Some(certificate.key),
                id: certificate.subject_key_id,
            },
            _ => Place {
                name: None,
                key: None,
                id: None,
            },
        }
    }

    /// What it shows as an anchor.
    pub(crate) fn as_anchor(&self) -> Place<'a>
        ensures { result ≡ as_anchor self.now }
    {
        match self {
            JudgedItem::Certificate(certificate) => Place {
                name: Some(certificate.subject),
                key: Some(certificate.key),
                id: None,
            },
            _ => Place {
                name: None,
                key: None,
                id: None,
            },
        }
    }
}

fn is_self_issued(item: &CertificateItem<'_>) -> bool
    ensures { result ≡ self_issued_of (certificate_item item.now).class }
{
    item.subject == item.issuer
}

fn certificate_node(
    alloc: Global,
    item: &CertificateItem<'_>,
    moment: &DateTime,
) -> Result<Node, AllocError>
    ensures { IfOk result (IsNodeOf any_identifier (time_view moment.now) (certificate_item item.now)) }
{
    let judged = judge_certificate(alloc, &item.fields, moment)?;
    let self_issued = is_self_issued(item);
    Ok(Node {
        certificate: true,
        usable: judged.usable,
        fit: judged.fit,
        self_issued,
        limit: judged.limit,
    })
}

fn serials_of<'a>(alloc: Global, entries: &[EntryFields<'a>]) -> Result<Vec<&'a [u8]>, AllocError>
    ensures { IfOk result (λ serials. map (λ s. s.now) serials.items ≡ map (λ e. (entry_view e).serial) entries.now) }
{
    let mut serials = Vec::with_capacity(alloc, entries.len())?;
    for entry in entries {
        serials.push(entry.serial)?;
    }
    Ok(serials)
}

fn judged_certificate<'a>(
    alloc: Global,
    item: &CertificateItem<'a>,
    moment: &DateTime,
) -> Result<JudgedItem<'a>, AllocError>
    ensures { IfOk result (IsJudged (time_view moment.now) (certificate_item item.now)) }
{
    let node = certificate_node(alloc, item, moment)?;
    let further = further_of(alloc, &item.fields.extensions)?;
    Ok(JudgedItem::Certificate(JudgedCertificate {
        octets: item.octets,
        issuer: item.issuer,
        subject: item.subject,
        key: item.key,
        authority_key_id: item.authority_key_id,
        subject_key_id: item.subject_key_id,
        serial: item.fields.serial,
        node,
        further,
    }))
}

fn judged_list<'a>(
    alloc: Global,
    item: &ListItem<'a>,
    moment: &DateTime,
) -> Result<JudgedItem<'a>, AllocError>
    ensures { IfOk result (IsJudged (time_view moment.now) (list_item item.now)) }
{
    let serials = serials_of(alloc, &item.fields.entries)?;
    let in_force = is_in_force(&item.fields, moment);
    Ok(JudgedItem::List(JudgedList {
        octets: item.octets,
        issuer: item.issuer,
        in_force,
        serials,
    }))
}

/// Judges an item by itself at a moment in UTC (RFC 5280, 6.1.3, 6.1.4 and 6.3). Which further
/// extensions are processed is not asked here: `nodes_by` asks who vouches.
///
/// The only error is out of memory. It costs a sorted set of a certificate's extensions, or a step
/// for each entry of a list.
pub fn judge_item<'a>(
    alloc: Global,
    item: &ReadItem<'a>,
    moment: &DateTime,
) -> Result<JudgedItem<'a>, AllocError>
    ensures { IfOk result (IsJudged (time_view moment.now) (item_of item.now)) }
{
    match item {
        ReadItem::Certificate(item) => judged_certificate(alloc, item, moment),
        ReadItem::List(item) => judged_list(alloc, item, moment),
        ReadItem::Other(_) => Ok(JudgedItem::Other),
    }
}
