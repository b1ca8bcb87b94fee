//! Items and anchors with their directories: which of them have a subject, and which lists an
//! issuer.

ghost use Rattle.std.specs.Prelude.{◌≡◌, ◌↔◌, map, IfOk, IfSome, IsNone, IsTrue};
ghost use Rattle.cert_graph.specs.Entries.{IsAt};
ghost use Rattle.cert_judge.specs.Items.{item_of, IsListWith};
ghost use Rattle.cert_judge.specs.declared.items.ReadItem.TheVariants.{Certificate as certificate_read};
ghost use Rattle.cert_reasons.specs.Listed.{IsOf};
ghost use Rattle.cert_reasons.specs.Linking.{HasItsLists};
ghost use Rattle.certpath_why.specs.ByIssuer.{AreByIssuer};
ghost use Rattle.certpath_why.specs.Found.{IsFound, IsCertificateRead, subject_place, list_place};
ghost use Rattle.certpath_why.specs.Directories.{IsDirectory};
ghost use Rattle.certpath_why.specs.Reached.{ArePositions, HasSubject, IsCertificateAt};

use crate::by_issuer::ListsByIssuer;
use crate::directory::Directory;
use crate::names::Labels;
use asn1_core::OutOfMemory;
use cert_graph::Place;
use cert_judge::{CertificateItem, Policy, ReadItem};
use cert_reasons::Linking;
use std::alloc::{AllocError, Global};

/// Items and anchors, and the positions of each subject and of the lists of each issuer among them.
#[derive(Drop)]
pub(crate) struct Found<'b, 'a> {
    pub(crate) items: &'b [ReadItem<'a>],
    pub(crate) anchors: &'b [ReadItem<'a>],
    pub(crate) labels: Labels,
    subjects: Directory<'a>,
    lists: Directory<'a>,
    roots: Directory<'a>,
}

/// Returns the place of an item by its subject, if it is a certificate.
fn subject_place<'a>(item: &ReadItem<'a>) -> Place<'a>
    ensures { result ≡ subject_place item.now }
{
    let name = match item {
        ReadItem::Certificate(certificate) => Some(certificate.subject),
        _ => None,
    };
    Place {
        name,
        key: None,
        id: None,
    }
}

/// Returns the place of an item by its issuer, if it is a list.
fn list_place<'a>(item: &ReadItem<'a>) -> Place<'a>
    ensures { result ≡ list_place item.now }
{
    let name = match item {
        ReadItem::List(list) => Some(list.issuer),
        _ => None,
    };
    Place {
        name,
        key: None,
        id: None,
    }
}

/// The certificates by their subjects.
fn directory_of<'a>(alloc: Global, items: &[ReadItem<'a>]) -> Result<Directory<'a>, AllocError>
    ensures { IfOk result (λ d. IsDirectory (map subject_place items.now) d.buckets.items) }
{
    let mut places = Vec::with_capacity(alloc, items.len())?;
    for item in items {
        places.push(subject_place(item))?;
    }
    Directory::new(alloc, &places)
}

/// The lists by their issuers.
fn directory_of_lists<'a>(
    alloc: Global,
    items: &[ReadItem<'a>],
) -> Result<Directory<'a>, AllocError>
    ensures { IfOk result (λ d. IsDirectory (map list_place items.now) d.buckets.items) }
{
    let mut places = Vec::with_capacity(alloc, items.len())?;
    for item in items {
        places.push(list_place(item))?;
    }
    Directory::new(alloc, &places)
}

/// The item at a position, if it is a certificate.
pub(crate) fn certificate_at<'b, 'a>(
    items: &'b [ReadItem<'a>],
    place: usize,
) -> Option<&'b CertificateItem<'a>>
    ensures found { IfSome result (λ c. IsAt items.now place (λ x. x ≡ certificate_read c.now)) }
    ensures only { IsNone result → IsAt items.now place IsCertificateRead → ⊥ }
{
    match items.get(place) {
        Some(ReadItem::Certificate(certificate)) => Some(certificate),
        _ => None,
    }
}

/// Whether the item at a position is a certificate.
pub(crate) fn is_certificate(items: &[ReadItem<'_>], place: usize) -> bool
    ensures { IsTrue result ↔ IsCertificateAt (map item_of items.now) place }
{
    match certificate_at(items, place) {
        Some(_) => true,
        None => false,
    }
}

impl<'b, 'a> Found<'b, 'a> {
    /// Makes the directories of these items and anchors.
    pub(crate) fn new(
        alloc: Global,
        items: &'b [ReadItem<'a>],
        anchors: &'b [ReadItem<'a>],
    ) -> Result<Found<'b, 'a>, OutOfMemory>
        ensures known { IfOk result IsFound }
        ensures items { IfOk result (λ found. found.items.now ≡ items.now) }
        ensures anchors { IfOk result (λ found. found.anchors.now ≡ anchors.now) }
    {
        let labels = Labels::new(alloc)?;
        let subjects = directory_of(alloc, items)?;
        let lists = directory_of_lists(alloc, items)?;
        let roots = directory_of(alloc, anchors)?;
        Ok(Found {
            items,
            anchors,
            labels,
            subjects,
            lists,
            roots,
        })
    }

    /// The positions of the certificates of this subject.
    pub(crate) fn issuers(&self, name: &'a [u8]) -> &[usize]
        requires { IsFound self.now }
        ensures { ArePositions (HasSubject (map item_of self.now.items.now) name.now) result.now }
    {
        self.subjects.positions(name)
    }

    /// The positions of the lists of this issuer.
    pub(crate) fn lists(&self, name: &'a [u8]) -> &[usize]
        requires { IsFound self.now }
        ensures { ArePositions (λ p. IsAt self.now.items.now p (IsListWith (IsOf name.now))) result.now }
    {
        self.lists.positions(name)
    }

    /// A certificate with the lists of its issuer, by those in force of some issuers.
    pub(crate) fn linking<'s>(
        &'s self,
        alloc: Global,
        lists: &'s ListsByIssuer<'a>,
        certificate: &'s CertificateItem<'a>,
        policy: &Policy,
    ) -> Result<Linking<'s, 'a>, AllocError>
        requires known { IsFound self.now }
        requires listed { AreByIssuer self.now.items.now policy.now.moment lists.now }
        ensures items { IfOk result (λ l. l.items.now ≡ self.now.items.now) }
        ensures certificate { IfOk result (λ l. l.certificate.now ≡ certificate.now) }
        ensures policy { IfOk result (λ l. l.policy ≡ policy.now) }
        ensures lists { IfOk result HasItsLists }
    {
        if let Some(lists) = lists.of(certificate.issuer) {
            let linking = Linking::by(alloc, self.items, lists, certificate, policy)?;
            return Ok(linking);
        }
        let places = self.lists(certificate.issuer);
        let linking = Linking::new(alloc, self.items, places, certificate, policy)?;
        Ok(linking)
    }

    /// The positions of the anchors of this subject.
    pub(crate) fn roots(&self, name: &'a [u8]) -> &[usize]
        requires { IsFound self.now }
        ensures { ArePositions (HasSubject (map item_of self.now.anchors.now) name.now) result.now }
    {
        self.roots.positions(name)
    }
}
