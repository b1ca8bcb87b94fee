//! Which certificates of the issuer's name have a key identifier that differs from the one that a
//! certificate names (RFC 5280, 4.2.1.1).

ghost use Rattle.std.specs.Prelude.{◌≡◌, List, map, IfOk, OnOk, Some};
ghost use Rattle.cert_graph.specs.Entries.{IsAt};
ghost use Rattle.cert_judge.specs.Items.{certificate_of, item_of};
ghost use Rattle.cert_judge.specs.declared.items.ReadItem.{ReadItem};
ghost use Rattle.cert_judge.specs.declared.items.ReadItem.TheVariants.{Certificate as certificate_read};
ghost use Rattle.cert_reasons.specs.declared.links.Unlinked.TheVariants.{KeyIdsDiffer};
ghost use Rattle.certpath_why.specs.Against.{IsLineOf};
ghost use Rattle.certpath_why.specs.Cuts.{AreSpaced, IsCutOf};
ghost use Rattle.certpath_why.specs.Groups.{AreDifferingKept, IsDiffering};
ghost use Rattle.certpath_why.specs.Kinds.{AddsTails};
ghost use Rattle.certpath_why.specs.Named.{AreIssuers};
ghost use Rattle.certpath_why.specs.Reached.{HasSubject};
ghost use Rattle.certpath_why.specs.Sides.{others_of};

use crate::cuts::{Cut, ranges_but};
use crate::kinds::id_kind;
use crate::links::add_cut;
use crate::named::Issuers;
use crate::side::Side;
use asn1_core::OutOfMemory;
use cert_judge::{CertificateItem, ReadItem};
use cert_reasons::Unlinked;
use std::alloc::{AllocError, Global};
use std::collections::BTreeMap;

/// Those of the certificates of the issuer's name whose key identifiers differ: those that have one,
/// but for those that have the one that the certificate names. It costs a look-up of that one, and
/// a binary search for each that has it; nothing if the certificate names no key.
fn differing_among<'a>(
    alloc: Global,
    certificate: &CertificateItem<'a>,
    issuers: &Issuers<'a>,
) -> Result<Cut, AllocError>
    requires { AreSpaced 0 issuers.now.keyed.items }
    ensures { (items : List ReadItem) → AreIssuers items certificate.now.issuer.now issuers.now
        → IfOk result (IsCutOf (IsDiffering (map item_of items) (certificate_of certificate.now))) }
{
    let Some(id) = certificate.authority_key_id else {
        return Ok(Cut::new(alloc));
    };
    let agreeing = issuers.with_id(alloc, id)?;
    let differing = ranges_but(alloc, &issuers.keyed, &agreeing)?;
    Ok(differing)
}

/// Adds the end of the line of those of the issuer's name whose key identifiers differ. They are
/// worked out once for each key identifier that certificates name for an issuer.
pub(crate) fn add_differing<'a>(
    tails: &mut Vec<String>,
    alloc: Global,
    kept: &mut BTreeMap<Vec<usize>, Cut>,
    _items: &[ReadItem<'_>],
    side: &Side<'_, 'a>,
    _place: usize,
    certificate: &CertificateItem<'a>,
) -> Result<(), OutOfMemory>
    requires kept { AreDifferingKept _items.now (others_of side.now) kept.old }
    requires named { AreIssuers side.now.others.now side.now.name.now side.now.named.now }
    requires first { HasSubject (others_of side.now) side.now.name.now side.now.first }
    requires name { side.now.name.now ≡ certificate.now.issuer.now }
    requires at { IsAt _items.now _place (λ x. x ≡ certificate_read certificate.now) }
    ensures kept { OnOk result (AreDifferingKept _items.now (others_of side.now) kept.new) }
    ensures tails { OnOk result (AddsTails (λ front. IsLineOf front (Some KeyIdsDiffer) (IsDiffering (others_of side.now) (certificate_of certificate.now))) tails.old.items tails.new.items) }
{
    let kind = id_kind(alloc, side.first, certificate)?;
    let what = Some(Unlinked::KeyIdsDiffer);
    if let Some(differing) = kept.get(&kind) {
        add_cut(tails, alloc, what, differing)?;
        return Ok(());
    }
    let differing = differing_among(alloc, certificate, side.named)?;
    add_cut(tails, alloc, what, &differing)?;
    kept.insert(kind, differing)?;
    Ok(())
}
