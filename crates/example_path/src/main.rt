//! Finds the first of the shortest valid paths from the first item of a bundle to an anchor, and checks the answer.
//!
//! The words are the files BUNDLE and ANCHORS. Standard input names the signatures that were verified: a line
//! `ITEM item SIGNER` or `ITEM anchor SIGNER` says that the key of this item or anchor signed this item. Positions count from 0.
#![tactic(auto)]

mod verified;

use crate::verified::{Signature, Verified};
use anyhow::{Context, Result, bail};
use asn1_traits::FromDer;
use certcheck::{Answer, Bundle, Items, Policy, check};
use certpath_find::find;
use jiff::civil::date;
use std::alloc::Global;
use std::{env, fs};
use x509_certs::X509Certificate;

/// The position of the certificate that the path begins with.
const TARGET: usize = 0;

fn main(rt: HostRuntime) -> Result<()> {
    let mut words = env::args(&rt)?.skip(1);
    let (Some(bundle), Some(anchors)) = (words.next(), words.next()) else {
        bail!("the words are BUNDLE ANCHORS");
    };
    let items = read_items(&rt, bundle.as_str())?;
    let anchors = read_items(&rt, anchors.as_str())?;
    let verified = read_verified(&rt, &items, &anchors)?;
    print_answer(&rt, &items, &anchors, &verified)
}

/// Finds the path of the first item, checks the answer, and prints both.
fn print_answer(
    rt: &HostRuntime,
    items: &Items,
    anchors: &Items,
    verified: &Verified,
) -> Result<()> {
    let policy = Policy::new(date(2026, 12, 1).at(0, 0, 0, 0), false);
    let answer = answer_of(rt.alloc(), items, anchors, verified, &policy)?;
    let yes = is_accepted(rt.alloc(), items, anchors, verified, &policy, &answer)?;
    print_path(rt, &answer)?;
    println!(rt; "the check says {yes}")?;
    Ok(())
}

/// The answer on the first item.
fn answer_of(
    alloc: Global,
    items: &Items,
    anchors: &Items,
    verified: &Verified,
    policy: &Policy,
) -> Result<Answer> {
    match find(alloc, items, TARGET, anchors, verified, policy) {
        Ok(answer) => Ok(answer),
        Err(_) => bail!("out of memory"),
    }
}

/// What the check says of an answer on the first item.
fn is_accepted(
    alloc: Global,
    items: &Items,
    anchors: &Items,
    verified: &Verified,
    policy: &Policy,
    answer: &Answer,
) -> Result<bool> {
    match check(alloc, items, TARGET, anchors, verified, policy, answer) {
        Ok(yes) => Ok(yes),
        Err(_) => bail!("out of memory"),
    }
}

fn print_path(rt: &HostRuntime, answer: &Answer) -> Result<()> {
    match answer {
        Answer::Path {
            positions,
            anchor,
            ..
        } => println!(rt; "path {positions:?} to anchor {anchor}")?,
        Answer::NoPath { .. } => println!(rt; "no path")?,
        Answer::NoTarget => println!(rt; "item {TARGET} is no certificate")?,
    }
    Ok(())
}

/// The items of a file of DER.
fn read_items(rt: &HostRuntime, name: &str) -> Result<Items> {
    let octets = fs::read(rt, name).context(format_args!("cannot read {name}"))?;
    let mut bundle = Bundle::new(rt.alloc(), u32::MAX);
    bundle.feed(octets.as_slice())?;
    Ok(bundle.finish()?)
}

/// The signatures that the lines of standard input name.
fn read_verified(rt: &HostRuntime, items: &Items, anchors: &Items) -> Result<Verified> {
    let mut signatures = Vec::new(rt.alloc());
    for line in rt.lines(rt.alloc()) {
        let line = line?;
        let Some(signature) = signature_of(rt.alloc(), line.as_str(), items, anchors)? else {
            bail!("a line is ITEM item SIGNER or ITEM anchor SIGNER: {line}");
        };
        signatures.push(signature)?;
    }
    Ok(Verified { signatures })
}

/// The signature that a line names; `None` if it names no item or no certificate.
fn signature_of(
    alloc: Global,
    line: &str,
    items: &Items,
    anchors: &Items,
) -> Result<Option<Signature>> {
    let mut words = line.split(' ');
    let (Some(item), Some(kind), Some(signer)) = (words.next(), words.next(), words.next()) else {
        return Ok(None);
    };
    let signers = if kind == "anchor" { anchors } else { items };
    let (Some(item), Some(signer)) = (item_at(items, item), item_at(signers, signer)) else {
        return Ok(None);
    };
    let (_, certificate) = X509Certificate::from_der(alloc, signer)?;
    let key = Vec::from_slice(alloc, certificate.public_key().raw)?;
    let item = Vec::from_slice(alloc, item)?;
    Ok(Some(Signature { key, item }))
}

/// The item at a position in digits.
fn item_at<'a>(items: &'a Items, position: &str) -> Option<&'a [u8]> {
    let position: usize = position.parse().ok()?;
    if position < items.len() {
        Some(items.get(position))
    } else {
        None
    }
}
