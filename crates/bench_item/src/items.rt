//! Items, each behind the other.

use anyhow::{Result, bail};
use asn1_any::Any;
use asn1_traits::FromDer;
use certcheck::{ItemClass, read_tree};
use certpath_find::read_typed;
use der_tree::parse_der;
use std::alloc::Global;
use x509_certs::{X509Certificate, X509CertificateParser};
use x509_core::X509Error;
use x509_lists::CertificateRevocationList;
use x509_names::X509Name;

/// How many items the octets are, each behind the other.
pub(crate) fn count_items(alloc: Global, reader: &str, octets: &[u8]) -> Result<usize> {
    let mut rest = octets;
    for count in 0..=octets.len() {
        if rest.is_empty() {
            return Ok(count);
        }
        let after = match reader {
            "objects" => after_object(alloc, rest),
            "typed" => after_typed::<X509Certificate<'_>>(alloc, rest),
            "plain" => after_plain(alloc, rest),
            "list" => after_typed::<CertificateRevocationList<'_>>(alloc, rest),
            "names" => after_typed::<X509Name<'_>>(alloc, rest),
            "tree" | "road" => after_item(alloc, reader, rest),
            _ => bail!("no file is read as {reader:?}"),
        };
        let Some(after) = after else {
            bail!("no item begins {} octets before the end", rest.len());
        };
        rest = after;
    }
    bail!("more items than octets")
}

/// What is left behind an object.
fn after_object(alloc: Global, octets: &[u8]) -> Option<&[u8]> {
    match parse_der(alloc, octets) {
        Ok((rest, _)) => Some(rest),
        Err(_) => None,
    }
}

/// What is left behind a value of the type.
fn after_typed<'a, T: FromDer<'a, X509Error> + Drop>(
    alloc: Global,
    octets: &'a [u8],
) -> Option<&'a [u8]> {
    match T::from_der(alloc, octets) {
        Ok((rest, _)) => Some(rest),
        Err(_) => None,
    }
}

/// What is left behind a certificate, read as its types, the values of its extensions unparsed.
fn after_plain(alloc: Global, octets: &[u8]) -> Option<&[u8]> {
    let parser = X509CertificateParser::new().with_deep_parse_extensions(false);
    match parser.parse(alloc, octets) {
        Ok((rest, _)) => Some(rest),
        Err(_) => None,
    }
}

/// What is left behind an item that is a certificate by `read_tree`, or by `read_typed`.
fn after_item<'a>(alloc: Global, reader: &str, octets: &'a [u8]) -> Option<&'a [u8]> {
    let Ok((rest, _)) = Any::from_der(octets) else {
        return None;
    };
    let size = octets.len().saturating_sub(rest.len());
    let item = &octets[..size];
    let class = if reader == "tree" {
        read_tree(alloc, item)
    } else {
        read_typed(alloc, item)
    };
    match class {
        Ok(ItemClass::Certificate(_)) => Some(rest),
        _ => None,
    }
}
