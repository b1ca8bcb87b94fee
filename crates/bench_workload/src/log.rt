//! Certificates as a log's reader wants them.

use crate::digest::Digest;
use crate::failure::Failure;
use crate::parts::{note_extensions, note_time};
use crate::random::Random;
use crate::shapes::{Numbers, Shapes};
use std::alloc::{AllocError, Global};
use x509_parser::FromDer;
use x509_parser::certificate::X509Certificate;
use x509_parser::extensions::GeneralName;

const CERTIFICATES: usize = 160_000;

const FEW: usize = 12;

/// One of the names that the certificate is for, with its kind.
fn note_general_name(
    alloc: Global,
    digest: &mut Digest,
    name: &GeneralName<'_>,
) -> Result<(), AllocError> {
    match name {
        GeneralName::OtherName(kind, octets) => {
            digest.number(0);
            digest.octets(kind.as_bytes());
            digest.octets(octets);
        }
        GeneralName::RFC822Name(address) => {
            digest.number(1);
            digest.octets(address.as_bytes());
        }
        GeneralName::DNSName(host) => {
            digest.number(2);
            digest.octets(host.as_bytes());
        }
        GeneralName::X400Address(element) => {
            digest.number(3);
            digest.octets(element.content);
        }
        GeneralName::DirectoryName(name) => {
            digest.number(4);
            let text = format!(in alloc; "{}", name)?;
            digest.octets(text.as_bytes());
        }
        GeneralName::EDIPartyName(element) => {
            digest.number(5);
            digest.octets(element.content);
        }
        GeneralName::URI(identifier) => {
            digest.number(6);
            digest.octets(identifier.as_bytes());
        }
        GeneralName::IPAddress(octets) => {
            digest.number(7);
            digest.octets(octets);
        }
        GeneralName::RegisteredID(identifier) => {
            digest.number(8);
            digest.octets(identifier.as_bytes());
        }
        GeneralName::Invalid(tag, content) => {
            digest.number(9);
            digest.number(u64::from(tag.0));
            digest.octets(content);
        }
    }
    Ok(())
}

/// The certificate's names: its subject's and its issuer's as text, and the names that it is for.
fn note_names(
    alloc: Global,
    digest: &mut Digest,
    certificate: &X509Certificate<'_>,
) -> Result<(), Failure> {
    let subject = format!(in alloc; "{}", certificate.subject())?;
    let issuer = format!(in alloc; "{}", certificate.issuer())?;
    digest.octets(subject.as_bytes());
    digest.octets(issuer.as_bytes());
    match certificate.subject_alternative_name() {
        Ok(Some(names)) => {
            digest.flag(names.critical);
            for name in &names.value.general_names {
                note_general_name(alloc, digest, name)?;
            }
        }
        Ok(None) => digest.number(10),
        Err(_) => digest.number(11),
    }
    Ok(())
}

/// What the certificate may be used for, and when.
fn note_uses(digest: &mut Digest, certificate: &X509Certificate<'_>) {
    digest.octets(certificate.raw_serial());
    note_time(digest, certificate.validity().not_before);
    note_time(digest, certificate.validity().not_after);
    match certificate.key_usage() {
        Ok(Some(usage)) => {
            digest.flag(usage.critical);
            digest.number(u64::from(usage.value.flags));
        }
        Ok(None) => digest.number(10),
        Err(_) => digest.number(11),
    }
    digest.flag(certificate.is_ca());
}

/// The key, the signature, and each extension.
fn note_parts(digest: &mut Digest, certificate: &X509Certificate<'_>) {
    digest.number(u64::from(certificate.version().0));
    digest.octets(certificate.public_key().raw);
    digest.octets(certificate.signature_algorithm.algorithm.as_bytes());
    digest.number(u64::from(certificate.signature_value.unused_bits));
    digest.octets(certificate.signature_value.content);
    note_extensions(digest, certificate.extensions());
}

/// Reads one certificate after the other, and notes what each says.
pub(crate) fn read_all(
    alloc: Global,
    shapes: &Shapes,
    random: &mut Random,
    small: bool,
) -> Result<Digest, Failure> {
    let count = if small { FEW } else { CERTIFICATES };
    let mut digest = Digest::new();
    let mut octets = Vec::new(alloc);
    for turn in 0..count {
        octets.clear();
        let numbers = Numbers {
            subject: random.number(),
            issuer: random.number() % 64,
            serial: random.number(),
            drawn: random.number(),
        };
        if turn % 16 == 15 {
            shapes.authority.write(&mut octets, &numbers)?;
        } else {
            shapes.write_leaf(&mut octets, turn, &numbers)?;
        }
        match X509Certificate::from_der(alloc, octets.as_slice()) {
            Ok((rest, certificate)) => {
                digest.octets(rest);
                note_names(alloc, &mut digest, &certificate)?;
                note_uses(&mut digest, &certificate);
                note_parts(&mut digest, &certificate);
            }
            Err(_) => return Err(Failure::Unread),
        }
    }
    Ok(digest)
}
