//! Parsers, which parse the values of extensions or leave them.

use crate::called::add_called_of;
use crate::kinds::{Depth, Parser};
use asn1_traits::FromDer;
use rows_hex::Added;
use std::alloc::Global;
use x509_core::X509Result;
use x509_ext::{ParsedExtension, X509Extension, X509ExtensionParser};
use x509_parser::certificate::{
    TbsCertificate, TbsCertificateParser, X509Certificate, X509CertificateParser,
};
use x509_parser::revocation_list::{CertificateRevocationList, CertificateRevocationListParser};
use x509_parser::{parse_crl_der, parse_x509_certificate, parse_x509_crl, parse_x509_der};

/// Adds what is told of what the parser reads.
pub(crate) fn add_parsed(text: &mut String, parser: Parser, octets: &[u8], is_read: bool) -> Added {
    let alloc = *text.allocator();
    let absent = if is_read { "" } else { "refused" };
    match parser {
        Parser::Certificate(depth, call) => {
            add_called_of(text, call, certificate_by(alloc, depth, octets), absent)
        }
        Parser::SignedPart(depth, call) => {
            add_called_of(text, call, signed_part_by(alloc, depth, octets), absent)
        }
        Parser::List(depth, call) => {
            add_called_of(text, call, list_by(alloc, depth, octets), absent)
        }
        Parser::Extension(depth) => add_extension(text, depth, octets),
    }
}

fn certificate_by<'a>(
    alloc: Global,
    depth: Depth,
    octets: &'a [u8],
) -> X509Result<'a, X509Certificate<'a>> {
    match depth {
        Depth::Function => parse_x509_certificate(alloc, octets),
        Depth::ShortFunction => parse_x509_der(alloc, octets),
        Depth::Deep => X509CertificateParser::new().parse(alloc, octets),
        _ => X509CertificateParser::new()
            .with_deep_parse_extensions(false)
            .parse(alloc, octets),
    }
}

fn signed_part_by<'a>(
    alloc: Global,
    depth: Depth,
    octets: &'a [u8],
) -> X509Result<'a, TbsCertificate<'a>> {
    match depth {
        Depth::Deep => TbsCertificateParser::new().parse(alloc, octets),
        Depth::Shallow => TbsCertificateParser::new()
            .with_deep_parse_extensions(false)
            .parse(alloc, octets),
        _ => TbsCertificate::from_der(alloc, octets),
    }
}

fn list_by<'a>(
    alloc: Global,
    depth: Depth,
    octets: &'a [u8],
) -> X509Result<'a, CertificateRevocationList<'a>> {
    match depth {
        Depth::Function => parse_x509_crl(alloc, octets),
        Depth::ShortFunction => parse_crl_der(alloc, octets),
        Depth::Deep => CertificateRevocationListParser::new().parse(alloc, octets),
        _ => CertificateRevocationListParser::new()
            .with_deep_parse_extensions(false)
            .parse(alloc, octets),
    }
}

fn add_extension(text: &mut String, depth: Depth, octets: &[u8]) -> Added {
    let is_deep = matches!(depth, Depth::Deep);
    let parser = X509ExtensionParser::new().with_deep_parse_extensions(is_deep);
    match parser.parse(*text.allocator(), octets) {
        Ok((rest, extension)) => {
            let kind = kind_of(&extension);
            write!(text, "{kind}; rest of {}", rest.len())
        }
        Err(_) => text.push_str("refused"),
    }
}

/// Adds what the values of extensions are parsed as, and how many octets are left.
pub(crate) fn add_kinds(text: &mut String, extensions: &[X509Extension<'_>], rest: &[u8]) -> Added {
    text.push_str("values")?;
    for extension in extensions {
        write!(text, " {}", kind_of(extension))?;
    }
    write!(text, "; rest of {}", rest.len())
}

fn kind_of(extension: &X509Extension<'_>) -> &'static str {
    match extension.parsed_extension() {
        ParsedExtension::UnsupportedExtension { .. } => "unsupported",
        ParsedExtension::ParseError { .. } => "error",
        ParsedExtension::Unparsed => "unparsed",
        _ => "parsed",
    }
}
