//! `X509Extension` (RFC 5280, 4.1 and 4.2).

ghost use Rattle.std.specs.Prelude.{◌≡◌, ◌+◌, ◌^◌, ◌<◌, ◌≤◌, length, IfOk};
ghost use Rattle.asn1_core.specs.Counts.{attempts};
ghost use Rattle.asn1_any.specs.Views.{any_of};
ghost use Rattle.x509_core.specs.Answers.{Gives};
ghost use Rattle.x509_core.specs.Reading.{next};
ghost use Rattle.x509_names.specs.Reading.{octets_in};
ghost use Rattle.x509_ext_parse.specs.Cases.{HoldsNoMemory};
ghost use Rattle.x509_ext_parse.specs.View.{HasCountedElements, parsed_view};
ghost use Rattle.x509_ext.specs.Fields.{reading_of};
ghost use Rattle.x509_ext.specs.Reading.{boolean_in, critical_at, extension_in};
ghost use Rattle.x509_ext.specs.View.{extension_view, extension_error, IsCountedExtension, WantsNoMemory};

use asn1_any::{Any, Element};
use asn1_core::{Err as Refusal, HeaderCount, OutOfMemory};
use asn1_oid::Oid;
use std::alloc::Global;
use x509_core::{Parts, X509Error, leaf_of, parts_of};
use x509_ext_parse::{ParsedExtension, parse_extension};
use x509_items::Copies;
use x509_names::next_oid;

/// An extension (RFC 5280, 4.2), borrowed from the octets that it was read from.
#[derive(Debug, Drop, PartialEq, Eq)]
pub struct X509Extension<'a> {
    /// The identifier of the extension, `extnID`.
    pub oid: Oid<'a>,
    /// The critical flag: whoever doesn't process the extension must reject the certificate or list
    /// (RFC 5280, 4.2).
    pub critical: bool,
    /// The content of `extnValue`: the encoding of the value.
    pub value: &'a [u8],
    parsed_extension: ParsedExtension<'a>,
}

impl<'a> X509Extension<'a> {
    /// Makes an extension from its parts.
    pub fn new(
        oid: Oid<'a>,
        critical: bool,
        value: &'a [u8],
        parsed_extension: ParsedExtension<'a>,
    ) -> X509Extension<'a>
        ensures { result ≡ record { oid = oid.entry; critical = critical; value = value.entry; parsed_extension = parsed_extension.entry } }
    {
        X509Extension {
            oid,
            critical,
            value,
            parsed_extension,
        }
    }

    /// A copy that borrows the same octets as the extension.
    ///
    /// # Errors
    ///
    /// Out of memory, for the vectors of a parsed value.
    pub fn clone(&self, alloc: Global) -> Result<X509Extension<'a>, OutOfMemory>
        ensures value { IfOk result (λ copy. extension_view copy ≡ extension_view self.now) }
        ensures error { IfOk result (λ copy. extension_error copy ≡ extension_error self.now) }
    {
        let oid = self.oid.clone(alloc)?;
        let parsed_extension = self.parsed_extension.clone(alloc)?;
        Ok(X509Extension {
            oid,
            critical: self.critical,
            value: self.value,
            parsed_extension,
        })
    }

    /// The parsed value; `ParsedExtension::Unparsed` if the parser was set not to parse values.
    pub fn parsed_extension(&self) -> &ParsedExtension<'a>
        ensures { result.now ≡ self.now.parsed_extension }
    {
        &self.parsed_extension
    }
}

impl<'a> Copies for X509Extension<'a> {
    ghost use Rattle.std.specs.Prelude.{Option};
    ghost use Rattle.asn1_core.specs.declared.error.Error.{Error};
    ghost use Rattle.asn1_core.specs.declared.outcome.Err.{Err as ParseRefusal};
    ghost use Rattle.x509_ext.specs.Fields.{Extension};
    ghost use Rattle.x509_ext.specs.View.{extension_view, extension_error};

    ghost Value = { Extension × Option (ParseRefusal Error) };

    ghost value = { λ e. (extension_view e, extension_error e) };

    fn copy(&self, alloc: Global) -> Result<X509Extension<'a>, OutOfMemory> {
        self.clone(alloc)
    }
}

fn boolean_of(any: Any<'_>) -> Option<bool>
    ensures { result ≡ boolean_in (any_of any.entry) }
{
    if any.tag().0 != 1 || any.header.is_constructed() {
        return None;
    }
    match any.content {
        [octet] => Some(*octet != 0),
        _ => None,
    }
}

/// Reads a BOOLEAN; `false`, without reading, if none is next.
#[tactic(auto, unfolding(crate::specs::Reading::critical_at))]
fn next_critical(parts: &mut Parts<'_>) -> bool
    ensures read { (result, parts.new.octets) ≡ critical_at parts.old.octets }
    ensures ends { length parts.new.octets ≤ length parts.old.octets }
{
    let Some(element) = parts.first() else {
        return false;
    };
    let Some(critical) = boolean_of(element.any) else {
        return false;
    };
    parts.advance();
    critical
}

fn next_octets<'a>(parts: &mut Parts<'a>) -> Result<&'a [u8], Refusal<X509Error>>
    ensures read { Gives (λ v. (v.now, parts.new.octets)) result (next (λ p. octets_in p.element) parts.old.octets) }
{
    let element = parts.next()?;
    leaf_of(4, element.any)
}

// What the value is parsed as, if it is looked into.
fn parsed_value<'a>(
    alloc: Global,
    oid: &Oid<'a>,
    value: &'a [u8],
    deep: bool,
) -> Result<ParsedExtension<'a>, OutOfMemory>
    ensures read { IfOk result (λ p. parsed_view p ≡ reading_of deep oid.now value.now) }
    ensures counted { IfOk result HasCountedElements }
    ensures memory { IfOk result HoldsNoMemory }
{
    if deep {
        parse_extension(alloc, oid, value)
    } else {
        Ok(ParsedExtension::Unparsed)
    }
}

/// Reads the extension in an element; its value is parsed if `deep` is true. Headers within the
/// value aren't counted.
///
/// # Errors
///
/// The error of the first part that is malformed; out of memory.
#[tactic(auto, unfolding(crate::specs::Reading::extension_in))]
pub fn extension_of<'a>(
    alloc: Global,
    element: Element<'a>,
    deep: bool,
    count: &mut HeaderCount,
) -> Result<X509Extension<'a>, Refusal<X509Error>>
    requires { attempts count.old + length element.any.content.now < 2 ^ 128 }
    ensures read { Gives extension_view result (extension_in (reading_of deep) (any_of element.entry.any)) }
    ensures counted { IfOk result IsCountedExtension }
    ensures memory { IfOk result WantsNoMemory }
    ensures grows { attempts count.old ≤ attempts count.new }
    ensures most { attempts count.new ≤ attempts count.old + length element.entry.any.content.now }
{
    let mut parts = parts_of(alloc, 16, element, count)?;
    let oid = next_oid(&mut parts)?;
    let critical = next_critical(&mut parts);
    let value = next_octets(&mut parts)?;
    let parsed_extension = parsed_value(alloc, &oid, value, deep)?;
    Ok(X509Extension {
        oid,
        critical,
        value,
        parsed_extension,
    })
}
