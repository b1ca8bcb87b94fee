//! `X509CriAttribute` (RFC 2986, 4.1), and its parsed values (RFC 2985, 5.4).

ghost use Rattle.std.specs.Prelude.{◌≡◌, IfOk, map, string_bytes};
ghost use Rattle.x509_ext.specs.View.{extension_view, extension_error};
ghost use Rattle.x509_requests.specs.View.{values_view, values_errors, attribute_view};

use asn1_core::OutOfMemory;
use asn1_oid::Oid;
use std::alloc::Global;
use x509_ext::{X509Extension, copy_extensions};

/// The extensions that are requested for the certificate (RFC 2985, 5.4.2).
#[derive(Debug, Drop, PartialEq, Eq)]
pub struct ExtensionRequest<'a> {
    /// The extensions, in the order of the encoding.
    pub extensions: Vec<X509Extension<'a>>,
}

impl<'a> ExtensionRequest<'a> {
    /// A copy that borrows the same octets as the extensions.
    ///
    /// # Errors
    ///
    /// Out of memory.
    pub fn clone(&self, alloc: Global) -> Result<ExtensionRequest<'a>, OutOfMemory>
        ensures value { IfOk result (λ copy. map extension_view copy.extensions.items ≡ map extension_view self.now.extensions.items) }
        ensures errors { IfOk result (λ copy. map extension_error copy.extensions.items ≡ map extension_error self.now.extensions.items) }
    {
        let extensions = copy_extensions(alloc, self.extensions.as_slice())?;
        Ok(ExtensionRequest { extensions })
    }
}

/// A password with which revocation of the certificate may be requested (RFC 2985, 5.4.1).
#[derive(Debug, Drop, PartialEq, Eq)]
pub struct ChallengePassword(pub String);

impl ChallengePassword {
    /// A copy of the text.
    ///
    /// # Errors
    ///
    /// Out of memory.
    pub fn clone(&self, alloc: Global) -> Result<ChallengePassword, OutOfMemory>
        ensures { IfOk result (λ copy. string_bytes copy.0 ≡ string_bytes self.now.0) }
    {
        let text = String::from_str(alloc, self.0.as_str())?;
        Ok(ChallengePassword(text))
    }
}

/// The parsed values of an attribute, a variant for each known type.
#[derive(Debug, Drop, PartialEq, Eq)]
pub enum ParsedCriAttribute<'a> {
    /// A challenge password.
    ChallengePassword(ChallengePassword),
    /// An extension request.
    ExtensionRequest(ExtensionRequest<'a>),
    /// The attribute's type is unknown.
    UnsupportedAttribute,
}

impl<'a> ParsedCriAttribute<'a> {
    /// A copy that borrows the same octets as the values.
    ///
    /// # Errors
    ///
    /// Out of memory.
    pub fn clone(&self, alloc: Global) -> Result<ParsedCriAttribute<'a>, OutOfMemory>
        ensures value { IfOk result (λ copy. values_view copy ≡ values_view self.now) }
        ensures errors { IfOk result (λ copy. values_errors copy ≡ values_errors self.now) }
    {
        let copy = match self {
            ParsedCriAttribute::ChallengePassword(password) =>
                ParsedCriAttribute::ChallengePassword(password.clone(alloc)?),
            ParsedCriAttribute::ExtensionRequest(request) => ParsedCriAttribute::ExtensionRequest(
                request.clone(alloc)?,
            ),
            ParsedCriAttribute::UnsupportedAttribute => ParsedCriAttribute::UnsupportedAttribute,
        };
        Ok(copy)
    }
}

/// An attribute of a request (RFC 2986, 4.1), borrowed from the octets that it was read from.
#[derive(Debug, Drop, PartialEq, Eq)]
pub struct X509CriAttribute<'a> {
    /// The attribute's type.
    pub oid: Oid<'a>,
    /// The octets of its values, from the header of their SET to where reading stopped.
    pub value: &'a [u8],
    pub(crate) parsed_attribute: ParsedCriAttribute<'a>,
}

impl<'a> X509CriAttribute<'a> {
    /// The parsed values; `UnsupportedAttribute` for an unknown type.
    pub fn parsed_attribute(&self) -> &ParsedCriAttribute<'a>
        ensures { result.now ≡ self.now.parsed_attribute }
    {
        &self.parsed_attribute
    }

    /// A copy: it borrows what the attribute borrows.
    pub fn clone(&self, alloc: Global) -> Result<X509CriAttribute<'a>, OutOfMemory>
        ensures value { IfOk result (λ copy. attribute_view copy ≡ attribute_view self.now) }
        ensures errors { IfOk result (λ copy. values_errors copy.parsed_attribute ≡ values_errors self.now.parsed_attribute) }
    {
        let oid = self.oid.clone(alloc)?;
        let parsed_attribute = self.parsed_attribute.clone(alloc)?;
        Ok(X509CriAttribute {
            oid,
            value: self.value,
            parsed_attribute,
        })
    }
}
