//! The parts of certificates and lists, as they are written (RFC 5280, 4.1).
ghost use Rattle.std.specs.Prelude.{◌≡◌, map, option_map, if◌then◌else◌};
ghost use Rattle.asn1_core.specs.Elements.{element_octets};
ghost use Rattle.cert_model.specs.Octets.{primitive_octets, bit_field_octets, implicit_bits_octets, optional_octets, algorithm_octets, attribute_octets, relative_name_octets, name_octets, key_octets, extension_octets, extensions_octets, several_octets, tagged_extensions_octets, flag_octets};
ghost use Rattle.cert_model.specs.View.{any_view, alg_view, attr_view, name_view, bit_view, key_view, ext_view};

use crate::encode::{
    Both, Each, Element, Encode, Nothing, Octet, Octets, explicit, primitive, sequence, set,
};
use asn1_core::{Class, Tag};
use asn1_device::{DeviceFault, Sink};
use cert_model::fields::{AlgField, AnyField, AttrField, BitField, ExtField, KeyField, NameFields};

/// An element with octets as they are in it.
pub(crate) type Plain<'a> = Element<Octets<'a>>;

/// A BIT STRING (X.690, 8.6).
pub(crate) type Bits<'a> = Element<Both<Octet, Octets<'a>>>;

/// AlgorithmIdentifier (RFC 5280, 4.1.1.2).
pub(crate) type Algorithm<'a> = Element<Both<Plain<'a>, Option<Plain<'a>>>>;

/// Name (RFC 5280, 4.1.2.4).
pub(crate) type Name<'a> = Element<Each<'a, Vec<AttrField<'a>>>>;

/// SubjectPublicKeyInfo (RFC 5280, 4.1.2.7).
pub(crate) type Key<'a> = Element<Both<Algorithm<'a>, Bits<'a>>>;

/// Extensions (RFC 5280, 4.1.2.9).
pub(crate) type Extensions<'a> = Element<Each<'a, ExtField<'a>>>;

// AttributeTypeAndValue (RFC 5280, 4.1.2.4)
type Attribute<'a> = Element<Both<Plain<'a>, Plain<'a>>>;

// Extension (RFC 5280, 4.1)
type Extension<'a> = Element<
    Both<Plain<'a>, Both<Option<Element<Octet>>, Both<Plain<'a>, Nothing>>>,
>;

/// Any element.
pub(crate) fn any<'a>(field: AnyField<'a>) -> Plain<'a>
    ensures { ⟦<Plain<'a> as Encode>⟧.octets result ≡ element_octets (any_view field.entry) }
{
    Element {
        class: field.class,
        constructed: field.constructed,
        tag: field.tag,
        content: Octets(field.content),
    }
}

/// A primitive element of the universal class, and its content.
pub(crate) fn plain<'a>(tag: Tag, content: &'a [u8]) -> Plain<'a>
    ensures { ⟦<Plain<'a> as Encode>⟧.octets result ≡ primitive_octets tag.0 content.now }
{
    primitive(tag, Octets(content))
}

/// A BIT STRING.
pub(crate) fn bits<'a>(field: BitField<'a>) -> Bits<'a>
    ensures { ⟦<Bits<'a> as Encode>⟧.octets result ≡ bit_field_octets (bit_view field.entry) }
{
    primitive(
        Tag::BitString,
        Both(Octet(field.unused), Octets(field.octets)),
    )
}

/// `[n] IMPLICIT BIT STRING OPTIONAL`.
pub(crate) fn implicit_bits<'a>(tag: u32, field: Option<BitField<'a>>) -> Option<Bits<'a>>
    ensures { ⟦<Option<Bits<'a>> as Encode>⟧.octets result ≡ optional_octets (implicit_bits_octets tag) (option_map bit_view field.entry) }
{
    match field {
        Some(bits) => Some(Element {
            class: Class::ContextSpecific,
            constructed: false,
            tag: Tag(tag),
            content: Both(Octet(bits.unused), Octets(bits.octets)),
        }),
        None => None,
    }
}

// An element that may be absent.
fn optional<'a>(field: Option<AnyField<'a>>) -> Option<Plain<'a>>
    ensures { ⟦<Option<Plain<'a>> as Encode>⟧.octets result ≡ optional_octets element_octets (option_map any_view field.entry) }
{
    match field {
        Some(field) => Some(any(field)),
        None => None,
    }
}

/// AlgorithmIdentifier.
pub(crate) fn algorithm<'a>(field: AlgField<'a>) -> Algorithm<'a>
    ensures { ⟦<Algorithm<'a> as Encode>⟧.octets result ≡ algorithm_octets (alg_view field.entry) }
{
    sequence(Both(
        plain(Tag::Oid, field.identifier),
        optional(field.parameters),
    ))
}

/// Name.
#[tactic(auto, using(crate::proofs::Spelled::name_spelled))]
pub(crate) fn name<'a>(fields: &'a NameFields<'a>) -> Name<'a>
    ensures { ⟦<Name<'a> as Encode>⟧.octets result ≡ name_octets (name_view fields.now) }
{
    sequence(Each(fields.sets.as_slice()))
}

/// SubjectPublicKeyInfo.
pub(crate) fn key<'a>(field: KeyField<'a>) -> Key<'a>
    ensures { ⟦<Key<'a> as Encode>⟧.octets result ≡ key_octets (key_view field.entry) }
{
    sequence(Both(algorithm(field.algorithm), bits(field.key)))
}

/// Extensions, or nothing if there is none.
#[tactic(auto, using(crate::proofs::Spelled::extensions_spelled))]
pub(crate) fn extensions<'a>(fields: &'a [ExtField<'a>]) -> Option<Extensions<'a>>
    ensures { ⟦<Option<Extensions<'a>> as Encode>⟧.octets result ≡ several_octets extensions_octets (map ext_view fields.now) }
{
    if fields.is_empty() {
        None
    } else {
        Some(sequence(Each(fields)))
    }
}

/// `[n] EXPLICIT Extensions OPTIONAL`.
#[tactic(auto, using(crate::proofs::Spelled::tagged_extensions_spelled))]
pub(crate) fn tagged_extensions<'a>(
    tag: u32,
    fields: &'a [ExtField<'a>],
) -> Option<Element<Extensions<'a>>>
    ensures { ⟦<Option<Element<Extensions<'a>>> as Encode>⟧.octets result ≡ tagged_extensions_octets tag (map ext_view fields.now) }
{
    if fields.is_empty() {
        None
    } else {
        Some(explicit(tag, sequence(Each(fields))))
    }
}

fn attribute<'a>(field: AttrField<'a>) -> Attribute<'a>
    ensures { ⟦<Attribute<'a> as Encode>⟧.octets result ≡ attribute_octets (attr_view field.entry) }
{
    sequence(Both(plain(Tag::Oid, field.identifier), any(field.value)))
}

impl<'a> Encode for AttrField<'a> {
    ghost use Rattle.cert_model.specs.Octets.{attribute_octets};
    ghost use Rattle.cert_model.specs.View.{attr_view};

    ghost octets = { λ f. attribute_octets (attr_view f) };

    fn size(&self) -> Option<usize> {
        attribute(*self).size()
    }

    fn put<S: Sink>(&self, writer: &mut S) -> Result<(), DeviceFault> {
        attribute(*self).put(writer)
    }

    fn before<'w>(&self, whole: &'w [u8]) -> Option<&'w [u8]> {
        attribute(*self).before(whole)
    }
}

// RelativeDistinguishedName
#[tactic(auto, using(crate::proofs::Spelled::relative_name_spelled))]
fn relative_name<'a>(fields: &'a [AttrField<'a>]) -> Element<Each<'a, AttrField<'a>>>
    ensures { ⟦<Element<Each<'a, AttrField<'a>>> as Encode>⟧.octets result ≡ relative_name_octets (map attr_view fields.now) }
{
    set(Each(fields))
}

/// RelativeDistinguishedName.
impl<'a> Encode for Vec<AttrField<'a>> {
    ghost use Rattle.std.specs.Prelude.{map};
    ghost use Rattle.cert_model.specs.Octets.{relative_name_octets};
    ghost use Rattle.cert_model.specs.View.{attr_view};

    ghost octets = { λ v. relative_name_octets (map attr_view v.items) };

    fn size(&self) -> Option<usize> {
        relative_name(self.as_slice()).size()
    }

    fn put<S: Sink>(&self, writer: &mut S) -> Result<(), DeviceFault> {
        relative_name(self.as_slice()).put(writer)
    }

    fn before<'w>(&self, whole: &'w [u8]) -> Option<&'w [u8]> {
        relative_name(self.as_slice()).before(whole)
    }
}

// BOOLEAN DEFAULT FALSE: nothing if false (X.690, 11.1 and 11.5)
fn critical(critical: bool) -> Option<Element<Octet>>
    ensures { ⟦<Option<Element<Octet>> as Encode>⟧.octets result ≡ flag_octets critical }
{
    if critical {
        Some(primitive(Tag::Boolean, Octet(255)))
    } else {
        None
    }
}

fn extension<'a>(field: ExtField<'a>) -> Extension<'a>
    ensures { ⟦<Extension<'a> as Encode>⟧.octets result ≡ extension_octets (ext_view field.entry) }
{
    let value = Both(plain(Tag::OctetString, field.value), Nothing);
    sequence(Both(
        plain(Tag::Oid, field.identifier),
        Both(critical(field.critical), value),
    ))
}

impl<'a> Encode for ExtField<'a> {
    ghost use Rattle.cert_model.specs.Octets.{extension_octets};
    ghost use Rattle.cert_model.specs.View.{ext_view};

    ghost octets = { λ f. extension_octets (ext_view f) };

    fn size(&self) -> Option<usize> {
        extension(*self).size()
    }

    fn put<S: Sink>(&self, writer: &mut S) -> Result<(), DeviceFault> {
        extension(*self).put(writer)
    }

    fn before<'w>(&self, whole: &'w [u8]) -> Option<&'w [u8]> {
        extension(*self).before(whole)
    }
}
