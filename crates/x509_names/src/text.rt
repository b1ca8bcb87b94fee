//! Names as text, as x509-parser writes them.

ghost use Rattle.std.specs.Prelude.{◌≡◌, ◌||◌, ◌∷◌, [], Some, map};
ghost use Rattle.std.specs.Fmt.{DisplaysOnOk};
ghost use Rattle.x509_names.specs.NameTexts.{type_text};
ghost use Rattle.x509_names.specs.TextAnswers.{TellsName};
ghost use Rattle.x509_names.specs.View.{attribute_view, set_view, name_view};
ghost use Rattle.x509_names.specs.Writing.{label_of, attribute_piece, set_piece, sets_piece, can_be_shown, set_can_be_shown, sets_can_be_shown, is_nonempty, separator_if};
ghost use Rattle.x509_objects.specs.Registry.{abbreviated};

use crate::attribute::AttributeTypeAndValue;
use crate::labels::Labels;
use crate::name::X509Name;
use crate::relative::RelativeDistinguishedName;
use crate::value_text::{is_shown, write_value};
use asn1_oid::Oid;
use std::alloc::Global;
use std::fmt;
use x509_core::X509Error;
use x509_objects::OidRegistry;

// Whether each value of the sets can be shown.
fn sets_are_shown(sets: &[RelativeDistinguishedName<'_>]) -> bool
    ensures { result ≡ sets_can_be_shown (map set_view sets.now) }
{
    let mut rest = sets.iter();
    while let Some(set) = rest.next() {
        if !set_is_shown(set.iter().as_slice()) {
            return false;
        }
    }
    true
}

fn set_is_shown(attributes: &[AttributeTypeAndValue<'_>]) -> bool
    ensures { result ≡ set_can_be_shown (map attribute_view attributes.now) }
{
    let mut rest = attributes.iter();
    while let Some(attribute) = rest.next() {
        if !is_shown(attribute.attr_value()) {
            return false;
        }
    }
    true
}

// The sets, a comma after each that isn't empty, but the last.
fn write_sets<W: fmt::Write>(
    sets: &[RelativeDistinguishedName<'_>],
    labels: Labels<'_>,
    f: &mut fmt::Formatter<W>,
) -> fmt::Result
    ensures { DisplaysOnOk W.write_str_gives f.old result (Some (sets_piece (label_of labels.entry) (map set_view sets.now))) f.new }
{
    let mut rest = sets.iter();
    let mut begun = false;
    while let Some(set) = rest.next() {
        let attributes = set.iter().as_slice();
        separate(begun, ", ", f)?;
        write_set(attributes, labels, f)?;
        begun = begun_after(begun, attributes);
    }
    Ok(())
}

fn begun_after(begun: bool, attributes: &[AttributeTypeAndValue<'_>]) -> bool
    ensures { result ≡ (begun || is_nonempty attributes.now) }
{
    begun || !attributes.is_empty()
}

// The attributes, a plus sign between two.
fn write_set<W: fmt::Write>(
    attributes: &[AttributeTypeAndValue<'_>],
    labels: Labels<'_>,
    f: &mut fmt::Formatter<W>,
) -> fmt::Result
    ensures { DisplaysOnOk W.write_str_gives f.old result (Some (set_piece (label_of labels.entry) (map attribute_view attributes.now))) f.new }
{
    let mut rest = attributes.iter();
    let mut begun = false;
    while let Some(attribute) = rest.next() {
        separate(begun, " + ", f)?;
        write_attribute(attribute, labels, f)?;
        begun = true;
    }
    Ok(())
}

// The separator, if something was written before.
fn separate<W: fmt::Write>(begun: bool, separator: &str, f: &mut fmt::Formatter<W>) -> fmt::Result
    ensures { DisplaysOnOk W.write_str_gives f.old result (Some (separator_if begun separator.now)) f.new }
{
    if begun {
        f.write_str(separator)
    } else {
        Ok(())
    }
}

fn write_attribute<W: fmt::Write>(
    attribute: &AttributeTypeAndValue<'_>,
    labels: Labels<'_>,
    f: &mut fmt::Formatter<W>,
) -> fmt::Result
    ensures { DisplaysOnOk W.write_str_gives f.old result (Some (attribute_piece (label_of labels.entry) (attribute_view attribute.now))) f.new }
{
    write_type(attribute.attr_type(), labels, f)?;
    f.write_char('=')?;
    write_value(attribute.attr_value(), f)
}

fn write_type<W: fmt::Write>(
    oid: &Oid<'_>,
    labels: Labels<'_>,
    f: &mut fmt::Formatter<W>,
) -> fmt::Result
    ensures { DisplaysOnOk W.write_str_gives f.old result (Some (type_text (label_of labels.entry) oid.now)) f.new }
{
    match labels.label(oid) {
        Some(text) => f.write_str(text),
        None => write!(f, "OID({oid})"),
    }
}

/// Writes attributes as `CN=Some name`, joined by ` + ` within a set and by `, ` between sets.
/// Types have the abbreviations of `oid2abbrev` by the registry of `oid_registry`, else
/// `OID(1.2.3)`.
///
/// Writes `<X509Error: Invalid X.509 name>` if a value can't be shown: a text that isn't UTF-8, or
/// a BMPString that isn't UTF-16. Values aren't escaped, so don't compare names by this text.
impl<'a> fmt::Display for X509Name<'a> {
    ghost use Rattle.std.specs.Prelude.{Some};
    ghost use Rattle.x509_names.specs.NameTexts.{shown_name};
    ghost use Rattle.x509_names.specs.View.{name_view};

    ghost output = { λ name. Some (shown_name (name_view name)) };

    fn fmt<W: fmt::Write>(&self, f: &mut fmt::Formatter<W>) -> fmt::Result {
        let sets = self.iter().as_slice();
        if !sets_are_shown(sets) {
            return f.write_str("<X509Error: Invalid X.509 name>");
        }
        write_sets(sets, Labels::Known, f)
    }
}

// A name whose values can be shown, its types named by a registry.
#[derive(Clone, Copy)]
struct Registered<'n, 'a> {
    name: &'n X509Name<'a>,
    registry: &'n OidRegistry,
}

impl<'n, 'a> fmt::Display for Registered<'n, 'a> {
    ghost use Rattle.std.specs.Prelude.{Some, map};
    ghost use Rattle.x509_names.specs.View.{set_view};
    ghost use Rattle.x509_names.specs.Writing.{sets_piece};
    ghost use Rattle.x509_objects.specs.Registry.{abbreviated};

    ghost output = { λ n. Some (sets_piece (abbreviated n.registry.now) (map set_view n.name.now.rdn_seq.items)) };

    fn fmt<W: fmt::Write>(&self, f: &mut fmt::Formatter<W>) -> fmt::Result {
        write_sets(self.name.iter().as_slice(), Labels::Of(self.registry), f)
    }
}

impl<'a> X509Name<'a> {
    /// The name as text, as `C=FR, O=Some organization, CN=Some name + CN=Other name`. Types have
    /// the abbreviations of `oid2abbrev` by this registry, else `OID(1.2.3)`.
    ///
    /// # Errors
    ///
    /// `InvalidAttributes` if a value can't be shown; `OutOfMemory`.
    pub fn to_string_with_registry(
        &self,
        alloc: Global,
        registry: &OidRegistry,
    ) -> Result<String, X509Error>
        ensures { TellsName (abbreviated registry.now) (name_view self.now) result }
    {
        if !sets_are_shown(self.iter().as_slice()) {
            return Err(X509Error::InvalidAttributes);
        }
        let text = Registered {
            name: self,
            registry,
        }
        .to_string(alloc)?;
        Ok(text)
    }
}
