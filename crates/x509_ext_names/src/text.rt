//! General names as text.

ghost use Rattle.std.specs.Prelude.{◌≡◌, ◌++◌, Some, codes, decimal};
ghost use Rattle.std.specs.Fmt.{DisplaysOnOk};
ghost use Rattle.x509_items.specs.Texts.{serial_text};

use crate::general_name::GeneralName;
use asn1_core::Tag;
use std::fmt;
use x509_items::write_octets;

/// Writes the kind, and in parentheses what it holds: `DNSName(host)`, `DirectoryName(CN=Some
/// name)`, `RegisteredID(1.2.3)`, `IPAddress(7f:00:00:01)`.
///
/// What isn't parsed isn't shown, as in `OtherName(1.2.3, [...])` and `X400Address(<unparsed>)`; an
/// element that is no name is `Invalid(tag=9, data=01:02)`.
impl<'a> fmt::Display for GeneralName<'a> {
    ghost use Rattle.std.specs.Prelude.{Some};
    ghost use Rattle.x509_ext_names.specs.GeneralTexts.{general_text};
    ghost use Rattle.x509_ext_names.specs.View.{general_name_view};

    ghost output = { λ name. Some (general_text (general_name_view name)) };

    fn fmt<W: fmt::Write>(&self, f: &mut fmt::Formatter<W>) -> fmt::Result {
        match self {
            GeneralName::OtherName(id, _) => write!(f, "OtherName({id}, [...])"),
            GeneralName::RFC822Name(text) => write!(f, "RFC822Name({text})"),
            GeneralName::DNSName(text) => write!(f, "DNSName({text})"),
            GeneralName::X400Address(_) => f.write_str("X400Address(<unparsed>)"),
            GeneralName::DirectoryName(name) => write!(f, "DirectoryName({name})"),
            GeneralName::EDIPartyName(_) => f.write_str("EDIPartyName(<unparsed>)"),
            GeneralName::URI(text) => write!(f, "URI({text})"),
            GeneralName::IPAddress(octets) => write_address(*octets, f),
            GeneralName::RegisteredID(id) => write!(f, "RegisteredID({id})"),
            GeneralName::Invalid(tag, octets) => write_invalid(*tag, *octets, f),
        }
    }
}

fn write_address<W: fmt::Write>(octets: &[u8], f: &mut fmt::Formatter<W>) -> fmt::Result
    ensures { DisplaysOnOk W.write_str_gives f.old result (Some (codes "IPAddress(" ++ serial_text octets.now ++ codes ")")) f.new }
{
    f.write_str("IPAddress(")?;
    write_octets(octets, f)?;
    f.write_str(")")
}

fn write_invalid<W: fmt::Write>(tag: Tag, octets: &[u8], f: &mut fmt::Formatter<W>) -> fmt::Result
    ensures { DisplaysOnOk W.write_str_gives f.old result
        (Some (codes "Invalid(tag=" ++ decimal tag.0 ++ codes ", data=" ++ serial_text octets.now ++ codes ")")) f.new }
{
    let number = tag.0;
    write!(f, "Invalid(tag={number}, data=")?;
    write_octets(octets, f)?;
    f.write_str(")")
}
