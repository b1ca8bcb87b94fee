//! Names of flags.

ghost use Rattle.std.specs.Prelude.{◌≡◌, ◌≤◌, ◌||◌, Some};
ghost use Rattle.std.specs.Fmt.{DisplaysOnOk};
ghost use Rattle.x509_ext_flags.specs.Texts.{name_piece, flags_text};

use crate::bits::flag_at;
use crate::flags::{KeyUsage, NSCertType, ReasonFlags};
use std::fmt;

/// A set of flags with names.
pub(crate) trait FlagNames {
    ghost use Rattle.std.specs.Prelude.{◌≡◌, List, ℕ};

    /// The name of a flag by its bit.
    ghost name_of: { ℕ → List ℕ };

    /// The name of a flag by its bit.
    fn name(bit: u32) -> &'static str
        ensures { result.now ≡ name_of bit };
}

impl FlagNames for KeyUsage {
    ghost use Rattle.x509_ext_flags.specs.Texts.{usage_name};

    ghost name_of = { usage_name };

    fn name(bit: u32) -> &'static str {
        match bit {
            0 => "Digital Signature",
            1 => "Non Repudiation",
            2 => "Key Encipherment",
            3 => "Data Encipherment",
            4 => "Key Agreement",
            5 => "Key Cert Sign",
            6 => "CRL Sign",
            7 => "Encipher Only",
            8 => "Decipher Only",
            _ => "",
        }
    }
}

impl FlagNames for ReasonFlags {
    ghost use Rattle.x509_ext_flags.specs.Texts.{reason_name};

    ghost name_of = { reason_name };

    fn name(bit: u32) -> &'static str {
        match bit {
            0 => "Unused",
            1 => "Key Compromise",
            2 => "CA Compromise",
            3 => "Affiliation Changed",
            4 => "Superseded",
            5 => "Cessation Of Operation",
            6 => "Certificate Hold",
            7 => "Privilege Withdrawn",
            8 => "AA Compromise",
            _ => "",
        }
    }
}

impl FlagNames for NSCertType {
    ghost use Rattle.x509_ext_flags.specs.Texts.{netscape_name};

    ghost name_of = { netscape_name };

    fn name(bit: u32) -> &'static str {
        match bit {
            0 => "SSL CLient",
            1 => "SSL Server",
            2 => "S/MIME",
            3 => "Object Signing",
            4 => "Reserved",
            5 => "SSL CA",
            6 => "S/MIME CA",
            7 => "Object Signing CA",
            _ => "",
        }
    }
}

// The name of a flag that is set, after a comma if something was written before.
fn write_name<W: fmt::Write>(
    set: bool,
    begun: bool,
    name: &str,
    f: &mut fmt::Formatter<W>,
) -> fmt::Result
    ensures { DisplaysOnOk W.write_str_gives f.old result (Some (name_piece set begun name.now)) f.new }
{
    if !set {
        return Ok(());
    }
    if begun {
        f.write_str(", ")?;
    }
    f.write_str(name)
}

fn either(a: bool, b: bool) -> bool
    ensures { result ≡ (a || b) }
{
    a || b
}

/// Writes the names of the flags among the first `width` that are set, in the order of their bits.
pub(crate) fn write_names<T: FlagNames, W: fmt::Write>(
    flags: u16,
    width: u32,
    f: &mut fmt::Formatter<W>,
) -> fmt::Result
    requires { width ≤ 16 }
    ensures { DisplaysOnOk W.write_str_gives f.old result (Some (flags_text T.name_of width flags)) f.new }
{
    let mut begun = false;
    let mut bit = 0;
    while bit < width {
        let set = flag_at(flags, bit);
        write_name(set, begun, T::name(bit), f)?;
        begun = either(begun, set);
        bit += 1;
    }
    Ok(())
}

/// Writes the names of the bits that are set, as `Digital Signature, Key Encipherment`; bits from
/// the tenth on have no name.
impl fmt::Display for KeyUsage {
    ghost use Rattle.std.specs.Prelude.{Some};
    ghost use Rattle.x509_ext_flags.specs.Texts.{usage_text};

    ghost output = { λ usage. Some (usage_text usage.flags) };

    fn fmt<W: fmt::Write>(&self, f: &mut fmt::Formatter<W>) -> fmt::Result {
        write_names::<KeyUsage, W>(self.flags, 9, f)
    }
}

/// Writes the names of the bits that are set, as `Key Compromise`; bits from the tenth on have no
/// name.
impl fmt::Display for ReasonFlags {
    ghost use Rattle.std.specs.Prelude.{Some};
    ghost use Rattle.x509_ext_flags.specs.Texts.{reasons_text};

    ghost output = { λ reasons. Some (reasons_text reasons.flags) };

    fn fmt<W: fmt::Write>(&self, f: &mut fmt::Formatter<W>) -> fmt::Result {
        write_names::<ReasonFlags, W>(self.flags, 9, f)
    }
}

/// Writes the names of the bits that are set, as `SSL Server`.
impl fmt::Display for NSCertType {
    ghost use Rattle.std.specs.Prelude.{Some};
    ghost use Rattle.x509_ext_flags.specs.Texts.{netscape_text};

    ghost output = { λ kind. Some (netscape_text kind.0) };

    fn fmt<W: fmt::Write>(&self, f: &mut fmt::Formatter<W>) -> fmt::Result {
        write_names::<NSCertType, W>(u16::from(self.0), 8, f)
    }
}
