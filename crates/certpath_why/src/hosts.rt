//! Which hosts a certificate names, in words (RFC 5280, 4.2.1.6).

ghost use Rattle.std.specs.Prelude.{◌≡◌, ◌++◌, map, OnOk, IfOk, string_bytes};
ghost use Rattle.cert_model.specs.View.{ext_view};
ghost use Rattle.cert_serving.specs.View.{general_name_view};
ghost use Rattle.certpath_why.specs.Appended.{Appends};
ghost use Rattle.certpath_why.specs.Hosts.{address_text, is_host_choice, hosts_among, hosts_words, AreNamesWords, AreHostsWords};
ghost use Rattle.certpath_why.specs.Listed.{shown_part};

use crate::listed::{Part, push_list, push_part};
use crate::names::push_hex;
use asn1_core::OutOfMemory;
use cert_model::fields::ExtField;
use cert_purpose::{Value, value_under};
use cert_reasons::names_of;
use cert_serving::{Choice, GeneralName};
use std::alloc::{AllocError, Global};
use std::net::{Ipv4Addr, Ipv6Addr};

/// subjectAltName, 2.5.29.17: the last arc.
const SUBJECT_ALT_NAME: u8 = 17;

/// Appends an address of 4 or 16 octets as it is usually written, and other octets in hexadecimal.
fn push_address(text: &mut String, octets: &[u8]) -> Result<(), AllocError>
    ensures { OnOk result (string_bytes text.new ≡ string_bytes text.old ++ address_text octets.now) }
{
    if let Ok(four) = <[u8; 4]>::try_from(octets) {
        let address = Ipv4Addr::from_octets(four);
        return write!(text, "{address}");
    }
    if let Ok(sixteen) = <[u8; 16]>::try_from(octets) {
        let address = Ipv6Addr::from_octets(sixteen);
        return write!(text, "{address}");
    }
    text.push('#')?;
    push_hex(text, octets)
}

/// Appends an address, escaped and bounded.
fn push_shown_address(text: &mut String, alloc: Global, octets: &[u8]) -> Result<(), AllocError>
    ensures { OnOk result (string_bytes text.new ≡ string_bytes text.old ++ shown_part (address_text octets.now)) }
{
    let mut one = String::new(alloc);
    push_address(&mut one, octets)?;
    push_part(text, one.as_bytes())
}

impl Part for GeneralName<'_> {
    ghost use Rattle.certpath_why.specs.Hosts.{host_text};
    ghost use Rattle.cert_serving.specs.View.{general_name_view};

    ghost text_of = { λ g. host_text (general_name_view g) };

    fn push_shown(&self, text: &mut String, alloc: Global) -> Result<(), OutOfMemory> {
        match self.choice {
            Choice::IpAddress => push_shown_address(text, alloc, self.content)?,
            _ => push_part(text, self.content)?,
        }
        Ok(())
    }
}

/// Whether a name of this choice may be a host's.
fn is_host_choice(choice: Choice) -> bool
    ensures { result ≡ is_host_choice choice }
{
    match choice {
        Choice::DnsName => true,
        Choice::IpAddress => true,
        _ => false,
    }
}

/// The names that may be a host's.
fn hosts_among<'a>(
    alloc: Global,
    names: &[GeneralName<'a>],
) -> Result<Vec<GeneralName<'a>>, AllocError>
    ensures { IfOk result (λ hosts. map general_name_view hosts.items ≡ hosts_among (map general_name_view names.now)) }
{
    let mut hosts = Vec::new(alloc);
    for name in names {
        if is_host_choice(name.choice) {
            hosts.push(*name)?;
        }
    }
    Ok(hosts)
}

/// Appends the names of hosts.
fn push_hosts_words(
    text: &mut String,
    alloc: Global,
    hosts: &[GeneralName<'_>],
) -> Result<(), OutOfMemory>
    ensures { OnOk result (string_bytes text.new ≡ string_bytes text.old ++ hosts_words (map general_name_view hosts.now)) }
{
    if hosts.is_empty() {
        text.push_str("it names no host")?;
        return Ok(());
    }
    text.push_str("it names ")?;
    push_list(text, alloc, hosts)?;
    Ok(())
}

/// Appends which hosts a value of subjectAltName names.
fn push_names(text: &mut String, alloc: Global, value: &[u8]) -> Result<(), OutOfMemory>
    ensures { OnOk result (Appends (AreNamesWords value.now) (string_bytes text.old) (string_bytes text.new)) }
{
    match names_of(alloc, value)? {
        Some(names) => push_hosts_words(text, alloc, &hosts_among(alloc, &names)?)?,
        None => text.push_str("its subjectAltName isn't well written")?,
    }
    Ok(())
}

/// Appends which hosts extensions name.
pub(crate) fn push_hosts(
    text: &mut String,
    alloc: Global,
    extensions: &[ExtField<'_>],
) -> Result<(), OutOfMemory>
    ensures { OnOk result (Appends (AreHostsWords (map ext_view extensions.now)) (string_bytes text.old) (string_bytes text.new)) }
{
    match value_under(extensions, SUBJECT_ALT_NAME) {
        Value::Missing => push_hosts_words(text, alloc, &[])?,
        Value::One(value) => push_names(text, alloc, value)?,
        Value::More => text.push_str("it has more than one subjectAltName")?,
    }
    Ok(())
}
