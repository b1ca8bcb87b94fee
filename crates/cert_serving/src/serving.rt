//! Which certificates serve a host (RFC 9525, 6; RFC 5280, 4.2.1.6).

ghost use Rattle.std.specs.Prelude.{◌≡◌, ◌↔◌, ◌<◌, map, IsTrue};
ghost use Rattle.cert_model.specs.View.{ext_view};
ghost use Rattle.host_names.specs.Addresses.{address_octets};
ghost use Rattle.host_names.specs.Asked.{host_view};
ghost use Rattle.cert_serving.specs.Serving.{IsNameOf, Names, AreNames, Serves};
ghost use Rattle.cert_serving.specs.View.{general_name_view};

use crate::names::{Choice, GeneralName, next_name};
use asn1_core::{Class, Tag};
use cert_model::fields::ExtField;
use cert_model::parts::whole;
use cert_purpose::{Value, value_under};
use host_names::{Host, dns_matches};
use std::net::IpAddr;

/// subjectAltName, 2.5.29.17.
pub(crate) const SUBJECT_ALT_NAME: u8 = 17;

/// Whether octets are the 4 or 16 of an address.
fn is_address(octets: &[u8], address: &IpAddr) -> bool
    ensures { IsTrue result ↔ (octets.now ≡ address_octets address.now) }
{
    match address {
        IpAddr::V4(address) => octets == address.octets().as_slice(),
        IpAddr::V6(address) => octets == address.octets().as_slice(),
    }
}

/// Whether a name of a certificate is a name of the host.
fn is_name_of(name: &GeneralName<'_>, host: &Host<'_>) -> bool
    ensures { IsTrue result ↔ IsNameOf (host_view host.now) (general_name_view name.now) }
{
    match host {
        Host::Name(octets) => match name.choice {
            Choice::DnsName => dns_matches(name.content, octets),
            _ => false,
        },
        Host::Address(address) => match name.choice {
            Choice::IpAddress => is_address(name.content, address),
            _ => false,
        },
    }
}

/// Whether the octets are names and nothing else, with one of the host among them.
fn are_names(content: &[u8], host: &Host<'_>) -> bool
    ensures { IsTrue result ↔ AreNames (host_view host.now) content.now }
{
    let mut rest = content;
    let mut found = false;
    while !rest.is_empty() {
        let Some((name, behind)) = next_name(rest) else {
            return false;
        };
        if is_name_of(&name, host) {
            found = true;
        }
        rest = behind;
    }
    found
}

/// Whether a value of subjectAltName has a name of the host.
fn has_name(value: &[u8], host: &Host<'_>) -> bool
    ensures { IsTrue result ↔ Names (host_view host.now) value.now }
{
    match whole(Class::Universal, true, Tag::Sequence.0, value) {
        Some(content) => are_names(content, host),
        None => false,
    }
}

/// Whether a certificate serves a host, by its extensions: whether exactly one is a subjectAltName,
/// its value is the DER of GeneralNames, and among these is a dNSName that matches the host's name
/// (RFC 9525, 6.3) or an iPAddress with the host's octets. The subject's common name is never used.
/// Linear in the octets of the value, without memory.
pub fn serves(extensions: &[ExtField<'_>], host: &Host<'_>) -> bool
    ensures { IsTrue result ↔ Serves (host_view host.now) (map ext_view extensions.now) }
{
    match value_under(extensions, SUBJECT_ALT_NAME) {
        Value::Missing => false,
        Value::One(value) => has_name(value, host),
        Value::More => false,
    }
}
