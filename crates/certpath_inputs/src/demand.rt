//! What is demanded of paths, beside their being valid.

ghost use Rattle.std.specs.Prelude.{◌≡◌, ◌++◌, None, option_map, IfOk, OnOk, string_bytes};
ghost use Rattle.host_names.specs.Asked.{host_view};
ghost use Rattle.cert_serving.specs.View.{demands_view};
ghost use Rattle.certpath_inputs.specs.Demands.{ArePermitsOf, demanded, of_purpose, target_octets, demand_lines, purpose_line, host_line, is_none};

use asn1_core::OutOfMemory;
use cert_framing::Items;
use cert_serving::{Demands, Permits};
use host_names::Host;
use std::alloc::{AllocError, Global};

/// A purpose that each certificate of a path has to allow (RFC 5280, 4.2.1.12).
#[derive(Clone, Copy, Debug)]
pub struct AskedPurpose<'a> {
    /// The content octets of its identifier.
    pub identifier: &'a [u8],
    /// Its text in a report and in evidence.
    pub shown: &'a str,
}

/// A host that the target has to serve (RFC 9525, 6).
#[derive(Clone, Copy, Debug)]
pub struct AskedHost<'a> {
    pub host: Host<'a>,
    /// Its text in a report.
    pub shown: &'a str,
}

/// What is demanded of paths, beside their being valid.
#[derive(Clone, Copy, Debug)]
pub struct Demand<'a> {
    pub purpose: Option<AskedPurpose<'a>>,
    pub host: Option<AskedHost<'a>>,
}

impl<'a> Demand<'a> {
    /// Nothing.
    pub fn none() -> Demand<'a>
        ensures { result ≡ of_purpose None }
    {
        Demand {
            purpose: None,
            host: None,
        }
    }

    /// A purpose, if one is given, and no host.
    pub fn for_purpose(purpose: Option<AskedPurpose<'a>>) -> Demand<'a>
        ensures { result ≡ of_purpose purpose.entry }
    {
        Demand {
            purpose,
            host: None,
        }
    }

    /// Whether nothing is demanded.
    pub fn is_none(&self) -> bool
        ensures { result ≡ is_none self.now }
    {
        self.purpose.is_none() && self.host.is_none()
    }
}

/// The octets of the item at a place; none if no item has this place.
fn octets_at(items: &Items, place: usize) -> &[u8]
    ensures { result.now ≡ target_octets items.now.items place }
{
    if place < items.len() {
        items.get(place)
    } else {
        &[]
    }
}

fn identifier_of<'a>(purpose: &Option<AskedPurpose<'a>>) -> Option<&'a [u8]>
    ensures { option_map (λ p. p.now) result ≡ option_map (λ p. p.identifier.now) purpose.now }
{
    match purpose {
        Some(purpose) => Some(purpose.identifier),
        None => None,
    }
}

fn host_of<'a>(host: &Option<AskedHost<'a>>) -> Option<Host<'a>>
    ensures { option_map host_view result ≡ option_map (λ h. host_view h.host) host.now }
{
    match host {
        Some(host) => Some(host.host),
        None => None,
    }
}

/// The demands of a search from the item at a place.
fn demands_of<'a>(demand: &Demand<'a>, target: &'a [u8]) -> Demands<'a>
    ensures { demands_view result ≡ demanded demand.now target.now }
{
    Demands {
        purpose: identifier_of(&demand.purpose),
        host: host_of(&demand.host),
        target,
    }
}

/// Which items meet a demand, in a search from the item at a place. It costs what
/// `cert_serving::Permits::new` does.
pub fn permits_of<'a>(
    alloc: Global,
    items: &'a Items,
    target: usize,
    demand: &Demand<'a>,
) -> Result<Permits<'a>, OutOfMemory>
    ensures { IfOk result (λ p. ArePermitsOf (demanded demand.now (target_octets items.now.items target)) items.now.items p) }
{
    let demands = demands_of(demand, octets_at(items, target));
    Permits::new(alloc, items, &demands)
}

/// Appends a line for a purpose, if there is one. The only error is out of memory.
pub fn push_purpose(text: &mut String, purpose: &Option<AskedPurpose<'_>>) -> Result<(), AllocError>
    ensures { OnOk result (string_bytes text.new ≡ string_bytes text.old ++ purpose_line purpose.now) }
{
    match purpose {
        Some(purpose) => {
            let shown = purpose.shown;
            writeln!(text, "purpose {shown}")
        }
        None => Ok(()),
    }
}

fn push_host(text: &mut String, host: &Option<AskedHost<'_>>) -> Result<(), AllocError>
    ensures { OnOk result (string_bytes text.new ≡ string_bytes text.old ++ host_line host.now) }
{
    match host {
        Some(host) => {
            let shown = host.shown;
            writeln!(text, "host {shown}")
        }
        None => Ok(()),
    }
}

/// Appends a line for the purpose and one for the host, each if it is demanded. The only error is
/// out of memory.
pub fn push_demand(text: &mut String, demand: &Demand<'_>) -> Result<(), AllocError>
    ensures { OnOk result (string_bytes text.new ≡ string_bytes text.old ++ demand_lines demand.now) }
{
    push_purpose(text, &demand.purpose)?;
    push_host(text, &demand.host)
}
