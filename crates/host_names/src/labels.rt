//! Labels of names.

ghost use Rattle.std.specs.Prelude.{◌≡◌, ◌<◌, [], ◌∷◌, length, MatchOption};
ghost use Rattle.std.specs.List.{list_any};
ghost use Rattle.host_names.specs.Hosts.{labels_of};
ghost use Rattle.host_names.specs.Refusals.{has_fault};

use crate::octets::{begins_with, ends_in};

/// What may be wrong with a label.
#[derive(Clone, Copy)]
pub(crate) enum Fault {
    NoOctet,
    TooLong,
    HyphenAtEnd,
}

/// The most octets of a label (RFC 1035, 2.3.4).
const LONGEST_LABEL: usize = 63;

fn has_fault(fault: Fault, label: &[u8]) -> bool
    ensures { result ≡ has_fault fault label.now }
{
    match fault {
        Fault::NoOctet => label.is_empty(),
        Fault::TooLong => label.len() > LONGEST_LABEL,
        Fault::HyphenAtEnd => begins_with(label, b'-') || ends_in(label, b'-'),
    }
}

/// The first label, and what follows its dot.
#[tactic(auto, using(crate::proofs::FirstLabels::none_before, crate::proofs::FirstLabels::only_one))]
fn first_label(name: &[u8]) -> (&[u8], Option<&[u8]>)
    ensures { MatchOption result.1 (labels_of name.now ≡ result.0.now ∷ []) (λ rest. (labels_of name.now ≡ result.0.now ∷ labels_of rest.now) × (length rest.now < length name.now)) }
{
    for (place, octet) in name.iter().enumerate() {
        if *octet == b'.' {
            return (&name[..place], Some(&name[place + 1..]));
        }
    }
    (name, None)
}

/// Whether something is wrong with one of a name's labels.
pub(crate) fn some_label_has(fault: Fault, name: &[u8]) -> bool
    ensures { result ≡ list_any (has_fault fault) (labels_of name.now) }
{
    let (label, behind) = first_label(name);
    if has_fault(fault, label) {
        return true;
    }
    match behind {
        Some(rest) => some_label_has(fault, rest),
        None => false,
    }
}
