//! The content octets of given components.
ghost use Rattle.std.specs.Prelude.{◌≡◌, ◌+◌, ◌*◌, ◌^◌, ◌<◌, ◌≤◌, ◌∷◌, ◌++◌, IfOk, IfErr, OnOk};
ghost use Rattle.std.specs.Option.{SomeIff};
ghost use Rattle.std.specs.Int.Digits.{digits_of};
ghost use Rattle.asn1_oid.specs.Identifier.{Spells, subidentifier_octets, content_octets};
ghost use Rattle.asn1_oid.specs.Spelling.{high, RefusesComponents};

use asn1_core::Error;
use std::alloc::{AllocError, Global};

/// Returns the content octets of the components (X.690, 8.19).
pub(crate) fn spell(alloc: Global, components: &[u64]) -> Result<Vec<u8>, Error>
    ensures made { IfOk result (λ octets. Spells components.now octets.items) }
    ensures refused { IfErr result (λ e. RefusesComponents components.now e) }
{
    let [first, second, more @ ..] = components else {
        return Err(Error::BerValueError);
    };
    let Some(joined) = join(*first, *second) else {
        return Err(Error::BerValueError);
    };
    let octets = spell_all(alloc, joined, more)?;
    Ok(octets)
}

/// Returns the subidentifier of the first two components (X.690, 8.19.4); `None` if they are out of
/// range or pass 64 bits.
fn join(first: u64, second: u64) -> Option<u64>
    ensures { SomeIff result
        ((first ≤ 2) × (first < 2 → second < 40) × (40 * first + second < 2 ^ 64))
        (40 * first + second) }
{
    if first > 2 || (first < 2 && second >= 40) {
        return None;
    }
    (40 * first).checked_add(second)
}

fn spell_all(alloc: Global, first: u64, more: &[u64]) -> Result<Vec<u8>, AllocError>
    ensures { IfOk result (λ octets. octets.items ≡ content_octets (first ∷ more.now)) }
{
    let mut octets = Vec::new(alloc);
    push_subidentifier(&mut octets, first)?;
    for number in more {
        push_subidentifier(&mut octets, *number)?;
    }
    Ok(octets)
}

/// Appends the octets of a subidentifier.
fn push_subidentifier(octets: &mut Vec<u8>, number: u64) -> Result<(), AllocError>
    ensures { OnOk result (octets.new.items ≡ octets.old.items ++ subidentifier_octets number) }
{
    push_high(octets, number / 128)?;
    octets.push((number % 128) as u8)?;
    Ok(())
}

/// Appends the digits of the base 128, each with bit 8 set; none for 0.
fn push_high(octets: &mut Vec<u8>, number: u64) -> Result<(), AllocError>
    ensures { OnOk result (octets.new.items ≡ octets.old.items ++ high (digits_of 128 number)) }
{
    if number == 0 {
        return Ok(());
    }
    push_high(octets, number / 128)?;
    octets.push(0x80 + (number % 128) as u8)?;
    Ok(())
}
