//! basicConstraints (RFC 5280, 4.2.1.9): a value in its one spelling, a default never written
//! (X.690, 11.5), `TRUE` as 255 (11.1), and a path length that has 32 bits.

ghost use Rattle.std.specs.Prelude.{◌≡◌, ◌≢◌, ◌↔◌, ℕ, List, [], ◌∷◌, ◌++◌, Option, option_map, slice_index, Bool, IsTrue, IfSome, IsSomeAnd, SomeIff};
ghost use Rattle.cert_model.specs.Fields.{Number};
ghost use Rattle.cert_model.specs.Octets.{number_octets, optional_octets, flag_octets};
ghost use Rattle.cert_model.specs.Range.{IfThere, IsNumber};
ghost use Rattle.cert_judge.specs.Constraints.{BasicConstraints, IsPathLength, IsBasicConstraints, value_of};

use asn1_core::{Class, Tag};
use cert_model::parts::{part, whole};
use cert_model::{is_negative_integer, is_shortest_integer, number_of};

/// The content octet of a BOOLEAN that is true (X.690, 11.1).
const TRUE: u8 = 0xff;

/// What a value of basicConstraints says.
#[derive(Clone, Copy, Debug)]
pub(crate) struct Constraints {
    pub(crate) ca: bool,
    pub(crate) path_len: Option<u32>,
}

fn is_number(content: &[u8]) -> bool
    ensures { IsTrue result ↔ IsNumber content.now }
{
    is_shortest_integer(content) && !is_negative_integer(content)
}

fn path_length_of(digits: &[u8]) -> Option<u32>
    ensures { SomeIff result (IsPathLength digits.now) (value_of digits.now) }
{
    if !is_number(digits) {
        return None;
    }
    let number = number_of(digits)?;
    u32::try_from(number).ok()
}

fn is_ff(content: &[u8]) -> bool
    ensures { IsTrue result ↔ (content.now ≡ 255 ∷ []) }
{
    match content {
        [octet] => *octet == TRUE,
        _ => false,
    }
}

/// Returns a boolean that is false if it is not written, and the octets after it.
fn flag_of(octets: &[u8]) -> (bool, &[u8])
    ensures found { octets.now ≡ flag_octets result.0 ++ result.1.now }
    ensures only { (flag : Bool) (rest : List ℕ) → octets.now ≡ flag_octets flag ++ rest → slice_index rest 0 ≢ 1
        → (result.0 ≡ flag) × (result.1.now ≡ rest) }
{
    let Some((content, rest)) = part(Class::Universal, false, Tag::Boolean.0, octets) else {
        return (false, octets);
    };
    if is_ff(content) {
        (true, rest)
    } else {
        (false, octets)
    }
}

/// A path length or nothing, to the end.
fn path_len_of(octets: &[u8]) -> Option<Option<u32>>
    ensures found { IfSome result (λ r. (n : Option Number) × IfThere IsPathLength n × (octets.now ≡ optional_octets number_octets n) × (option_map value_of n ≡ r)) }
    ensures only { (n : Option Number) → IfThere IsPathLength n → octets.now ≡ optional_octets number_octets n
        → IsSomeAnd result (λ r. option_map value_of n ≡ r) }
{
    if octets.is_empty() {
        return Some(None);
    }
    let digits = whole(Class::Universal, false, Tag::Integer.0, octets)?;
    let number = path_length_of(digits)?;
    Some(Some(number))
}

/// What the octets of the value say, if they are well written.
pub(crate) fn constraints_of(value: &[u8]) -> Option<Constraints>
    ensures found { IfSome result (λ r. (b : BasicConstraints) × IsBasicConstraints value.now b × (b.ca ≡ r.ca) × (option_map value_of b.path_len ≡ r.path_len)) }
    ensures only { (b : BasicConstraints) → IsBasicConstraints value.now b
        → IsSomeAnd result (λ r. (b.ca ≡ r.ca) × (option_map value_of b.path_len ≡ r.path_len)) }
{
    let content = whole(Class::Universal, true, Tag::Sequence.0, value)?;
    let (ca, rest) = flag_of(content);
    let path_len = path_len_of(rest)?;
    Some(Constraints { ca, path_len })
}
