//! Names of hosts.

ghost use Rattle.std.specs.Prelude.{◌≡◌, ◌↔◌, ℕ, List, ◌∷◌, IsTrue, IfSome, IsSomeAnd, false, option_map};
ghost use Rattle.std.specs.List.{AllByRecursion};
ghost use Rattle.host_names.specs.Hosts.{labels_of, IsLabel, AreSame, Matches};
ghost use Rattle.host_names.specs.Names.{is_spelled, after_label, MatchBehind};

use crate::octets::is_name_octet;

/// Whether all labels have an octet, and none but letters, digits, hyphens and underscores.
fn is_spelled(name: &[u8]) -> bool
    ensures { result ≡ is_spelled false name.now }
{
    let mut begun = false;
    for octet in name {
        if *octet == b'.' {
            if !begun {
                return false;
            }
            begun = false;
        } else {
            if !is_name_octet(*octet) {
                return false;
            }
            begun = true;
        }
    }
    begun
}

/// What follows the first label and its dot.
fn after_label(name: &[u8]) -> Option<&[u8]>
    ensures { option_map (λ r. r.now) result ≡ after_label false name.now }
{
    let mut begun = false;
    for (place, octet) in name.iter().enumerate() {
        if *octet == b'.' {
            return if begun {
                Some(&name[place + 1..])
            } else {
                None
            };
        }
        if !is_name_octet(*octet) {
            return None;
        }
        begun = true;
    }
    None
}

fn is_name(name: &[u8]) -> bool
    ensures { IsTrue result ↔ AllByRecursion IsLabel (labels_of name.now) }
{
    is_spelled(name)
}

fn is_same(name: &[u8], host: &[u8]) -> bool
    ensures { IsTrue result ↔ AreSame (labels_of name.now) (labels_of host.now) }
{
    name.eq_ignore_ascii_case(host)
}

/// What follows a star and a dot.
fn behind_star(name: &[u8]) -> Option<&[u8]>
    ensures found { IfSome result (λ r. name.now ≡ 42 ∷ 46 ∷ r.now) }
    ensures only { (rest : List ℕ) → name.now ≡ 42 ∷ 46 ∷ rest → IsSomeAnd result (λ r. r.now ≡ rest) }
{
    match name {
        [b'*', b'.', rest @ ..] => Some(rest),
        _ => None,
    }
}

/// Whether a star and then this name match a host.
fn matches_behind(rest: &[u8], host: &[u8]) -> bool
    ensures { IsTrue result ↔ MatchBehind (labels_of rest.now) (labels_of host.now) }
{
    let Some(behind) = after_label(host) else {
        return false;
    };
    if !is_same(rest, behind) || !is_name(rest) {
        return false;
    }
    after_label(rest).is_some()
}

/// Returns whether a presented name matches the name of a host (RFC 9525, 6.3): labels are compared
/// without case, and a star as the whole first label, before two labels or more, matches exactly
/// one label. It takes no memory, and time linear in the names.
pub fn dns_matches(presented: &[u8], host: &[u8]) -> bool
    ensures { IsTrue result ↔ Matches presented.now host.now }
{
    if is_same(presented, host) && is_name(presented) {
        return true;
    }
    match behind_star(presented) {
        Some(rest) => matches_behind(rest, host),
        None => false,
    }
}
