//! Laws and examples of names. Each is a function that does nothing: its contract is the law.

ghost use Rattle.std.specs.Prelude.{◌≡◌, ◌↔◌, ℕ, List, [], ◌∷◌, None, Some, codes};
ghost use Rattle.host_names.specs.declared.refusal.Refusal.TheVariants.{Empty, Url, EmailAddress, Wildcard, Zone, Port, NoAddress, NotAscii, Character, EmptyLabel, Hyphen, Number};
ghost use Rattle.host_names.specs.Hosts.{labels_of, Matches};
ghost use Rattle.host_names.specs.HostNames.{without_dot, IsHostName};
ghost use Rattle.host_names.specs.Refusals.{refusal_of};
ghost use Rattle.host_names.specs.Examples.{a_b, w_a_b, star_a_b, star_b};

/// No reason applies to exactly the names of hosts: so a text that is no address is refused exactly
/// where it isn't such a name, once its final dot is removed.
pub fn refused_or_named()
    ensures { (host : List ℕ) → (refusal_of host ≡ None) ↔ IsHostName host }
{}

/// A star stands for one label, never for none, and has two labels after it. Letters are equal
/// without case, and a final dot of a presented name matches nothing.
pub fn examples_of_matching()
    ensures labels { labels_of star_a_b ≡ (42 ∷ []) ∷ (97 ∷ []) ∷ (98 ∷ []) ∷ [] }
    ensures empty { labels_of [] ≡ [] ∷ [] }
    ensures stands { Matches star_a_b w_a_b }
    ensures never_none { ¬ Matches star_a_b a_b }
    ensures two_behind { ¬ Matches star_b a_b }
{}

/// What is refused, and why.
pub fn examples_of_refusals()
    ensures none { refusal_of (codes "www.example.test") ≡ None }
    ensures dot { without_dot (codes "www.example.test.") ≡ codes "www.example.test" }
    ensures empty { refusal_of [] ≡ Some Empty }
    ensures url { refusal_of (codes "https://example.test/") ≡ Some Url }
    ensures mail { refusal_of (codes "a@example.test") ≡ Some EmailAddress }
    ensures wildcard { refusal_of (codes "*.example.test") ≡ Some Wildcard }
    ensures zone { refusal_of (codes "::ffff:1.2.3.4%eth0") ≡ Some Zone }
    ensures port { refusal_of (codes "example.test:443") ≡ Some Port }
    ensures port_behind_brackets { refusal_of (codes "[::1]:443") ≡ Some Port }
    ensures no_address { refusal_of (codes "::g") ≡ Some NoAddress }
    ensures not_ascii { refusal_of (0xc3 ∷ 0xa4 ∷ []) ≡ Some NotAscii }
    ensures character { refusal_of (codes "a b.test") ≡ Some Character }
    ensures empty_label { refusal_of (codes "a..test") ≡ Some EmptyLabel }
    ensures hyphen { refusal_of (codes "a-.test") ≡ Some Hyphen }
    ensures number { refusal_of (codes "1.2.3.4.5") ≡ Some Number }
{}
