//! Laws of classes. Each is a function that does nothing: its contract is the law.

ghost use Rattle.std.specs.Prelude.{◌≡◌, ◌↔◌, ℕ, List};
ghost use Rattle.cert_model.specs.Fields.{Certificate, RevocationList};
ghost use Rattle.cert_model.specs.Octets.{certificate_octets, list_octets};
ghost use Rattle.cert_model.specs.Class.{IsCertificateItem, IsListItem, Class, IsClassOf};
ghost use Rattle.cert_model.specs.Examples.{plain, constrained, issued_by_b, authority_b, revoking, octets_of_plain, octets_of_constrained, octets_of_issued_by_b, octets_of_authority_b, octets_of_revoking};

/// Two strict certificates have equal fields exactly if they have equal octets.
pub fn one_spelling()
    ensures { (s r : List ℕ) (c d : Certificate) → IsCertificateItem s c → IsCertificateItem r d → (c ≡ d) ↔ (s ≡ r) }
{}

/// Two strict lists have equal fields exactly if they have equal octets.
pub fn one_spelling_of_lists()
    ensures { (s r : List ℕ) (l m : RevocationList) → IsListItem s l → IsListItem r m → (l ≡ m) ↔ (s ≡ r) }
{}

/// No octets are both a certificate and a list.
pub fn never_both()
    ensures { (s : List ℕ) (c : Certificate) (l : RevocationList) → IsCertificateItem s c → ¬ IsListItem s l }
{}

/// Octets have one class, with one list of fields.
pub fn one_class()
    ensures { (s : List ℕ) (a b : Class) → IsClassOf s a → IsClassOf s b → a ≡ b }
{}

/// The definitions give the octets of certificates and of a list that were written out by hand.
pub fn examples()
    ensures plain { certificate_octets plain ≡ octets_of_plain }
    ensures constrained { certificate_octets constrained ≡ octets_of_constrained }
    ensures issued_by_b { certificate_octets issued_by_b ≡ octets_of_issued_by_b }
    ensures authority_b { certificate_octets authority_b ≡ octets_of_authority_b }
    ensures revoking { list_octets revoking ≡ octets_of_revoking }
{}
