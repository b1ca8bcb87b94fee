//! Laws of refusals by name: where a reading refuses octets by a name, in words of the grammars. Each is a function without an
//! effect; its contract is the law.

ghost use Rattle.std.specs.Prelude.{◌≡◌, ℕ, Bool, List, Err};
ghost use Rattle.std.specs.Int.Digits.{AllBelowBase};
ghost use Rattle.x509_core.specs.Answers.{named};
ghost use Rattle.x509_core.specs.declared.error.X509Error.{X509Error};
ghost use Rattle.x509_names.specs.Reading.{algorithm_at, attribute_at, name_at, key_at, rsa_key_at};
ghost use Rattle.x509_time.specs.Reading.{time_at, validity_at, next_update_at};
ghost use Rattle.x509_ext.specs.Fields.{ValueReading, meaning_of, reading_of};
ghost use Rattle.x509_ext.specs.Reading.{version_at, named_extension_at, extensions_at};
ghost use Rattle.x509_certs.specs.Reading.{tbs_at, certificate_at};
ghost use Rattle.x509_lists.specs.Reading as lists;
ghost use Rattle.laws_x509.specs.CertificateRefusals.{TbsRefused, CertificateRefused};
ghost use Rattle.laws_x509.specs.ListRefusals.{EntryRefused, TbsListRefused, ListRefused};
ghost use Rattle.laws_x509.specs.NameRefusals.{AlgorithmRefused, AttributeRefused, KeyRefused, RsaKeyRefused};
ghost use Rattle.laws_x509.specs.PartRefusals.{TimeRefused, ValidityRefused, UpdateRefused, VersionRefused, ExtensionRefused, ExtensionsRefused};

/// Algorithms (RFC 5280, 4.1.1.2) are refused as `InvalidAlgorithmIdentifier`, and by no other name.
pub fn refused_algorithms()
    ensures found { (e : X509Error) (octets : List ℕ) → AllBelowBase 256 octets → algorithm_at octets ≡ Err (named e) → AlgorithmRefused e octets }
    ensures only { (e : X509Error) (octets : List ℕ) → AllBelowBase 256 octets → AlgorithmRefused e octets → algorithm_at octets ≡ Err (named e) }
{}

/// Attributes (RFC 5280, 4.1.2.4) are refused as `InvalidX509Name`; a name as a whole by no name.
pub fn refused_names()
    ensures found { (e : X509Error) (octets : List ℕ) → AllBelowBase 256 octets → attribute_at octets ≡ Err (named e) → AttributeRefused e octets }
    ensures only { (e : X509Error) (octets : List ℕ) → AllBelowBase 256 octets → AttributeRefused e octets → attribute_at octets ≡ Err (named e) }
    ensures name { (octets : List ℕ) (e : X509Error) → AllBelowBase 256 octets → name_at octets ≡ Err (named e) → ⊥ }
{}

/// Keys (RFC 5280, 4.1.2.7) are refused as `InvalidAlgorithmIdentifier` or `InvalidSPKI`, RSA keys (RFC 3279, 2.3.1) as
/// `InvalidSPKI`.
pub fn refused_keys()
    ensures found { (e : X509Error) (octets : List ℕ) → AllBelowBase 256 octets → key_at octets ≡ Err (named e) → KeyRefused e octets }
    ensures only { (e : X509Error) (octets : List ℕ) → AllBelowBase 256 octets → KeyRefused e octets → key_at octets ≡ Err (named e) }
    ensures rsa_found { (e : X509Error) (octets : List ℕ) → AllBelowBase 256 octets → rsa_key_at octets ≡ Err (named e) → RsaKeyRefused e octets }
    ensures rsa_only { (e : X509Error) (octets : List ℕ) → AllBelowBase 256 octets → RsaKeyRefused e octets → rsa_key_at octets ≡ Err (named e) }
{}

/// Times and validities (RFC 5280, 4.1.2.5) and the next update of a list (5.1.2.5) are refused as `InvalidDate`.
pub fn refused_times()
    ensures found { (e : X509Error) (octets : List ℕ) → AllBelowBase 256 octets → time_at octets ≡ Err (named e) → TimeRefused e octets }
    ensures only { (e : X509Error) (octets : List ℕ) → AllBelowBase 256 octets → TimeRefused e octets → time_at octets ≡ Err (named e) }
    ensures validity_found { (e : X509Error) (octets : List ℕ) → AllBelowBase 256 octets → validity_at octets ≡ Err (named e) → ValidityRefused e octets }
    ensures validity_only { (e : X509Error) (octets : List ℕ) → AllBelowBase 256 octets → ValidityRefused e octets → validity_at octets ≡ Err (named e) }
    ensures update_found { (e : X509Error) (octets : List ℕ) → AllBelowBase 256 octets → next_update_at octets ≡ Err (named e) → UpdateRefused e octets }
    ensures update_only { (e : X509Error) (octets : List ℕ) → AllBelowBase 256 octets → UpdateRefused e octets → next_update_at octets ≡ Err (named e) }
{}

/// A version by itself (RFC 5280, 4.1.2.1) is refused as `InvalidVersion`, an extension by itself (4.2) as `InvalidExtensions`.
pub fn refused_extensions()
    ensures version_found { (e : X509Error) (octets : List ℕ) → AllBelowBase 256 octets → version_at octets ≡ Err (named e) → VersionRefused e octets }
    ensures version_only { (e : X509Error) (octets : List ℕ) → AllBelowBase 256 octets → VersionRefused e octets → version_at octets ≡ Err (named e) }
    ensures extension_found { (deep : Bool) (e : X509Error) (octets : List ℕ) → AllBelowBase 256 octets
        → named_extension_at (reading_of deep) octets ≡ Err (named e) → ExtensionRefused (meaning_of deep) e octets }
    ensures extension_only { (deep : Bool) (e : X509Error) (octets : List ℕ) → AllBelowBase 256 octets
        → ExtensionRefused (meaning_of deep) e octets → named_extension_at (reading_of deep) octets ≡ Err (named e) }
    ensures wrapper_found { (parse : ValueReading) (n : ℕ) (e : X509Error) (octets : List ℕ) → AllBelowBase 256 octets
        → extensions_at parse n octets ≡ Err (named e) → ExtensionsRefused n e octets }
    ensures wrapper_only { (parse : ValueReading) (n : ℕ) (e : X509Error) (octets : List ℕ) → AllBelowBase 256 octets
        → ExtensionsRefused n e octets → extensions_at parse n octets ≡ Err (named e) }
{}

/// Certificates (RFC 5280, 4.1), and their signed parts: however values of extensions are parsed, these are refused alike.
pub fn refused_certificates()
    ensures signed_found { (parse : ValueReading) (e : X509Error) (octets : List ℕ) → AllBelowBase 256 octets → tbs_at parse octets ≡ Err (named e) → TbsRefused e octets }
    ensures signed_only { (parse : ValueReading) (e : X509Error) (octets : List ℕ) → AllBelowBase 256 octets → TbsRefused e octets → tbs_at parse octets ≡ Err (named e) }
    ensures found { (deep : Bool) (e : X509Error) (octets : List ℕ) → AllBelowBase 256 octets
        → certificate_at (reading_of deep) octets ≡ Err (named e) → CertificateRefused (meaning_of deep) e octets }
    ensures only { (deep : Bool) (e : X509Error) (octets : List ℕ) → AllBelowBase 256 octets
        → CertificateRefused (meaning_of deep) e octets → certificate_at (reading_of deep) octets ≡ Err (named e) }
{}

/// Revocation lists (RFC 5280, 5.1), their signed parts and entries.
pub fn refused_lists()
    ensures entry_found { (parse : ValueReading) (e : X509Error) (octets : List ℕ) → AllBelowBase 256 octets → lists.entry_at parse octets ≡ Err (named e) → EntryRefused e octets }
    ensures entry_only { (parse : ValueReading) (e : X509Error) (octets : List ℕ) → AllBelowBase 256 octets → EntryRefused e octets → lists.entry_at parse octets ≡ Err (named e) }
    ensures signed_found { (deep : Bool) (e : X509Error) (octets : List ℕ) → AllBelowBase 256 octets
        → lists.tbs_at (reading_of deep) octets ≡ Err (named e) → TbsListRefused (meaning_of deep) e octets }
    ensures signed_only { (deep : Bool) (e : X509Error) (octets : List ℕ) → AllBelowBase 256 octets
        → TbsListRefused (meaning_of deep) e octets → lists.tbs_at (reading_of deep) octets ≡ Err (named e) }
    ensures found { (deep : Bool) (e : X509Error) (octets : List ℕ) → AllBelowBase 256 octets
        → lists.list_at (reading_of deep) octets ≡ Err (named e) → ListRefused (meaning_of deep) e octets }
    ensures only { (deep : Bool) (e : X509Error) (octets : List ℕ) → AllBelowBase 256 octets
        → ListRefused (meaning_of deep) e octets → lists.list_at (reading_of deep) octets ≡ Err (named e) }
{}
