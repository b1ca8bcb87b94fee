//! Laws of algorithms. Each is a function without an effect; its contract is the law.

ghost use Rattle.std.specs.Prelude.{◌≡◌, ◌++◌, ℕ, List, Some};
ghost use Rattle.std.specs.Int.Digits.{AllBelowBase};
ghost use Rattle.asn1_core.specs.Elements.{Element};
ghost use Rattle.x509_names.specs.Fields.{Algorithm};
ghost use Rattle.x509_algorithms.specs.Examples as examples;
ghost use Rattle.x509_algorithms.specs.Parameters.{RsaSsaPssParams, RsaAesOaepParams};
ghost use Rattle.x509_algorithms.specs.Signatures.{EcdsaSigValue, IsSignature};
ghost use Rattle.x509_algorithms.specs.Values as values;

/// What some octets are, whatever comes after them.
pub fn worked_parameters()
    ensures signature { (rest : List ℕ) → EcdsaSigValue (examples.signature_octets ++ rest) examples.signature rest }
    ensures pss { (rest : List ℕ) → RsaSsaPssParams (examples.nothing_octets ++ rest) examples.no_pss rest }
    ensures oaep { (rest : List ℕ) → RsaAesOaepParams (examples.nothing_octets ++ rest) examples.no_oaep rest }
{}

/// Worked algorithms and their kinds: RSAES-OAEP counts as RSA, RSASSA-PSS needs parameters, Ed448
/// is unknown.
pub fn worked_algorithms()
    ensures rsa { IsSignature (examples.bare examples.sha256_with_rsa) values.rsa }
    ensures oaep { IsSignature (examples.bare examples.rsaes_oaep) values.rsa }
    ensures ecdsa { IsSignature (examples.bare examples.ecdsa_with_sha256) values.ecdsa }
    ensures dsa { IsSignature (examples.bare examples.dsa_with_sha1) values.dsa }
    ensures ed25519 { IsSignature (examples.bare examples.ed25519) values.ed25519 }
    ensures pss { IsSignature (record { identifier = examples.rsassa_pss; parameters = Some examples.nothing_element }) (values.rsassa_pss examples.no_pss) }
    ensures bare_pss { (v : values.SignatureAlgorithm) → IsSignature (examples.bare examples.rsassa_pss) v → ⊥ }
    ensures ed448 { (v : values.SignatureAlgorithm) → IsSignature (examples.bare examples.ed448) v → ⊥ }
{}

/// An algorithm has at most one kind.
pub fn one_signature()
    ensures { (a : Algorithm) (v w : values.SignatureAlgorithm) → ((e : Element) → a.parameters ≡ Some e → AllBelowBase 256 e.content)
        → IsSignature a v → IsSignature a w → v ≡ w }
{}
