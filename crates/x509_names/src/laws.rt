//! Laws of the readers of names and keys. Each is a function without an effect; its contract is the
//! law.

ghost use Rattle.std.specs.Prelude.{◌≡◌, ◌++◌, ℕ, List, []};
ghost use Rattle.x509_names.specs.Examples as examples;
ghost use Rattle.x509_names.specs.Names as grammar;
ghost use Rattle.x509_names.specs.PublicKeys as keys;

/// Worked octets and what is read from them, whatever octets follow.
pub fn worked_items()
    ensures algorithm { (rest : List ℕ) → grammar.AlgorithmIdentifier (examples.algorithm_octets ++ rest) examples.algorithm rest }
    ensures key { (rest : List ℕ) → grammar.SubjectPublicKeyInfo (examples.key_octets ++ rest) examples.key rest }
    ensures empty_name { (rest : List ℕ) → grammar.X509Name (examples.empty_octets ++ rest) examples.empty_name rest }
    ensures stopped_name { (rest : List ℕ) → grammar.X509Name (examples.stopped_octets ++ rest) examples.stopped_name rest }
    ensures name { (rest : List ℕ) → grammar.X509Name (examples.name_octets ++ rest) examples.name rest }
    ensures rsa_key { (rest : List ℕ) → keys.RSAPublicKey (examples.rsa_octets ++ rest) examples.rsa_key rest }
{}
