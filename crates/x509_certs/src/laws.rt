//! Laws of the reader of certificates. Each is a function without an effect; its contract is the
//! law.

ghost use Rattle.std.specs.Prelude.{◌<◌, ◌++◌, ℕ, List};
ghost use Rattle.x509_certs.specs.Certificates as grammar;
ghost use Rattle.x509_certs.specs.Examples as examples;
ghost use Rattle.x509_ext.specs.Fields.{IsUnparsed};

/// Worked certificates: one without extensions, one whose serial number has another class, and one
/// with an extension, whose wrapper may have any length of one octet. Each is read in front of any
/// octets.
pub fn worked_certificates()
    ensures plain { (rest : List ℕ) → grammar.X509Certificate IsUnparsed (examples.plain_octets 0x02 ++ rest) (examples.plain 0x02) rest }
    ensures other_class { (rest : List ℕ) → grammar.X509Certificate IsUnparsed (examples.plain_octets 0x82 ++ rest) (examples.plain 0x82) rest }
    ensures constrained { (size : ℕ) (rest : List ℕ) → size < 128
        → grammar.X509Certificate IsUnparsed (examples.constrained_octets size ++ rest) (examples.constrained size) rest }
{}
