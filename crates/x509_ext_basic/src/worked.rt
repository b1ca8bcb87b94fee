//! Laws of the readers. Each is a function without an effect; its contract is the law.

ghost use Rattle.std.specs.Prelude.{◌++◌, ℕ, List};
ghost use Rattle.x509_ext_basic.specs.Examples as examples;
ghost use Rattle.x509_ext_basic.specs.Leaves.{BasicConstraints, CRLNumber, CRLReason};

/// Worked octets and what is read from them, whatever octets follow.
pub fn worked_leaves()
    ensures constraints { (rest : List ℕ) → BasicConstraints (examples.constraints_octets ++ rest) examples.constraints rest }
    ensures none { (rest : List ℕ) → BasicConstraints (examples.none_octets ++ rest) examples.none rest }
    ensures number { (rest : List ℕ) → CRLNumber (examples.number_octets ++ rest) 3 rest }
    ensures reason { (rest : List ℕ) → CRLReason (examples.reason_octets ++ rest) 3 rest }
{}
