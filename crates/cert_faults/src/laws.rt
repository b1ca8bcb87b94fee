//! Laws of faults. Each is a function that does nothing: its contract is the law.

ghost use Rattle.std.specs.Prelude.{ℕ};
ghost use Rattle.der_tree.specs.Tree.{Tree, octets};
ghost use Rattle.der_tree.specs.Shape.{IsObject};
ghost use Rattle.cert_model.specs.Class.{NoCertificate, NoList};
ghost use Rattle.cert_faults.specs.declared.steps.Blame.{Blame};
ghost use Rattle.cert_faults.specs.Items.{IsCertificateFault, IsListFault};

/// An object with a fault as a certificate is none, and one with a fault as a list is none.
pub fn fault_rules_out()
    ensures certificate { (n : ℕ) (t : Tree) (b : Blame) → IsObject 50 t → IsCertificateFault n t b → NoCertificate (octets t) }
    ensures list { (n : ℕ) (t : Tree) (b : Blame) → IsObject 50 t → IsListFault n t b → NoList (octets t) }
{}
