//! Laws of the two roads, and of strict items. Each is a function that does nothing: its contract
//! is the law.

ghost use Rattle.std.specs.Prelude.{◌≡◌, ◌^◌, ◌<◌, ℕ, List, [], length};
ghost use Rattle.cert_model.specs.Class.{IsCertificateItem, IsListItem, IsClassOf};
ghost use Rattle.cert_model.specs.Fields.{Certificate, RevocationList};
ghost use Rattle.cert_model.specs.ClassView.{class_view};
ghost use Rattle.cert_model.specs.declared.class.ItemClass.{ItemClass};
ghost use Rattle.x509_links.specs.Grammars.{X509Certificate, CertificateRevocationList};
ghost use Rattle.x509_links.specs.Readers.{IsUnparsed};
ghost use Rattle.x509_links.specs.Lenient.{lenient_certificate, lenient_list};

/// If two readers return a class for one item, the classes are equal, with equal fields: so the
/// tree road and the typed road agree, unless memory runs out.
pub fn two_roads()
    ensures { (item : List ℕ) (tree typed : ItemClass) → IsClassOf item (class_view tree) → IsClassOf item (class_view typed)
        → class_view tree ≡ class_view typed }
{}

/// The readers of certificates and of lists read all of a strict item, return its fields, and keep
/// the item as their window.
pub fn strict_items()
    ensures certificate { (item : List ℕ) (c : Certificate) → length item < 2 ^ 64 → IsCertificateItem item c
        → X509Certificate IsUnparsed item (lenient_certificate c) [] × ((lenient_certificate c).raw ≡ item) }
    ensures list { (item : List ℕ) (l : RevocationList) → length item < 2 ^ 64 → IsListItem item l
        → CertificateRevocationList IsUnparsed item (lenient_list l) [] × ((lenient_list l).raw ≡ item) }
{}
