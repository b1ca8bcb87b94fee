//! Premises of the laws of classes (`cert_model`, `certpath_find`, `certpath_typed`) and of faults (`cert_faults`).

ghost use Rattle.std.specs.Prelude.{[], ◌∷◌};
ghost use Rattle.der_tree.specs.Shape.{IsObject};
ghost use Rattle.cert_model.specs.Class.{IsClassOf, other};
ghost use Rattle.cert_model.specs.ClassView.{class_view};
ghost use Rattle.cert_model.specs.declared.class.ItemClass.TheVariants.{Other};
ghost use Rattle.cert_judge.specs.Classed.{AreClassed};
ghost use Rattle.cert_faults.specs.declared.places.Expected.TheVariants.{Sequence};
ghost use Rattle.cert_faults.specs.declared.places.Field.TheVariants.{TbsCertificate, TbsCertList};
ghost use Rattle.cert_faults.specs.Items.{IsCertificateFault, IsListFault};
ghost use Rattle.cert_faults.specs.Steps.{missing, whole};
ghost use Rattle.laws_items.specs.Classes.{empty_tree, null_item, null_octets};

/// A NULL, `05 00`, which is neither a certificate nor a list: its class, as a reader returns it too, and as an item's.
pub fn example_of_one_class()
    ensures octets { IsClassOf null_octets other }
    ensures read { IsClassOf null_octets (class_view Other) }
    ensures items { AreClassed (null_octets ∷ []) (null_item ∷ []) }
{}

/// An empty SEQUENCE, `30 00`: a certificate's first part is missing, and a list's.
pub fn example_of_faults()
    ensures certificate { IsObject 50 empty_tree × IsCertificateFault 2 empty_tree (missing (whole TbsCertificate) Sequence 0) }
    ensures list { IsObject 50 empty_tree × IsListFault 2 empty_tree (missing (whole TbsCertList) Sequence 0) }
{}
