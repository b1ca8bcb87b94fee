//! The law that an item has one first fault (`cert_faults`): a function that does nothing, whose
//! contract is the law, with examples that meet its premise.

ghost use Rattle.std.specs.Prelude.{◌≡◌, ℕ, List};
ghost use Rattle.cert_faults.specs.Fault.{IsFirstFault};
ghost use Rattle.cert_faults.specs.declared.fault.Fault.{Fault};
ghost use Rattle.laws_items.specs.Faults.{null_serial, serial_fault, cut_null, cut_fault, no_parts, missing_fault};

/// An item has one first fault at most. Two faults that are right for its octets are equal: in their
/// place in the grammar, in what is expected, in their offset, and in the header that is found.
///
/// In `30 04 30 02 05 00` the NULL at octet 4 is no serial number. In `30 02 05 01` the NULL at
/// octet 2 lacks its content. In `30 00` a certificate's first part is missing at octet 2.
pub fn one_first_fault()
    ensures one { (s : List ℕ) (f g : Fault) → IsFirstFault s f → IsFirstFault s g → f ≡ g }
    ensures example { IsFirstFault null_serial serial_fault }
    ensures example_of_elements { IsFirstFault cut_null cut_fault }
    ensures example_of_missing { IsFirstFault no_parts missing_fault }
{}
