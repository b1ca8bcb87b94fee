//! Premises of the law of revocation lists (`x509_lists`).

ghost use Rattle.std.specs.Prelude.{◌≡◌, false, Ok, None, []};
ghost use Rattle.std.specs.Int.Digits.{AllBelowBase};
ghost use Rattle.x509_ext.specs.Fields.{meaning_of, reading_of};
ghost use Rattle.x509_lists.specs.Lists.{TbsParts, BeginsWithWrapper, CertificateRevocationList};
ghost use Rattle.x509_lists.specs.Reading.{list_at};
ghost use Rattle.laws_x509.specs.WorkedLists as worked;

/// Two lists without entries, which are read (RFC 5280, 5.1). The first ends with its update, and
/// the second has extensions in the place of entries. So the entries of both count as absent.
pub fn example_of_no_hidden_entries()
    ensures ended { AllBelowBase 256 worked.ended_octets × CertificateRevocationList (meaning_of false) worked.ended_octets worked.ended []
        × (list_at (reading_of false) worked.ended_octets ≡ Ok (worked.ended, [])) }
    ensures numbered { AllBelowBase 256 worked.numbered_octets × CertificateRevocationList (meaning_of false) worked.numbered_octets worked.numbered []
        × (list_at (reading_of false) worked.numbered_octets ≡ Ok (worked.numbered, [])) }
    ensures nothing { (is : TbsParts (meaning_of false) worked.ended_content worked.ended_tbs [])
        × (is.written ≡ None) × (is.after_next_update ≡ []) }
    ensures wrapper { (is : TbsParts (meaning_of false) worked.numbered_content worked.numbered_tbs [])
        × (is.written ≡ None) × BeginsWithWrapper is.after_next_update }
{}
