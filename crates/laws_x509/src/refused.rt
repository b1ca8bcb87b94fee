//! Octets that the laws of refusals by name speak of, one for each name.

ghost use Rattle.std.specs.Prelude.{◌≡◌, false, Err};
ghost use Rattle.std.specs.Int.Digits.{AllBelowBase};
ghost use Rattle.x509_core.specs.Answers.{named};
ghost use Rattle.x509_core.specs.declared.error.X509Error.TheVariants as errors;
ghost use Rattle.x509_names.specs.Reading.{algorithm_at, attribute_at, key_at, rsa_key_at};
ghost use Rattle.x509_time.specs.Reading.{time_at, validity_at, next_update_at};
ghost use Rattle.x509_ext.specs.Fields.{unread, meaning_of, reading_of};
ghost use Rattle.x509_ext.specs.Reading.{version_at, named_extension_at, extensions_at};
ghost use Rattle.x509_certs.specs.Reading.{tbs_at, certificate_at};
ghost use Rattle.x509_lists.specs.Reading as lists;
ghost use Rattle.laws_x509.specs.CertificateRefusals.{TbsRefused, CertificateRefused};
ghost use Rattle.laws_x509.specs.ListRefusals.{EntryRefused, TbsListRefused, ListRefused};
ghost use Rattle.laws_x509.specs.NameRefusals.{AlgorithmRefused, AttributeRefused, KeyRefused, RsaKeyRefused};
ghost use Rattle.laws_x509.specs.PartRefusals.{TimeRefused, ValidityRefused, UpdateRefused, VersionRefused, ExtensionRefused, ExtensionsRefused};
ghost use Rattle.laws_x509.specs.RefusedOctets as refused;

/// An algorithm without its identifier, an attribute without its type and one without its value, a key whose algorithm has no
/// identifier and one without bits, and no RSA key.
pub fn example_of_refused_names()
    ensures algorithm { AllBelowBase 256 refused.empty × (algorithm_at refused.empty ≡ Err (named errors.InvalidAlgorithmIdentifier))
        × AlgorithmRefused errors.InvalidAlgorithmIdentifier refused.empty }
    ensures attr_type { AllBelowBase 256 refused.empty × (attribute_at refused.empty ≡ Err (named errors.InvalidX509Name))
        × AttributeRefused errors.InvalidX509Name refused.empty }
    ensures attr_value { AllBelowBase 256 refused.no_value × (attribute_at refused.no_value ≡ Err (named errors.InvalidX509Name))
        × AttributeRefused errors.InvalidX509Name refused.no_value }
    ensures key_algorithm { AllBelowBase 256 refused.no_key_algorithm × (key_at refused.no_key_algorithm ≡ Err (named errors.InvalidAlgorithmIdentifier))
        × KeyRefused errors.InvalidAlgorithmIdentifier refused.no_key_algorithm }
    ensures key_bits { AllBelowBase 256 refused.no_key_bits × (key_at refused.no_key_bits ≡ Err (named errors.InvalidSPKI))
        × KeyRefused errors.InvalidSPKI refused.no_key_bits }
    ensures rsa_key { AllBelowBase 256 refused.empty × (rsa_key_at refused.empty ≡ Err (named errors.InvalidSPKI)) × RsaKeyRefused errors.InvalidSPKI refused.empty }
{}

/// No time, a validity without its first time and one without its second, and a constructed time.
pub fn example_of_refused_times()
    ensures time { AllBelowBase 256 refused.empty × (time_at refused.empty ≡ Err (named errors.InvalidDate)) × TimeRefused errors.InvalidDate refused.empty }
    ensures not_before { AllBelowBase 256 refused.empty × (validity_at refused.empty ≡ Err (named errors.InvalidDate)) × ValidityRefused errors.InvalidDate refused.empty }
    ensures not_after { AllBelowBase 256 refused.no_end × (validity_at refused.no_end ≡ Err (named errors.InvalidDate)) × ValidityRefused errors.InvalidDate refused.no_end }
    ensures update { AllBelowBase 256 refused.constructed_time × (next_update_at refused.constructed_time ≡ Err (named errors.InvalidDate))
        × UpdateRefused errors.InvalidDate refused.constructed_time }
{}

/// A SEQUENCE that is no version and no extension, and a header of tag number 4 where extensions have 3.
pub fn example_of_refused_extensions()
    ensures version { AllBelowBase 256 refused.empty × (version_at refused.empty ≡ Err (named errors.InvalidVersion))
        × VersionRefused errors.InvalidVersion refused.empty }
    ensures extension { AllBelowBase 256 refused.empty × (named_extension_at (reading_of false) refused.empty ≡ Err (named errors.InvalidExtensions))
        × ExtensionRefused (meaning_of false) errors.InvalidExtensions refused.empty }
    ensures wrapper { AllBelowBase 256 refused.other_wrapper × (extensions_at unread 3 refused.other_wrapper ≡ Err (named errors.InvalidExtensions))
        × ExtensionsRefused 3 errors.InvalidExtensions refused.other_wrapper }
{}

/// Signed parts of certificates, in each of which one part isn't there: version, serial number, algorithm, validity, the key's
/// algorithm and its bits, the issuer's and the subject's unique identifier, and the wrapper of extensions.
pub fn example_of_refused_signed_parts()
    ensures version { AllBelowBase 256 refused.no_version × (tbs_at unread refused.no_version ≡ Err (named errors.InvalidVersion))
        × TbsRefused errors.InvalidVersion refused.no_version }
    ensures serial { AllBelowBase 256 refused.no_serial × (tbs_at unread refused.no_serial ≡ Err (named errors.InvalidSerial))
        × TbsRefused errors.InvalidSerial refused.no_serial }
    ensures signature { AllBelowBase 256 refused.no_signature × (tbs_at unread refused.no_signature ≡ Err (named errors.InvalidAlgorithmIdentifier))
        × TbsRefused errors.InvalidAlgorithmIdentifier refused.no_signature }
    ensures validity { AllBelowBase 256 refused.no_validity × (tbs_at unread refused.no_validity ≡ Err (named errors.InvalidDate))
        × TbsRefused errors.InvalidDate refused.no_validity }
    ensures key_algorithm { AllBelowBase 256 refused.no_certified_algorithm × (tbs_at unread refused.no_certified_algorithm ≡ Err (named errors.InvalidAlgorithmIdentifier))
        × TbsRefused errors.InvalidAlgorithmIdentifier refused.no_certified_algorithm }
    ensures key_bits { AllBelowBase 256 refused.no_certified_bits × (tbs_at unread refused.no_certified_bits ≡ Err (named errors.InvalidSPKI))
        × TbsRefused errors.InvalidSPKI refused.no_certified_bits }
    ensures issuer_id { AllBelowBase 256 refused.no_issuer_id × (tbs_at unread refused.no_issuer_id ≡ Err (named errors.InvalidIssuerUID))
        × TbsRefused errors.InvalidIssuerUID refused.no_issuer_id }
    ensures subject_id { AllBelowBase 256 refused.no_subject_id × (tbs_at unread refused.no_subject_id ≡ Err (named errors.InvalidSubjectUID))
        × TbsRefused errors.InvalidSubjectUID refused.no_subject_id }
    ensures extensions { AllBelowBase 256 refused.no_extensions × (tbs_at unread refused.no_extensions ≡ Err (named errors.InvalidExtensions))
        × TbsRefused errors.InvalidExtensions refused.no_extensions }
{}

/// A certificate without a serial number, one whose second algorithm has no identifier, and one without a signature.
pub fn example_of_refused_certificates()
    ensures serial { AllBelowBase 256 refused.unnumbered × (certificate_at (reading_of false) refused.unnumbered ≡ Err (named errors.InvalidSerial))
        × CertificateRefused (meaning_of false) errors.InvalidSerial refused.unnumbered }
    ensures algorithm { AllBelowBase 256 refused.no_signature_algorithm × (certificate_at (reading_of false) refused.no_signature_algorithm ≡ Err (named errors.InvalidAlgorithmIdentifier))
        × CertificateRefused (meaning_of false) errors.InvalidAlgorithmIdentifier refused.no_signature_algorithm }
    ensures signature_value { AllBelowBase 256 refused.no_signature_value × (certificate_at (reading_of false) refused.no_signature_value ≡ Err (named errors.InvalidSignatureValue))
        × CertificateRefused (meaning_of false) errors.InvalidSignatureValue refused.no_signature_value }
{}

/// Entries without a serial number and without a date, lists without an algorithm's identifier, without a date, with a header of
/// tag number 4 in the place of entries and extensions, and without a signature.
pub fn example_of_refused_lists()
    ensures entry_serial { AllBelowBase 256 refused.empty × (lists.entry_at unread refused.empty ≡ Err (named errors.InvalidSerial))
        × EntryRefused errors.InvalidSerial refused.empty }
    ensures entry_date { AllBelowBase 256 refused.no_entry_date × (lists.entry_at unread refused.no_entry_date ≡ Err (named errors.InvalidDate))
        × EntryRefused errors.InvalidDate refused.no_entry_date }
    ensures signature { AllBelowBase 256 refused.no_list_algorithm × (lists.tbs_at (reading_of false) refused.no_list_algorithm ≡ Err (named errors.InvalidAlgorithmIdentifier))
        × TbsListRefused (meaning_of false) errors.InvalidAlgorithmIdentifier refused.no_list_algorithm }
    ensures date { AllBelowBase 256 refused.no_date × (lists.tbs_at (reading_of false) refused.no_date ≡ Err (named errors.InvalidDate))
        × TbsListRefused (meaning_of false) errors.InvalidDate refused.no_date }
    ensures extensions { AllBelowBase 256 refused.no_list_extensions × (lists.tbs_at (reading_of false) refused.no_list_extensions ≡ Err (named errors.InvalidExtensions))
        × TbsListRefused (meaning_of false) errors.InvalidExtensions refused.no_list_extensions }
    ensures signature_value { AllBelowBase 256 refused.no_list_bits × (lists.list_at (reading_of false) refused.no_list_bits ≡ Err (named errors.InvalidSignatureValue))
        × ListRefused (meaning_of false) errors.InvalidSignatureValue refused.no_list_bits }
{}
