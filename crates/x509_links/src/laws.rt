//! Laws of strict encodings and lenient readers. Each is a function without an effect; its contract
//! is the law.

ghost use Rattle.std.specs.Prelude.{◌≡◌, ◌^◌, ◌<◌, ◌++◌, ℕ, Bool, false, List, [], length};
ghost use Rattle.std.specs.Int.Digits.{AllBelowBase};
ghost use Rattle.cert_framing.specs.Framing.{IsItem};
ghost use Rattle.cert_model.specs.Class.{IsCertificateItem, IsListItem};
ghost use Rattle.cert_model.specs.Examples.{constrained, new_year, octets_of_constrained};
ghost use Rattle.cert_model.specs.Fields.{Algorithm, Name, Key, CivilTime, Certificate, RevocationList};
ghost use Rattle.cert_model.specs.Octets.{algorithm_octets, name_octets, key_octets, time_octets, certificate_octets, list_octets};
ghost use Rattle.cert_model.specs.Range.{IsAlgorithm, IsName, IsKey, IsTimeField, AreCertificateFields, AreListFields};
ghost use Rattle.cert_model.specs.View.{time_view};
ghost use Rattle.jiff.specs.Words.{civil_nanos};
ghost use Rattle.jiff_core.specs.declared.civil.datetime.DateTime.{DateTime};
ghost use Rattle.x509_time.specs.Times.{ASN1Time};
ghost use Rattle.x509_names.specs.Names.{AlgorithmIdentifier, X509Name, SubjectPublicKeyInfo};
ghost use Rattle.x509_certs.specs.Shared.{meaning_of, reading_of};
ghost use Rattle.x509_certs.specs.Shared.{IsParsed};
ghost use Rattle.x509_certs.specs.Shared.{IsUnparsed};
ghost use Rattle.x509_certs.specs.Certificates.{X509Certificate};
ghost use Rattle.x509_certs.specs.Fields.{Certificate as ReadCertificate};
ghost use Rattle.x509_lists.specs.Fields.{RevocationList as ReadList};
ghost use Rattle.x509_lists.specs.Lists.{CertificateRevocationList};
ghost use Rattle.x509_links.specs.Examples.{first_of_2025, revoking_with_reason, octets_of_revoking_with_reason};
ghost use Rattle.x509_links.specs.Lenient.{lenient_algorithm, lenient_name, lenient_key, nanoseconds_of, lenient_time, lenient_certificate, lenient_list};
ghost use Rattle.x509_links.specs.Values.{certificate_by, list_by, parsed_certificate, parsed_list};

/// A strictly encoded algorithm is read, whatever octets follow.
pub fn strict_algorithm()
    ensures { (a : Algorithm) (rest : List ℕ) → IsAlgorithm a → length (algorithm_octets a) < 2 ^ 64
        → AlgorithmIdentifier (algorithm_octets a ++ rest) (lenient_algorithm a) rest }
{}

/// A strictly encoded name is read, whatever octets follow, and is its window.
pub fn strict_name()
    ensures { (n : Name) (rest : List ℕ) → IsName n → length (name_octets n) < 2 ^ 64
        → X509Name (name_octets n ++ rest) (lenient_name n) rest }
{}

/// A strictly encoded key is read, whatever octets follow, and is its window.
pub fn strict_key()
    ensures { (k : Key) (rest : List ℕ) → IsKey k → length (key_octets k) < 2 ^ 64
        → SubjectPublicKeyInfo (key_octets k ++ rest) (lenient_key k) rest }
{}

/// A strictly encoded time is read, whatever octets follow.
pub fn strict_time()
    ensures { (t : CivilTime) (rest : List ℕ) → IsTimeField t → ASN1Time (time_octets t ++ rest) (lenient_time t) rest }
{}

/// The moment of a strictly encoded time is that of one date and time of day.
pub fn one_time()
    ensures { (t : CivilTime) (moment : DateTime) → IsTimeField t → civil_nanos moment ≡ nanoseconds_of t → time_view moment ≡ t }
{}

/// A strictly encoded certificate is read, whatever octets follow, and is its window.
pub fn strict_certificate()
    ensures { (c : Certificate) (rest : List ℕ) → AreCertificateFields c → length (certificate_octets c) < 2 ^ 64
        → X509Certificate IsUnparsed (certificate_octets c ++ rest) (lenient_certificate c) rest }
{}

/// A strictly encoded revocation list, of a length within the greatest limit, is read, whatever
/// octets follow, and is its window.
pub fn strict_list()
    ensures { (l : RevocationList) (rest : List ℕ) → AreListFields l → length (list_octets l) < 2 ^ 64 → IsItem 4_294_967_295 (list_octets l)
        → CertificateRevocationList IsUnparsed (list_octets l ++ rest) (lenient_list l) rest }
{}

/// The setting of deep parsing changes parsed values only: what a parser with one setting reads, a
/// parser with the other reads too, with equal other fields.
pub fn either_parser()
    ensures certificate { (deep other : Bool) (octets : List ℕ) (c : ReadCertificate) (rest : List ℕ) → AllBelowBase 256 octets
        → X509Certificate (meaning_of deep) octets c rest → X509Certificate (meaning_of other) octets (certificate_by (reading_of other) c) rest }
    ensures list { (deep other : Bool) (octets : List ℕ) (l : ReadList) (rest : List ℕ) → AllBelowBase 256 octets
        → CertificateRevocationList (meaning_of deep) octets l rest → CertificateRevocationList (meaning_of other) octets (list_by (reading_of other) l) rest }
{}

/// `X509Certificate::from_der` reads a strictly encoded certificate whole, whatever octets follow:
/// the fields are those of `strict_certificate`, extension values are parsed, and the window is the
/// certificate.
pub fn certificate_from_der()
    ensures fields { (c : Certificate) (rest : List ℕ) → AreCertificateFields c → AllBelowBase 256 (certificate_octets c) → length (certificate_octets c) < 2 ^ 64
        → X509Certificate IsParsed (certificate_octets c ++ rest) (parsed_certificate c) rest }
    ensures item { (item : List ℕ) (c : Certificate) (rest : List ℕ) → IsCertificateItem item c → AllBelowBase 256 item → length item < 2 ^ 64
        → X509Certificate IsParsed (item ++ rest) (parsed_certificate c) rest × ((parsed_certificate c).raw ≡ item) }
{}

/// `CertificateRevocationList::from_der` reads a strictly encoded list whole, whatever octets
/// follow: the fields are those of `strict_list`, extension values of list and entries are parsed,
/// and the window is the list.
pub fn list_from_der()
    ensures fields { (l : RevocationList) (rest : List ℕ) → AreListFields l → AllBelowBase 256 (list_octets l) → length (list_octets l) < 2 ^ 64 → IsItem 4_294_967_295 (list_octets l)
        → CertificateRevocationList IsParsed (list_octets l ++ rest) (parsed_list l) rest }
    ensures item { (item : List ℕ) (l : RevocationList) (rest : List ℕ) → IsListItem item l → AllBelowBase 256 item → length item < 2 ^ 64
        → CertificateRevocationList IsParsed (item ++ rest) (parsed_list l) rest × ((parsed_list l).raw ≡ item) }
{}

/// Examples that meet the premises of the laws of `from_der` and of parsers: a certificate with an
/// extension, and a list with one whose entry has one too.
pub fn example_items()
    ensures certificate { AllBelowBase 256 octets_of_constrained × (length octets_of_constrained < 2 ^ 64) × IsCertificateItem octets_of_constrained constrained }
    ensures certificate_read { X509Certificate IsUnparsed octets_of_constrained (lenient_certificate constrained) [] }
    ensures certificate_by_setting { AllBelowBase 256 octets_of_constrained × X509Certificate (meaning_of false) octets_of_constrained (lenient_certificate constrained) [] }
    ensures list { AllBelowBase 256 octets_of_revoking_with_reason × (length octets_of_revoking_with_reason < 2 ^ 64)
        × IsListItem octets_of_revoking_with_reason revoking_with_reason }
    ensures list_read { CertificateRevocationList IsUnparsed octets_of_revoking_with_reason (lenient_list revoking_with_reason) [] }
    ensures list_by_setting { AllBelowBase 256 octets_of_revoking_with_reason × CertificateRevocationList (meaning_of false) octets_of_revoking_with_reason (lenient_list revoking_with_reason) [] }
{}

/// The first of January 2025 at midnight has the nanoseconds of its date and time of the calendar.
pub fn example_of_one_time()
    ensures { IsTimeField (new_year 2025) × (civil_nanos first_of_2025 ≡ nanoseconds_of (new_year 2025)) }
{}
