//! Parsers of certificates and of TBSCertificates.

ghost use Rattle.std.specs.Prelude.{◌≡◌, ◌++◌, ◌+◌, ◌*◌, ◌^◌, ◌<◌, ◌≤◌, ℕ, List, true, length, All, IfOk};
ghost use Rattle.asn1_core.specs.Counts.{attempts};
ghost use Rattle.asn1_traits.specs.Elements.{EndsWithinElement};
ghost use Rattle.asn1_traits.specs.Reads.{Reads};
ghost use Rattle.x509_core.specs.Answers.{Gives, ElseMemory};
ghost use Rattle.x509_core.specs.Errors.{told};
ghost use Rattle.x509_core.specs.Grammar.{HoldsWindow, HoldsWhole};
ghost use Rattle.x509_core.specs.Fronts.{TellsMissing, one_rest};
ghost use Rattle.x509_ext.specs.Values.{IsParsed, deeply};
ghost use Rattle.x509_ext.specs.Fields.{IsUnparsed, unread, meaning_of, reading_of};
ghost use Rattle.x509_ext.specs.View.{WantsNoMemory};
ghost use Rattle.x509_certs.specs.Certificates as grammar;
ghost use Rattle.x509_certs.specs.Fields.{Tbs, Certificate};
ghost use Rattle.x509_certs.specs.Reading.{tbs_at, certificate_at};
ghost use Rattle.x509_certs.specs.View.{tbs_view, certificate_view, HasSerial, IsCountedTbs, IsCountedCertificate};

use crate::certificate::{X509Certificate, certificate_of};
use crate::tbs::{TbsCertificate, tbs_of};
use asn1_core::{Err as Refusal, HeaderCount, Needed};
use asn1_traits::{DerMeaning, FromDer};
use std::alloc::Global;
use x509_core::{X509Error, X509Result, front_element};

/// A parser of certificates with an option: whether extension values are parsed.
#[derive(Clone, Copy, Debug)]
pub struct X509CertificateParser {
    deep_parse_extensions: bool,
}

impl X509CertificateParser {
    /// A parser that parses extension values as well.
    pub fn new() -> X509CertificateParser
        ensures { result.deep_parse_extensions ≡ true }
    {
        X509CertificateParser {
            deep_parse_extensions: true,
        }
    }

    /// The parser with this setting: with `false` each value stays `ParsedExtension::Unparsed`,
    /// which is faster.
    pub fn with_deep_parse_extensions(self, deep_parse_extensions: bool) -> X509CertificateParser
        ensures { result.deep_parse_extensions ≡ deep_parse_extensions }
    {
        X509CertificateParser {
            deep_parse_extensions,
        }
    }

    /// Reads one certificate from the front of `i` (RFC 5280, 4.1). Returns `(rest, certificate)`.
    /// A known extension whose value is malformed becomes `ParsedExtension::ParseError`; the
    /// certificate is still read.
    ///
    /// # Errors
    ///
    /// `Incomplete` exactly if `i` ends inside the certificate. Else the error of the first field
    /// that is wrong: `InvalidVersion`; `InvalidSerial`; `InvalidAlgorithmIdentifier` for an
    /// algorithm without an identifier; `InvalidDate`; `InvalidSPKI` for a key without bits;
    /// `InvalidIssuerUID`; `InvalidSubjectUID`; `InvalidExtensions` if anything but extensions
    /// under tag 3 follows; `InvalidSignatureValue`. Out of memory, also while a value is parsed,
    /// is a `Failure`.
    pub fn parse<'a>(&self, alloc: Global, i: &'a [u8]) -> X509Result<'a, X509Certificate<'a>>
        ensures exact { Gives (λ r. (certificate_view r.1, r.0.now)) result (certificate_at (reading_of self.now.deep_parse_extensions) i.now) }
        ensures missing { TellsMissing i.now result }
        ensures window { IfOk result (λ r. i.now ≡ r.1.raw.now ++ r.0.now) }
        ensures serial { IfOk result (λ r. HasSerial r.1.tbs_certificate) }
        ensures counted { IfOk result (λ r. IsCountedCertificate r.1) }
        ensures memory { IfOk result (λ r. All WantsNoMemory r.1.tbs_certificate.extensions.items) }
        ensures found { IfOk result (λ r. grammar.X509Certificate (meaning_of self.now.deep_parse_extensions) i.now (certificate_view r.1) r.0.now) }
        ensures only { (v : Certificate) (rest : List ℕ) → grammar.X509Certificate (meaning_of self.now.deep_parse_extensions) i.now v rest
            → ElseMemory result (λ r. (certificate_view r.1 ≡ v) × (r.0.now ≡ rest)) }
    {
        certificate_at_front(alloc, i, self.deep_parse_extensions)
    }

    /// Reads one certificate as `parse` does without parsing extension values, and adds to `count`
    /// the headers that it tried to read: at most eight an octet, and at least 17 if there is a
    /// certificate. Values stay `ParsedExtension::Unparsed`, whatever the parser's setting.
    ///
    /// # Errors
    ///
    /// The errors of `parse`.
    pub fn parse_counted<'a>(
        &self,
        alloc: Global,
        i: &'a [u8],
        count: &mut HeaderCount,
    ) -> X509Result<'a, X509Certificate<'a>>
        requires { attempts count.old + 8 * length i.now < 2 ^ 128 }
        ensures exact { Gives (λ r. (certificate_view r.1, r.0.now)) result (certificate_at unread i.now) }
        ensures missing { TellsMissing i.now result }
        ensures window { IfOk result (λ r. i.now ≡ r.1.raw.now ++ r.0.now) }
        ensures serial { IfOk result (λ r. HasSerial r.1.tbs_certificate) }
        ensures counted { IfOk result (λ r. IsCountedCertificate r.1) }
        ensures memory { IfOk result (λ r. All WantsNoMemory r.1.tbs_certificate.extensions.items) }
        ensures found { IfOk result (λ r. grammar.X509Certificate IsUnparsed i.now (certificate_view r.1) r.0.now) }
        ensures only { (v : Certificate) (rest : List ℕ) → grammar.X509Certificate IsUnparsed i.now v rest
            → ElseMemory result (λ r. (certificate_view r.1 ≡ v) × (r.0.now ≡ rest)) }
        ensures least { IfOk result (λ _. attempts count.old + 17 ≤ attempts count.new) }
        ensures grows { attempts count.old ≤ attempts count.new }
        ensures most { attempts count.new ≤ attempts count.old + 8 * length i.now }
    {
        counted_certificate(alloc, i, false, count)
    }
}

impl Default for X509CertificateParser {
    ghost use Rattle.std.specs.Prelude.{◌≡◌, true};

    ghost is_default = { λ parser. parser.deep_parse_extensions ≡ true };

    fn default() -> X509CertificateParser {
        X509CertificateParser::new()
    }
}

/// A parser of TBSCertificates with an option: whether extension values are parsed.
#[derive(Clone, Copy, Debug)]
pub struct TbsCertificateParser {
    deep_parse_extensions: bool,
}

impl TbsCertificateParser {
    /// A parser that parses extension values as well.
    pub fn new() -> TbsCertificateParser
        ensures { result.deep_parse_extensions ≡ true }
    {
        TbsCertificateParser {
            deep_parse_extensions: true,
        }
    }

    /// The parser with this setting: with `false` each value stays `ParsedExtension::Unparsed`,
    /// which is faster.
    pub fn with_deep_parse_extensions(self, deep_parse_extensions: bool) -> TbsCertificateParser
        ensures { result.deep_parse_extensions ≡ deep_parse_extensions }
    {
        TbsCertificateParser {
            deep_parse_extensions,
        }
    }

    /// Reads one TBSCertificate from the front of the octets (RFC 5280, 4.1.2). Returns `(rest,
    /// tbs)`.
    ///
    /// # Errors
    ///
    /// The errors that `X509CertificateParser::parse` has for this part.
    pub fn parse<'a>(&self, alloc: Global, i: &'a [u8]) -> X509Result<'a, TbsCertificate<'a>>
        ensures exact { Gives (λ r. (tbs_view r.1, r.0.now)) result (tbs_at (reading_of self.now.deep_parse_extensions) i.now) }
        ensures missing { TellsMissing i.now result }
        ensures window { IfOk result (λ r. i.now ≡ r.1.raw.now ++ r.0.now) }
        ensures serial { IfOk result (λ r. HasSerial r.1) }
        ensures counted { IfOk result (λ r. IsCountedTbs r.1) }
        ensures memory { IfOk result (λ r. All WantsNoMemory r.1.extensions.items) }
        ensures found { IfOk result (λ r. grammar.TbsCertificate (meaning_of self.now.deep_parse_extensions) i.now (tbs_view r.1) r.0.now) }
        ensures only { (v : Tbs) (rest : List ℕ) → grammar.TbsCertificate (meaning_of self.now.deep_parse_extensions) i.now v rest
            → ElseMemory result (λ r. (tbs_view r.1 ≡ v) × (r.0.now ≡ rest)) }
    {
        tbs_at_front(alloc, i, self.deep_parse_extensions)
    }
}

impl Default for TbsCertificateParser {
    ghost use Rattle.std.specs.Prelude.{◌≡◌, true};

    ghost is_default = { λ parser. parser.deep_parse_extensions ≡ true };

    fn default() -> TbsCertificateParser {
        TbsCertificateParser::new()
    }
}

impl<'b> DerMeaning for X509Certificate<'b> {
    ghost der_reads = { λ i v r. grammar.X509Certificate IsParsed i (certificate_view v) r };

    ghost der_cut = { EndsWithinElement };

    ghost der_grows = { Unit {0} };

    ghost one_rest = { λ i v w r s left right. one_rest (HoldsWhole 16 (grammar.CertificateParts IsParsed) (λ c. c.raw)) i (certificate_view v) (certificate_view w) r s left right };
}

impl<'a> FromDer<'a, X509Error> for X509Certificate<'a> {
    /// Reads one certificate, extension values parsed, from the front of `bytes`. Returns `(rest,
    /// certificate)`.
    ///
    /// # Errors
    ///
    /// The errors of `X509CertificateParser::parse`.
    fn from_der(alloc: Global, bytes: &'a [u8]) -> X509Result<'a, X509Certificate<'a>>
        ensures reads { Reads (λ given e. e ≡ told given) (Unit {0}) EndsWithinElement (λ i. i.now)
            (λ i v r. grammar.X509Certificate IsParsed i (certificate_view v) r) bytes.now result }
        ensures exact { Gives (λ r. (certificate_view r.1, r.0.now)) result (certificate_at deeply bytes.now) }
        ensures missing { TellsMissing bytes.now result }
        ensures window { IfOk result (λ r. bytes.now ≡ r.1.raw.now ++ r.0.now) }
        ensures serial { IfOk result (λ r. HasSerial r.1.tbs_certificate) }
        ensures counted { IfOk result (λ r. IsCountedCertificate r.1) }
        ensures memory { IfOk result (λ r. All WantsNoMemory r.1.tbs_certificate.extensions.items) }
        ensures found { IfOk result (λ r. grammar.X509Certificate IsParsed bytes.now (certificate_view r.1) r.0.now) }
        ensures only { (v : Certificate) (rest : List ℕ) → grammar.X509Certificate IsParsed bytes.now v rest
            → ElseMemory result (λ r. (certificate_view r.1 ≡ v) × (r.0.now ≡ rest)) }
    {
        certificate_at_front(alloc, bytes, true)
    }
}

impl<'b> DerMeaning for TbsCertificate<'b> {
    ghost der_reads = { λ i v r. grammar.TbsCertificate IsParsed i (tbs_view v) r };

    ghost der_cut = { EndsWithinElement };

    ghost der_grows = { Unit {0} };

    ghost one_rest = { λ i v w r s left right. one_rest (HoldsWindow 16 (grammar.TbsParts IsParsed) (λ t. t.raw)) i (tbs_view v) (tbs_view w) r s left right };
}

impl<'a> FromDer<'a, X509Error> for TbsCertificate<'a> {
    /// Reads one TBSCertificate, extension values parsed, from the front of `bytes`. Returns
    /// `(rest, tbs)`.
    ///
    /// # Errors
    ///
    /// The errors of `TbsCertificateParser::parse`.
    fn from_der(alloc: Global, bytes: &'a [u8]) -> X509Result<'a, TbsCertificate<'a>>
        ensures reads { Reads (λ given e. e ≡ told given) (Unit {0}) EndsWithinElement (λ i. i.now)
            (λ i v r. grammar.TbsCertificate IsParsed i (tbs_view v) r) bytes.now result }
        ensures exact { Gives (λ r. (tbs_view r.1, r.0.now)) result (tbs_at deeply bytes.now) }
        ensures missing { TellsMissing bytes.now result }
        ensures window { IfOk result (λ r. bytes.now ≡ r.1.raw.now ++ r.0.now) }
        ensures serial { IfOk result (λ r. HasSerial r.1) }
        ensures counted { IfOk result (λ r. IsCountedTbs r.1) }
        ensures memory { IfOk result (λ r. All WantsNoMemory r.1.extensions.items) }
        ensures found { IfOk result (λ r. grammar.TbsCertificate IsParsed bytes.now (tbs_view r.1) r.0.now) }
        ensures only { (v : Tbs) (rest : List ℕ) → grammar.TbsCertificate IsParsed bytes.now v rest
            → ElseMemory result (λ r. (tbs_view r.1 ≡ v) × (r.0.now ≡ rest)) }
    {
        tbs_at_front(alloc, bytes, true)
    }
}

/// Reads one certificate from the front of `i`, as `X509Certificate::from_der`. Returns `(rest,
/// certificate)`.
///
/// # Errors
///
/// The errors of `X509CertificateParser::parse`.
pub fn parse_x509_certificate<'a>(alloc: Global, i: &'a [u8]) -> X509Result<'a, X509Certificate<'a>>
    ensures exact { Gives (λ r. (certificate_view r.1, r.0.now)) result (certificate_at deeply i.now) }
    ensures missing { TellsMissing i.now result }
    ensures window { IfOk result (λ r. i.now ≡ r.1.raw.now ++ r.0.now) }
    ensures serial { IfOk result (λ r. HasSerial r.1.tbs_certificate) }
    ensures counted { IfOk result (λ r. IsCountedCertificate r.1) }
    ensures memory { IfOk result (λ r. All WantsNoMemory r.1.tbs_certificate.extensions.items) }
    ensures found { IfOk result (λ r. grammar.X509Certificate IsParsed i.now (certificate_view r.1) r.0.now) }
    ensures only { (v : Certificate) (rest : List ℕ) → grammar.X509Certificate IsParsed i.now v rest
        → ElseMemory result (λ r. (certificate_view r.1 ≡ v) × (r.0.now ≡ rest)) }
{
    X509Certificate::from_der(alloc, i)
}

/// Reads one certificate from the front of `i`; the older name of [`parse_x509_certificate`].
///
/// # Errors
///
/// The errors of `X509CertificateParser::parse`.
pub fn parse_x509_der<'a>(alloc: Global, i: &'a [u8]) -> X509Result<'a, X509Certificate<'a>>
    ensures exact { Gives (λ r. (certificate_view r.1, r.0.now)) result (certificate_at deeply i.now) }
    ensures missing { TellsMissing i.now result }
    ensures window { IfOk result (λ r. i.now ≡ r.1.raw.now ++ r.0.now) }
    ensures serial { IfOk result (λ r. HasSerial r.1.tbs_certificate) }
    ensures counted { IfOk result (λ r. IsCountedCertificate r.1) }
    ensures memory { IfOk result (λ r. All WantsNoMemory r.1.tbs_certificate.extensions.items) }
    ensures found { IfOk result (λ r. grammar.X509Certificate IsParsed i.now (certificate_view r.1) r.0.now) }
    ensures only { (v : Certificate) (rest : List ℕ) → grammar.X509Certificate IsParsed i.now v rest
        → ElseMemory result (λ r. (certificate_view r.1 ≡ v) × (r.0.now ≡ rest)) }
{
    parse_x509_certificate(alloc, i)
}

fn tbs_at_front<'a>(alloc: Global, i: &'a [u8], deep: bool) -> X509Result<'a, TbsCertificate<'a>>
    ensures exact { Gives (λ r. (tbs_view r.1, r.0.now)) result (tbs_at (reading_of deep) i.now) }
    ensures missing { TellsMissing i.now result }
    ensures serial { IfOk result (λ r. HasSerial r.1) }
    ensures counted { IfOk result (λ r. IsCountedTbs r.1) }
    ensures memory { IfOk result (λ r. All WantsNoMemory r.1.extensions.items) }
{
    let mut count = HeaderCount::new();
    let (rest, element) = front_element(i, &mut count)?;
    match tbs_of(alloc, element, deep, &mut count) {
        Ok(tbs) => Ok((rest, tbs)),
        Err(refusal) => Err(Refusal::within(refusal)),
    }
}

fn certificate_at_front<'a>(
    alloc: Global,
    i: &'a [u8],
    deep: bool,
) -> X509Result<'a, X509Certificate<'a>>
    ensures exact { Gives (λ r. (certificate_view r.1, r.0.now)) result (certificate_at (reading_of deep) i.now) }
    ensures missing { TellsMissing i.now result }
    ensures serial { IfOk result (λ r. HasSerial r.1.tbs_certificate) }
    ensures counted { IfOk result (λ r. IsCountedCertificate r.1) }
    ensures memory { IfOk result (λ r. All WantsNoMemory r.1.tbs_certificate.extensions.items) }
{
    let mut count = HeaderCount::new();
    counted_certificate(alloc, i, deep, &mut count)
}

// Of no octets no header is tried, so that the count may be as high as it gets.
fn counted_certificate<'a>(
    alloc: Global,
    i: &'a [u8],
    deep: bool,
    count: &mut HeaderCount,
) -> X509Result<'a, X509Certificate<'a>>
    requires { attempts count.old + 8 * length i.now < 2 ^ 128 }
    ensures exact { Gives (λ r. (certificate_view r.1, r.0.now)) result (certificate_at (reading_of deep) i.now) }
    ensures missing { TellsMissing i.now result }
    ensures serial { IfOk result (λ r. HasSerial r.1.tbs_certificate) }
    ensures counted { IfOk result (λ r. IsCountedCertificate r.1) }
    ensures memory { IfOk result (λ r. All WantsNoMemory r.1.tbs_certificate.extensions.items) }
    ensures least { IfOk result (λ _. attempts count.old + 17 ≤ attempts count.new) }
    ensures grows { attempts count.old ≤ attempts count.new }
    ensures most { attempts count.new ≤ attempts count.old + 8 * length i.now }
{
    if i.is_empty() {
        return Err(Refusal::Incomplete(Needed::Size(1)));
    }
    let (rest, element) = front_element(i, count)?;
    match certificate_of(alloc, element, deep, count) {
        Ok(certificate) => Ok((rest, certificate)),
        Err(refusal) => Err(Refusal::within(refusal)),
    }
}
