//! The parser of revocation lists, and readers of lists, TBSCertLists and entries.

ghost use Rattle.std.specs.Prelude.{◌≡◌, ◌++◌, ◌+◌, ◌*◌, ◌^◌, ◌<◌, ◌≤◌, ℕ, List, true, length, All, IfOk};
ghost use Rattle.asn1_core.specs.Counts.{attempts};
ghost use Rattle.asn1_traits.specs.Elements.{EndsWithinElement};
ghost use Rattle.asn1_traits.specs.Reads.{Reads};
ghost use Rattle.x509_core.specs.Answers.{Gives, ElseMemory};
ghost use Rattle.x509_core.specs.Errors.{told};
ghost use Rattle.x509_core.specs.Grammar.{Holds, HoldsWindow, HoldsWhole};
ghost use Rattle.x509_names.specs.Fronts.{TellsMissing, one_rest};
ghost use Rattle.x509_ext.specs.Values.{IsParsed, deeply};
ghost use Rattle.x509_ext.specs.Fields.{IsUnparsed, unread, meaning_of, reading_of};
ghost use Rattle.x509_ext.specs.View.{WantsNoMemory};
ghost use Rattle.x509_lists.specs.Lists as grammar;
ghost use Rattle.x509_lists.specs.Fields.{Entry, TbsList, RevocationList};
ghost use Rattle.x509_lists.specs.Reading.{entry_at, tbs_at, list_at};
ghost use Rattle.x509_lists.specs.View.{entry_view, tbs_view, list_view, HasSerial, HaveSerials, IsCountedEntry, EntryWantsNoMemory, EntriesWantNoMemory, IsCountedTbs, IsCountedList};

use crate::entry::{RevokedCertificate, entry_of};
use crate::list::{CertificateRevocationList, list_of};
use crate::tbs::{TbsCertList, tbs_of};
use asn1_core::{Err as Refusal, HeaderCount, Needed};
use asn1_traits::{DerMeaning, FromDer};
use std::alloc::Global;
use x509_core::{X509Error, X509Result};
use x509_names::whole_element;

/// A parser of revocation lists with an option: whether extension values are parsed.
#[derive(Clone, Copy, Debug)]
pub struct CertificateRevocationListParser {
    deep_parse_extensions: bool,
}

impl CertificateRevocationListParser {
    /// A parser that parses extension values as well.
    pub fn new() -> CertificateRevocationListParser
        ensures { result.deep_parse_extensions ≡ true }
    {
        CertificateRevocationListParser {
            deep_parse_extensions: true,
        }
    }

    /// The parser with this setting: with `false` each value stays `ParsedExtension::Unparsed`,
    /// which is faster.
    pub fn with_deep_parse_extensions(
        self,
        deep_parse_extensions: bool,
    ) -> CertificateRevocationListParser
        ensures { result.deep_parse_extensions ≡ deep_parse_extensions }
    {
        CertificateRevocationListParser {
            deep_parse_extensions,
        }
    }

    /// Reads one revocation list from the front of `i` (RFC 5280, 5.1). Returns `(rest, list)`. A
    /// known extension whose value is malformed becomes `ParsedExtension::ParseError`, and
    /// malformed extensions of an entry are ignored; the list is still read.
    ///
    /// # Errors
    ///
    /// `Incomplete` exactly if `i` ends inside the list. Else the error of the first field that is
    /// wrong: `InvalidAlgorithmIdentifier` for an algorithm without an identifier; `InvalidDate`;
    /// `InvalidExtensions` if anything but entries, and then extensions under tag 0, follows the
    /// dates; `InvalidSignatureValue`. Out of memory, also while a value is parsed, is a `Failure`.
    pub fn parse<'a>(
        &self,
        alloc: Global,
        i: &'a [u8],
    ) -> X509Result<'a, CertificateRevocationList<'a>>
        ensures exact { Gives (λ r. (list_view r.1, r.0.now)) result (list_at (reading_of self.now.deep_parse_extensions) i.now) }
        ensures missing { TellsMissing i.now result }
        ensures window { IfOk result (λ r. i.now ≡ r.1.raw.now ++ r.0.now) }
        ensures serials { IfOk result (λ r. HaveSerials r.1.tbs_cert_list) }
        ensures counted { IfOk result (λ r. IsCountedList r.1) }
        ensures memory { IfOk result (λ r. All WantsNoMemory r.1.tbs_cert_list.extensions.items) }
        ensures entries { IfOk result (λ r. EntriesWantNoMemory r.1.tbs_cert_list) }
        ensures found { IfOk result (λ r. grammar.CertificateRevocationList (meaning_of self.now.deep_parse_extensions) i.now (list_view r.1) r.0.now) }
        ensures only { (v : RevocationList) (rest : List ℕ) → grammar.CertificateRevocationList (meaning_of self.now.deep_parse_extensions) i.now v rest
            → ElseMemory result (λ r. (list_view r.1 ≡ v) × (r.0.now ≡ rest)) }
    {
        list_at_front(alloc, i, self.deep_parse_extensions)
    }

    /// Reads one list as `parse` does without parsing extension values, and adds to `count` the
    /// headers that it tried to read: at most eight an octet, and at least nine if there is a list.
    /// Values stay `ParsedExtension::Unparsed`, whatever the parser's setting.
    ///
    /// # Errors
    ///
    /// The errors of `parse`.
    pub fn parse_counted<'a>(
        &self,
        alloc: Global,
        i: &'a [u8],
        count: &mut HeaderCount,
    ) -> X509Result<'a, CertificateRevocationList<'a>>
        requires { attempts count.old + 8 * length i.now < 2 ^ 128 }
        ensures exact { Gives (λ r. (list_view r.1, r.0.now)) result (list_at unread i.now) }
        ensures missing { TellsMissing i.now result }
        ensures window { IfOk result (λ r. i.now ≡ r.1.raw.now ++ r.0.now) }
        ensures serials { IfOk result (λ r. HaveSerials r.1.tbs_cert_list) }
        ensures counted { IfOk result (λ r. IsCountedList r.1) }
        ensures memory { IfOk result (λ r. All WantsNoMemory r.1.tbs_cert_list.extensions.items) }
        ensures entries { IfOk result (λ r. EntriesWantNoMemory r.1.tbs_cert_list) }
        ensures found { IfOk result (λ r. grammar.CertificateRevocationList IsUnparsed i.now (list_view r.1) r.0.now) }
        ensures only { (v : RevocationList) (rest : List ℕ) → grammar.CertificateRevocationList IsUnparsed i.now v rest
            → ElseMemory result (λ r. (list_view r.1 ≡ v) × (r.0.now ≡ rest)) }
        ensures least { IfOk result (λ _. attempts count.old + 9 ≤ attempts count.new) }
        ensures grows { attempts count.old ≤ attempts count.new }
        ensures most { attempts count.new ≤ attempts count.old + 8 * length i.now }
    {
        counted_list(alloc, i, false, count)
    }
}

impl Default for CertificateRevocationListParser {
    ghost use Rattle.std.specs.Prelude.{◌≡◌, true};

    ghost is_default = { λ parser. parser.deep_parse_extensions ≡ true };

    fn default() -> CertificateRevocationListParser {
        CertificateRevocationListParser::new()
    }
}

impl<'b> DerMeaning for CertificateRevocationList<'b> {
    ghost der_reads = { λ i v r. grammar.CertificateRevocationList IsParsed i (list_view v) r };

    ghost der_cut = { EndsWithinElement };

    ghost der_grows = { Unit {0} };

    ghost one_rest = { λ i v w r s left right. one_rest (HoldsWhole 16 (grammar.ListParts IsParsed) (λ l. l.raw)) i (list_view v) (list_view w) r s left right };
}

impl<'a> FromDer<'a, X509Error> for CertificateRevocationList<'a> {
    /// Reads one list, extension values parsed, from the front of `bytes`. Returns `(rest, list)`.
    ///
    /// # Errors
    ///
    /// The errors of `CertificateRevocationListParser::parse`.
    fn from_der(alloc: Global, bytes: &'a [u8]) -> X509Result<'a, CertificateRevocationList<'a>>
        ensures reads { Reads (λ given e. e ≡ told given) (Unit {0}) EndsWithinElement (λ i. i.now)
            (λ i v r. grammar.CertificateRevocationList IsParsed i (list_view v) r) bytes.now result }
        ensures exact { Gives (λ r. (list_view r.1, r.0.now)) result (list_at deeply bytes.now) }
        ensures missing { TellsMissing bytes.now result }
        ensures window { IfOk result (λ r. bytes.now ≡ r.1.raw.now ++ r.0.now) }
        ensures serials { IfOk result (λ r. HaveSerials r.1.tbs_cert_list) }
        ensures counted { IfOk result (λ r. IsCountedList r.1) }
        ensures memory { IfOk result (λ r. All WantsNoMemory r.1.tbs_cert_list.extensions.items) }
        ensures entries { IfOk result (λ r. EntriesWantNoMemory r.1.tbs_cert_list) }
        ensures found { IfOk result (λ r. grammar.CertificateRevocationList IsParsed bytes.now (list_view r.1) r.0.now) }
        ensures only { (v : RevocationList) (rest : List ℕ) → grammar.CertificateRevocationList IsParsed bytes.now v rest
            → ElseMemory result (λ r. (list_view r.1 ≡ v) × (r.0.now ≡ rest)) }
    {
        list_at_front(alloc, bytes, true)
    }
}

impl<'b> DerMeaning for TbsCertList<'b> {
    ghost der_reads = { λ i v r. grammar.TbsCertList IsParsed i (tbs_view v) r };

    ghost der_cut = { EndsWithinElement };

    ghost der_grows = { Unit {0} };

    ghost one_rest = { λ i v w r s left right. one_rest (HoldsWindow 16 (grammar.TbsParts IsParsed) (λ t. t.raw)) i (tbs_view v) (tbs_view w) r s left right };
}

impl<'a> FromDer<'a, X509Error> for TbsCertList<'a> {
    /// Reads one TBSCertList from the front of `bytes` (RFC 5280, 5.1.2). Returns `(rest, tbs)`.
    ///
    /// # Errors
    ///
    /// The errors that `CertificateRevocationListParser::parse` has for this part.
    fn from_der(alloc: Global, bytes: &'a [u8]) -> X509Result<'a, TbsCertList<'a>>
        ensures reads { Reads (λ given e. e ≡ told given) (Unit {0}) EndsWithinElement (λ i. i.now)
            (λ i v r. grammar.TbsCertList IsParsed i (tbs_view v) r) bytes.now result }
        ensures exact { Gives (λ r. (tbs_view r.1, r.0.now)) result (tbs_at deeply bytes.now) }
        ensures missing { TellsMissing bytes.now result }
        ensures window { IfOk result (λ r. bytes.now ≡ r.1.raw.now ++ r.0.now) }
        ensures serials { IfOk result (λ r. HaveSerials r.1) }
        ensures counted { IfOk result (λ r. IsCountedTbs r.1) }
        ensures memory { IfOk result (λ r. All WantsNoMemory r.1.extensions.items) }
        ensures entries { IfOk result (λ r. EntriesWantNoMemory r.1) }
        ensures found { IfOk result (λ r. grammar.TbsCertList IsParsed bytes.now (tbs_view r.1) r.0.now) }
        ensures only { (v : TbsList) (rest : List ℕ) → grammar.TbsCertList IsParsed bytes.now v rest
            → ElseMemory result (λ r. (tbs_view r.1 ≡ v) × (r.0.now ≡ rest)) }
    {
        tbs_at_front(alloc, bytes, true)
    }
}

impl<'b> DerMeaning for RevokedCertificate<'b> {
    ghost der_reads = { λ i v r. grammar.RevokedCertificate IsParsed i (entry_view v) r };

    ghost der_cut = { EndsWithinElement };

    ghost der_grows = { Unit {0} };

    ghost one_rest = { λ i v w r s left right. one_rest (Holds 16 (grammar.EntryParts IsParsed)) i (entry_view v) (entry_view w) r s left right };
}

impl<'a> FromDer<'a, X509Error> for RevokedCertificate<'a> {
    /// Reads one entry from the front of `bytes` (RFC 5280, 5.1.2.6). Returns `(rest, entry)`.
    /// Malformed extensions are ignored.
    ///
    /// # Errors
    ///
    /// `InvalidSerial` without a serial number; `InvalidDate` without a time after it; `Incomplete`
    /// if `bytes` ends inside the entry.
    fn from_der(alloc: Global, bytes: &'a [u8]) -> X509Result<'a, RevokedCertificate<'a>>
        ensures reads { Reads (λ given e. e ≡ told given) (Unit {0}) EndsWithinElement (λ i. i.now)
            (λ i v r. grammar.RevokedCertificate IsParsed i (entry_view v) r) bytes.now result }
        ensures exact { Gives (λ r. (entry_view r.1, r.0.now)) result (entry_at deeply bytes.now) }
        ensures missing { TellsMissing bytes.now result }
        ensures serial { IfOk result (λ r. HasSerial r.1) }
        ensures counted { IfOk result (λ r. IsCountedEntry r.1) }
        ensures memory { IfOk result (λ r. EntryWantsNoMemory r.1) }
        ensures found { IfOk result (λ r. grammar.RevokedCertificate IsParsed bytes.now (entry_view r.1) r.0.now) }
        ensures only { (v : Entry) (rest : List ℕ) → grammar.RevokedCertificate IsParsed bytes.now v rest
            → ElseMemory result (λ r. (entry_view r.1 ≡ v) × (r.0.now ≡ rest)) }
    {
        entry_at_front(alloc, bytes, true)
    }
}

/// Reads one list from the front of `i`, as `CertificateRevocationList::from_der`. Returns `(rest,
/// list)`.
///
/// # Errors
///
/// The errors of `CertificateRevocationListParser::parse`.
pub fn parse_x509_crl<'a>(
    alloc: Global,
    i: &'a [u8],
) -> X509Result<'a, CertificateRevocationList<'a>>
    ensures exact { Gives (λ r. (list_view r.1, r.0.now)) result (list_at deeply i.now) }
    ensures missing { TellsMissing i.now result }
    ensures window { IfOk result (λ r. i.now ≡ r.1.raw.now ++ r.0.now) }
    ensures serials { IfOk result (λ r. HaveSerials r.1.tbs_cert_list) }
    ensures counted { IfOk result (λ r. IsCountedList r.1) }
    ensures memory { IfOk result (λ r. All WantsNoMemory r.1.tbs_cert_list.extensions.items) }
    ensures entries { IfOk result (λ r. EntriesWantNoMemory r.1.tbs_cert_list) }
    ensures found { IfOk result (λ r. grammar.CertificateRevocationList IsParsed i.now (list_view r.1) r.0.now) }
    ensures only { (v : RevocationList) (rest : List ℕ) → grammar.CertificateRevocationList IsParsed i.now v rest
        → ElseMemory result (λ r. (list_view r.1 ≡ v) × (r.0.now ≡ rest)) }
{
    CertificateRevocationList::from_der(alloc, i)
}

/// Reads one list from the front of `i`; the older name of [`parse_x509_crl`].
///
/// # Errors
///
/// The errors of `CertificateRevocationListParser::parse`.
pub fn parse_crl_der<'a>(
    alloc: Global,
    i: &'a [u8],
) -> X509Result<'a, CertificateRevocationList<'a>>
    ensures exact { Gives (λ r. (list_view r.1, r.0.now)) result (list_at deeply i.now) }
    ensures missing { TellsMissing i.now result }
    ensures window { IfOk result (λ r. i.now ≡ r.1.raw.now ++ r.0.now) }
    ensures serials { IfOk result (λ r. HaveSerials r.1.tbs_cert_list) }
    ensures counted { IfOk result (λ r. IsCountedList r.1) }
    ensures memory { IfOk result (λ r. All WantsNoMemory r.1.tbs_cert_list.extensions.items) }
    ensures entries { IfOk result (λ r. EntriesWantNoMemory r.1.tbs_cert_list) }
    ensures found { IfOk result (λ r. grammar.CertificateRevocationList IsParsed i.now (list_view r.1) r.0.now) }
    ensures only { (v : RevocationList) (rest : List ℕ) → grammar.CertificateRevocationList IsParsed i.now v rest
        → ElseMemory result (λ r. (list_view r.1 ≡ v) × (r.0.now ≡ rest)) }
{
    parse_x509_crl(alloc, i)
}

fn entry_at_front<'a>(
    alloc: Global,
    i: &'a [u8],
    deep: bool,
) -> X509Result<'a, RevokedCertificate<'a>>
    ensures exact { Gives (λ r. (entry_view r.1, r.0.now)) result (entry_at (reading_of deep) i.now) }
    ensures missing { TellsMissing i.now result }
    ensures serial { IfOk result (λ r. HasSerial r.1) }
    ensures counted { IfOk result (λ r. IsCountedEntry r.1) }
    ensures memory { IfOk result (λ r. EntryWantsNoMemory r.1) }
{
    let mut count = HeaderCount::new();
    let (rest, element) = whole_element(i, &mut count)?;
    match entry_of(alloc, element, deep, &mut count) {
        Ok(entry) => Ok((rest, entry)),
        Err(refusal) => Err(Refusal::within(refusal)),
    }
}

fn tbs_at_front<'a>(alloc: Global, i: &'a [u8], deep: bool) -> X509Result<'a, TbsCertList<'a>>
    ensures exact { Gives (λ r. (tbs_view r.1, r.0.now)) result (tbs_at (reading_of deep) i.now) }
    ensures missing { TellsMissing i.now result }
    ensures serials { IfOk result (λ r. HaveSerials r.1) }
    ensures counted { IfOk result (λ r. IsCountedTbs r.1) }
    ensures memory { IfOk result (λ r. All WantsNoMemory r.1.extensions.items) }
    ensures entries { IfOk result (λ r. EntriesWantNoMemory r.1) }
{
    let mut count = HeaderCount::new();
    let (rest, element) = whole_element(i, &mut count)?;
    match tbs_of(alloc, element, deep, &mut count) {
        Ok(tbs) => Ok((rest, tbs)),
        Err(refusal) => Err(Refusal::within(refusal)),
    }
}

fn list_at_front<'a>(
    alloc: Global,
    i: &'a [u8],
    deep: bool,
) -> X509Result<'a, CertificateRevocationList<'a>>
    ensures exact { Gives (λ r. (list_view r.1, r.0.now)) result (list_at (reading_of deep) i.now) }
    ensures missing { TellsMissing i.now result }
    ensures serials { IfOk result (λ r. HaveSerials r.1.tbs_cert_list) }
    ensures counted { IfOk result (λ r. IsCountedList r.1) }
    ensures memory { IfOk result (λ r. All WantsNoMemory r.1.tbs_cert_list.extensions.items) }
    ensures entries { IfOk result (λ r. EntriesWantNoMemory r.1.tbs_cert_list) }
{
    let mut count = HeaderCount::new();
    counted_list(alloc, i, deep, &mut count)
}

// Of no octets no header is tried, so that the count may be as high as it gets.
fn counted_list<'a>(
    alloc: Global,
    i: &'a [u8],
    deep: bool,
    count: &mut HeaderCount,
) -> X509Result<'a, CertificateRevocationList<'a>>
    requires { attempts count.old + 8 * length i.now < 2 ^ 128 }
    ensures exact { Gives (λ r. (list_view r.1, r.0.now)) result (list_at (reading_of deep) i.now) }
    ensures missing { TellsMissing i.now result }
    ensures serials { IfOk result (λ r. HaveSerials r.1.tbs_cert_list) }
    ensures counted { IfOk result (λ r. IsCountedList r.1) }
    ensures memory { IfOk result (λ r. All WantsNoMemory r.1.tbs_cert_list.extensions.items) }
    ensures entries { IfOk result (λ r. EntriesWantNoMemory r.1.tbs_cert_list) }
    ensures least { IfOk result (λ _. attempts count.old + 9 ≤ attempts count.new) }
    ensures grows { attempts count.old ≤ attempts count.new }
    ensures most { attempts count.new ≤ attempts count.old + 8 * length i.now }
{
    if i.is_empty() {
        return Err(Refusal::Incomplete(Needed::Size(1)));
    }
    let (rest, element) = whole_element(i, count)?;
    match list_of(alloc, element, deep, count) {
        Ok(list) => Ok((rest, list)),
        Err(refusal) => Err(Refusal::within(refusal)),
    }
}
