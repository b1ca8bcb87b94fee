//! `X509ExtensionParser`, the parser of extensions.

ghost use Rattle.std.specs.Prelude.{◌≡◌, ℕ, List, true, IfOk, IfErr};
ghost use Rattle.asn1_traits.specs.Reads.{Reads};
ghost use Rattle.x509_core.specs.Answers.{Gives, ElseMemory};
ghost use Rattle.x509_core.specs.Errors.{told};
ghost use Rattle.x509_core.specs.Grammar.{Holds};
ghost use Rattle.x509_core.specs.Fronts.{IsOnly, one_rest};
ghost use Rattle.x509_ext.specs.Extensions as grammar;
ghost use Rattle.x509_ext_parse.specs.Parsed.{IsParsed};
ghost use Rattle.x509_ext_parse.specs.Reading.{deeply};
ghost use Rattle.x509_ext.specs.Fields.{Extension, meaning_of, reading_of};
ghost use Rattle.x509_ext.specs.Reading.{named_extension_at};
ghost use Rattle.x509_ext.specs.View.{extension_view, IsCountedExtension, WantsNoMemory};
ghost use Rattle.x509_core.specs.declared.error.X509Error.TheVariants as errors;

use crate::extension::{X509Extension, extension_of};
use asn1_core::HeaderCount;
use asn1_traits::{DerMeaning, FromDer};
use std::alloc::Global;
use x509_core::{X509Error, X509Result, front_element, renamed};

/// A parser of extensions with an option: whether values are parsed.
#[derive(Clone, Copy, Debug)]
pub struct X509ExtensionParser {
    deep_parse_extensions: bool,
}

impl X509ExtensionParser {
    /// A parser that parses values as well.
    pub fn new() -> X509ExtensionParser
        ensures { result.deep_parse_extensions ≡ true }
    {
        X509ExtensionParser {
            deep_parse_extensions: true,
        }
    }

    /// The parser with this setting: with `false` the value stays `ParsedExtension::Unparsed`.
    pub fn with_deep_parse_extensions(self, deep_parse_extensions: bool) -> X509ExtensionParser
        ensures { result.deep_parse_extensions ≡ deep_parse_extensions }
    {
        X509ExtensionParser {
            deep_parse_extensions,
        }
    }

    /// Reads one extension from the front of `i` (RFC 5280, 4.2). Returns `(rest, extension)`. A
    /// known extension whose value is malformed becomes `ParsedExtension::ParseError`.
    ///
    /// # Errors
    ///
    /// `InvalidExtensions` for everything else, also if `i` ends inside the extension. Out of
    /// memory, also while a value is parsed, is a `Failure`.
    pub fn parse<'a>(&self, alloc: Global, i: &'a [u8]) -> X509Result<'a, X509Extension<'a>>
        ensures exact { Gives (λ r. (extension_view r.1, r.0.now)) result (named_extension_at (reading_of self.now.deep_parse_extensions) i.now) }
        ensures refused { IfErr result (IsOnly errors.InvalidExtensions) }
        ensures counted { IfOk result (λ r. IsCountedExtension r.1) }
        ensures memory { IfOk result (λ r. WantsNoMemory r.1) }
        ensures found { IfOk result (λ r. grammar.X509Extension (meaning_of self.now.deep_parse_extensions) i.now (extension_view r.1) r.0.now) }
        ensures only { (v : Extension) (rest : List ℕ) → grammar.X509Extension (meaning_of self.now.deep_parse_extensions) i.now v rest
            → ElseMemory result (λ r. (extension_view r.1 ≡ v) × (r.0.now ≡ rest)) }
    {
        extension_at_front(alloc, i, self.deep_parse_extensions)
    }
}

impl Default for X509ExtensionParser {
    ghost use Rattle.std.specs.Prelude.{◌≡◌, true};

    ghost is_default = { λ parser. parser.deep_parse_extensions ≡ true };

    fn default() -> X509ExtensionParser {
        X509ExtensionParser::new()
    }
}

impl<'b> DerMeaning for X509Extension<'b> {
    ghost der_reads = { λ i v r. grammar.X509Extension IsParsed i (extension_view v) r };

    ghost der_cut = { λ _ _. ⊥ };

    ghost der_grows = { Unit {0} };

    ghost one_rest = { λ i v w r s left right. one_rest (Holds 16 (grammar.ExtensionParts IsParsed)) i (extension_view v) (extension_view w) r s left right };
}

impl<'a> FromDer<'a, X509Error> for X509Extension<'a> {
    /// Reads one extension, its value parsed, from the front of `bytes`. Returns `(rest,
    /// extension)`.
    ///
    /// # Errors
    ///
    /// The errors of `X509ExtensionParser::parse`.
    fn from_der(alloc: Global, bytes: &'a [u8]) -> X509Result<'a, X509Extension<'a>>
        ensures reads { Reads (λ given e. e ≡ told given) (Unit {0}) (λ _ _. ⊥) (λ i. i.now)
            (λ i v r. grammar.X509Extension IsParsed i (extension_view v) r) bytes.now result }
        ensures exact { Gives (λ r. (extension_view r.1, r.0.now)) result (named_extension_at deeply bytes.now) }
        ensures refused { IfErr result (IsOnly errors.InvalidExtensions) }
        ensures counted { IfOk result (λ r. IsCountedExtension r.1) }
        ensures memory { IfOk result (λ r. WantsNoMemory r.1) }
        ensures found { IfOk result (λ r. grammar.X509Extension IsParsed bytes.now (extension_view r.1) r.0.now) }
        ensures only { (v : Extension) (rest : List ℕ) → grammar.X509Extension IsParsed bytes.now v rest
            → ElseMemory result (λ r. (extension_view r.1 ≡ v) × (r.0.now ≡ rest)) }
    {
        extension_at_front(alloc, bytes, true)
    }
}

fn extension_at_front<'a>(
    alloc: Global,
    i: &'a [u8],
    deep: bool,
) -> X509Result<'a, X509Extension<'a>>
    ensures exact { Gives (λ r. (extension_view r.1, r.0.now)) result (named_extension_at (reading_of deep) i.now) }
    ensures refused { IfErr result (IsOnly errors.InvalidExtensions) }
    ensures counted { IfOk result (λ r. IsCountedExtension r.1) }
    ensures memory { IfOk result (λ r. WantsNoMemory r.1) }
{
    let mut count = HeaderCount::new();
    match front_element(i, &mut count) {
        Ok((rest, element)) => match extension_of(alloc, element, deep, &mut count) {
            Ok(extension) => Ok((rest, extension)),
            Err(refusal) => Err(renamed(refusal, X509Error::InvalidExtensions)),
        },
        Err(refusal) => Err(renamed(refusal, X509Error::InvalidExtensions)),
    }
}
