//! Why something is left out, in words.

ghost use Rattle.std.specs.Prelude.{◌≡◌, ◌++◌, ◌<◌, ◌^◌, OnOk, string_bytes, codes};
ghost use Rattle.certpath_files.specs.FrontViews.{fault_view};
ghost use Rattle.certpath_files.specs.RowViews.{reason_view};
ghost use Rattle.certpath_bundle.specs.Words.{counted, plural, fault_words, reason_words};

use certpath_files::{Fault, Reason};
use std::alloc::AllocError;

/// Appends a number and the word for so many, as `2 octets`.
pub(crate) fn push_counted(text: &mut String, count: usize, word: &str) -> Result<(), AllocError>
    ensures { OnOk result (string_bytes text.new ≡ string_bytes text.old ++ counted count word.now) }
{
    if count == 1 {
        write!(text, "{count} {word}")
    } else {
        write!(text, "{count} {word}s")
    }
}

/// Appends so many octets, and the words after them.
fn push_octets(text: &mut String, count: usize, words: &str) -> Result<(), AllocError>
    ensures { OnOk result (string_bytes text.new ≡ string_bytes text.old ++ (counted count (codes "octet") ++ words.now)) }
{
    push_counted(text, count, "octet")?;
    text.push_str(words)
}

fn push_fault(text: &mut String, fault: Fault) -> Result<(), AllocError>
    ensures { OnOk result (string_bytes text.new ≡ string_bytes text.old ++ fault_words (fault_view fault)) }
{
    match fault {
        Fault::NoSequence => text.push_str("neither certificate nor revocation list"),
        Fault::NoLength => text.push_str("its length is indefinite (BER) or cut"),
        Fault::TooLong => text.push_str("its length is above 16777216"),
        Fault::Missing(count) => push_octets(text, count, " of it missing"),
        Fault::LongForm => text.push_str("its length is not in the shortest form (BER)"),
    }
}

/// Appends a fault after which so many octets are left out.
fn push_fault_to_end(text: &mut String, fault: Fault, count: usize) -> Result<(), AllocError>
    ensures { OnOk result (string_bytes text.new ≡ string_bytes text.old ++ (fault_words (fault_view fault) ++ (codes ", " ++ (counted count (codes "octet") ++ codes " to the end")))) }
{
    push_fault(text, fault)?;
    text.push_str(", ")?;
    push_octets(text, count, " to the end")
}

/// Appends why something is left out.
pub(crate) fn push_reason(text: &mut String, reason: Reason) -> Result<(), AllocError>
    ensures { OnOk result (string_bytes text.new ≡ string_bytes text.old ++ reason_words (reason_view reason)) }
{
    match reason {
        Reason::EmptyFile => text.push_str("the file is empty"),
        Reason::NoForm => text.push_str("the file is neither PEM nor DER"),
        Reason::WideText => text.push_str("the file is a text in UTF-16"),
        Reason::Faulty(fault) => push_fault(text, fault),
        Reason::ToEnd(fault, count) => push_fault_to_end(text, fault, count),
        Reason::NoItem => text.push_str("neither certificate nor revocation list"),
        Reason::Behind(count) => push_octets(text, count, " after the item"),
        Reason::NoEnd => text.push_str("its END is missing"),
        Reason::WithHeaders => text.push_str("header lines within"),
        Reason::NoOctets => text.push_str("there is nothing in it"),
        Reason::NotBase64 => text.push_str("not base64"),
        Reason::OtherLabel => text.push_str(
            "the block holds neither certificate nor revocation list",
        ),
        Reason::UnknownLabel => text.push_str("the label isn't known"),
        Reason::StrayEnd => text.push_str("an END that ends no block"),
        Reason::BadBoundary => text.push_str(
            "a BEGIN or an END that is no line of its own (are newlines missing?)",
        ),
        Reason::NoText => text.push_str("octets around the blocks that are no text"),
        Reason::NoSignedData => text.push_str("no SignedData in DER"),
        Reason::NoMembers => text.push_str("SignedData without certificates and revocation lists"),
    }
}
