//! Netscape comments.

ghost use Rattle.std.specs.Prelude.{◌≡◌, ◌<◌, ℕ, List, length, IfOk, IfErr};
ghost use Rattle.asn1_any.specs.Views.{any_of};
ghost use Rattle.x509_core.specs.Answers.{Gives, ElseMemory};
ghost use Rattle.x509_core.specs.Fronts.{TakesNoMemory};
ghost use Rattle.x509_ext_basic.specs.Leaves as grammar;
ghost use Rattle.x509_ext_basic.specs.Reading.{ia5_in, element_ia5, ia5_at, bare_at, comment_at};

use asn1_any::Any;
use asn1_core::{Err as Refusal, Error, HeaderCount};
use asn1_strings::Ia5String;
use x509_core::{X509Error, X509Result, front_element, leaf_of};
use x509_items::text_of;

// Octets below 80 hex.
fn ia5_text<'a>(content: &'a [u8]) -> Result<&'a str, Refusal<X509Error>>
    ensures read { Gives (λ t. t.now) result (ia5_in content.now) }
    ensures memory { IfErr result TakesNoMemory }
{
    match Ia5String::test_valid_charset(content) {
        Ok(()) => text_of(content),
        Err(_) => Err(Refusal::Error(X509Error::Der(Error::StringInvalidCharset))),
    }
}

fn ia5_of<'a>(any: Any<'a>) -> Result<&'a str, Refusal<X509Error>>
    ensures read { Gives (λ t. t.now) result (element_ia5 (any_of any.entry)) }
    ensures memory { IfErr result TakesNoMemory }
{
    let content = leaf_of(22, any)?;
    ia5_text(content)
}

fn ia5_at_front<'a>(i: &'a [u8]) -> X509Result<'a, &'a str>
    ensures read { Gives (λ r. (r.1.now, r.0.now)) result (ia5_at i.now) }
    ensures memory { IfErr result TakesNoMemory }
{
    let mut count = HeaderCount::new();
    let (rest, element) = front_element(i, &mut count)?;
    let text = ia5_of(element.any)?;
    Ok((rest, text))
}

// All octets, if they are UTF-8.
fn bare<'a>(i: &'a [u8]) -> X509Result<'a, &'a str>
    ensures read { Gives (λ r. (r.1.now, r.0.now)) result (bare_at i.now) }
    ensures memory { IfErr result TakesNoMemory }
{
    let text = text_of(i)?;
    Ok((&[], text))
}

fn comment_at_front<'a>(i: &'a [u8]) -> X509Result<'a, &'a str>
    ensures read { Gives (λ r. (r.1.now, r.0.now)) result (comment_at i.now) }
    ensures memory { IfErr result TakesNoMemory }
{
    match ia5_at_front(i) {
        Ok((rest, text)) => Ok((rest, text)),
        Err(_) => bare(i),
    }
}

/// Reads one Netscape comment from the front of `i`: an IA5String. Returns `(rest, comment)`. If
/// there is no IA5String, all octets are the comment, and no rest is left.
///
/// # Errors
///
/// An `Error` if the octets aren't UTF-8 then.
pub fn netscape_comment<'a>(i: &'a [u8]) -> X509Result<'a, &'a str>
    ensures exact { Gives (λ r. (r.1.now, r.0.now)) result (comment_at i.now) }
    ensures memory { IfErr result TakesNoMemory }
    ensures found { IfOk result (λ r. grammar.NetscapeComment i.now r.1.now r.0.now) }
    ensures only { (comment : List ℕ) (rest : List ℕ) → grammar.NetscapeComment i.now comment rest
        → ElseMemory result (λ r. (r.1.now ≡ comment) × (r.0.now ≡ rest)) }
{
    comment_at_front(i)
}
