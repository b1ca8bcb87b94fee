//! The reader of CRL numbers (RFC 5280, 5.2.3 and 5.2.4).

ghost use Rattle.std.specs.Prelude.{◌≡◌, ◌<◌, ◌++◌, ℕ, List, [], ◌∷◌, length, option_map, IfOk, IfErr};
ghost use Rattle.asn1_any.specs.Views.{any_of};
ghost use Rattle.asn1_unsigned.specs.Numbers.{number_of};
ghost use Rattle.x509_core.specs.Answers.{Gives, ElseMemory};
ghost use Rattle.x509_core.specs.Fronts.{TakesNoMemory, TellsMissing};
ghost use Rattle.x509_ext_basic.specs.Leaves as grammar;
ghost use Rattle.x509_ext_basic.specs.Reading.{starts_low, natural_in, element_natural, number_at};

use asn1_any::Any;
use asn1_core::{Err as Refusal, Error, HeaderCount};
use asn1_traits::check_shortest;
use asn1_unsigned::UnsignedBytes;
use x509_core::{X509Error, X509Result, front_element, leaf_of};

// Whether the first bit isn't set.
fn starts_low(content: &[u8]) -> bool
    ensures { result ≡ starts_low content.now }
{
    match content {
        [first, ..] => *first < 128,
        [] => false,
    }
}

// The number of a content that isn't negative, in the fewest octets (X.690, 8.3).
#[tactic(auto, unfolding(crate::specs::Reading::natural_in))]
fn natural_of<'a>(content: &'a [u8]) -> Option<UnsignedBytes<'a>>
    ensures { option_map number_of result ≡ natural_in content.now }
{
    if check_shortest(content).is_err() {
        return None;
    }
    if !starts_low(content) {
        return None;
    }
    Some(UnsignedBytes::from_bytes_be(content))
}

fn number_in<'a>(any: Any<'a>) -> Result<UnsignedBytes<'a>, Refusal<X509Error>>
    ensures read { Gives number_of result (element_natural (any_of any.entry)) }
    ensures memory { IfErr result TakesNoMemory }
{
    let content = leaf_of(2, any)?;
    match natural_of(content) {
        Some(number) => Ok(number),
        None => Err(Refusal::Error(X509Error::Der(Error::IntegerNegative))),
    }
}

fn number_at_front<'a>(i: &'a [u8]) -> X509Result<'a, UnsignedBytes<'a>>
    ensures exact { Gives (λ r. (number_of r.1, r.0.now)) result (number_at i.now) }
    ensures missing { TellsMissing i.now result }
    ensures memory { IfErr result TakesNoMemory }
    ensures shorter { IfOk result (λ r. length r.0.now < length i.now) }
{
    let mut count = HeaderCount::new();
    let (rest, element) = front_element(i, &mut count)?;
    match number_in(element.any) {
        Ok(value) => Ok((rest, value)),
        Err(refusal) => Err(Refusal::within(refusal)),
    }
}

/// Reads one CRL number from the front of `i`: a non-negative INTEGER of any size in its shortest
/// form. Returns `(rest, number)`. Base CRL numbers of delta lists are read so too (RFC 5280, 5.2.3
/// and 5.2.4).
///
/// # Errors
///
/// `Incomplete` exactly if `i` ends inside the element; else an `Error` of an element.
pub fn crl_number<'a>(i: &'a [u8]) -> X509Result<'a, UnsignedBytes<'a>>
    ensures exact { Gives (λ r. (number_of r.1, r.0.now)) result (number_at i.now) }
    ensures missing { TellsMissing i.now result }
    ensures memory { IfErr result TakesNoMemory }
    ensures found { IfOk result (λ r. grammar.CRLNumber i.now (number_of r.1) r.0.now) }
    ensures only { (n : ℕ) (rest : List ℕ) → grammar.CRLNumber i.now n rest
        → ElseMemory result (λ r. (number_of r.1 ≡ n) × (r.0.now ≡ rest)) }
{
    number_at_front(i)
}
