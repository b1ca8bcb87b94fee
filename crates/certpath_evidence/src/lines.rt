//! Pieces of a text: what comes before and after an octet, and after a word.

ghost use Rattle.std.specs.Prelude.{◌≡◌, ◌≢◌, ◌<◌, ◌∷◌, ◌++◌, ℕ, List, All, IfSome, IfNone, IsSomeAnd, length, slice_index_or};

/// The place of the first such octet.
fn place_of(text: &[u8], octet: u8) -> Option<usize>
    ensures found { IfSome result (λ k. k < length text.now) }
    ensures there { IfSome result (λ k. (d : ℕ) → slice_index_or text.now k d ≡ octet) }
    ensures first { IfSome result (λ k. (j d : ℕ) → j < k → slice_index_or text.now j d ≢ octet) }
    ensures none { IfNone result (All (λ o. o ≢ octet) text.now) }
{
    for (place, it) in text.iter().enumerate() {
        if *it == octet {
            return Some(place);
        }
    }
    None
}

/// What comes before the first such octet, and what comes after it.
pub(crate) fn split_once(text: &[u8], octet: u8) -> Option<(&[u8], &[u8])>
    ensures found { IfSome result (λ r. text.now ≡ r.0.now ++ octet ∷ r.1.now) }
    ensures first { IfSome result (λ r. All (λ o. o ≢ octet) r.0.now) }
    ensures none { IfNone result (All (λ o. o ≢ octet) text.now) }
{
    let place = place_of(text, octet)?;
    Some((&text[..place], &text[place + 1..]))
}

/// What comes after a word that the text begins with.
pub(crate) fn after_word<'a>(text: &'a [u8], word: &[u8]) -> Option<&'a [u8]>
    ensures found { IfSome result (λ r. text.now ≡ word.now ++ r.now) }
    ensures only { (rest : List ℕ) → text.now ≡ word.now ++ rest → IsSomeAnd result (λ r. r.now ≡ rest) }
{
    text.strip_prefix(word)
}
