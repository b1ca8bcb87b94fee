//! The lines of a text.

ghost use Rattle.std.specs.Prelude.{◌≡◌, ◌≢◌, ◌<◌, ◌∷◌, ◌++◌, ℕ, IfSome, IfNone, length, slice_index_or};
ghost use Rattle.cert_vouchers.specs.VoucherFile.{without_return, HasNoLineFeed, line_feed};

/// The place of the first LF.
fn line_end(text: &[u8]) -> Option<usize>
    ensures found { IfSome result (λ k. k < length text.now) }
    ensures feed { IfSome result (λ k. (d : ℕ) → slice_index_or text.now k d ≡ line_feed) }
    ensures first { IfSome result (λ k. (j d : ℕ) → j < k → slice_index_or text.now j d ≢ line_feed) }
    ensures none { IfNone result (HasNoLineFeed text.now) }
{
    for (place, octet) in text.iter().enumerate() {
        if *octet == b'\n' {
            return Some(place);
        }
    }
    None
}

/// The first line that ends at LF, and what comes after that.
pub(crate) fn next_line(text: &[u8]) -> Option<(&[u8], &[u8])>
    ensures found { IfSome result (λ r. text.now ≡ r.0.now ++ line_feed ∷ r.1.now) }
    ensures first { IfSome result (λ r. HasNoLineFeed r.0.now) }
    ensures none { IfNone result (HasNoLineFeed text.now) }
{
    let end = line_end(text)?;
    Some((&text[..end], &text[end + 1..]))
}

/// A line without one CR at its end.
pub(crate) fn without_return(line: &[u8]) -> &[u8]
    ensures { result.now ≡ without_return line.now }
{
    let Some((last, front)) = line.split_last() else {
        return line;
    };
    if *last == b'\r' { front } else { line }
}
