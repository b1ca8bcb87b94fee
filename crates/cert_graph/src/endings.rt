//! The last octets of a text, by which different texts are distinguished without reading them whole.

ghost use Rattle.std.specs.Prelude.{◌≡◌};
ghost use Rattle.cert_graph.specs.Endings.{tail_of};

/// Returns the last eight octets of a text as a number, the first of them the lowest; 0 if it has
/// fewer. They are the end of a signature, of a key or of a common name, so they seldom are equal
/// in different items, keys or names.
pub fn tail_of(text: &[u8]) -> u64
    ensures { result ≡ tail_of text.now }
{
    match text.last_chunk::<8>() {
        Some(tail) => u64::from_le_bytes(*tail),
        None => 0,
    }
}
