//! Bit strings and texts.

ghost use Rattle.std.specs.Prelude.{◌≡◌, ◌↔◌, ◌<◌, ◌∷◌, MatchOption, IsTrue, IsUtf8, false, true};
ghost use Rattle.der_tree.specs.Table.{is_bit_string, are_unused_zero};

/// The unused count and the octets of the bits (X.690, 8.6.2), if the unused bits are 0 (X.690,
/// 11.2).
pub fn bits_of<'a>(content: &'a [u8]) -> Option<(u8, &'a [u8])>
    ensures { MatchOption result (is_bit_string content.now ≡ false)
        (λ p. (content.now ≡ p.0 ∷ p.1.now) × IsTrue (is_bit_string content.now)) }
{
    let [unused, octets @ ..] = content else {
        return None;
    };
    if *unused < 8 && has_unused_zero(*unused, octets) {
        Some((*unused, octets))
    } else {
        None
    }
}

/// Whether there are such a count and octets.
pub(crate) fn is_bits(content: &[u8]) -> bool
    ensures { result ≡ is_bit_string content.now }
{
    match content {
        [] => false,
        [unused, octets @ ..] => *unused < 8 && has_unused_zero(*unused, octets),
    }
}

fn has_unused_zero(unused: u8, octets: &[u8]) -> bool
    requires { unused < 8 }
    ensures { result ≡ are_unused_zero unused octets.now }
{
    match octets.split_last() {
        None => unused == 0,
        Some((last, _)) => *last % (1u8 << unused) == 0,
    }
}

/// The octets as UTF-8 text.
pub fn text_of<'a>(content: &'a [u8]) -> Option<&'a str>
    ensures { MatchOption result (IsUtf8 content.now → ⊥) (λ t. (t.now ≡ content.now) × IsUtf8 content.now) }
{
    str::from_utf8(content).ok()
}

/// Whether the octets are UTF-8 text.
pub(crate) fn is_text(content: &[u8]) -> bool
    ensures { IsTrue result ↔ IsUtf8 content.now }
{
    match text_of(content) {
        Some(_) => true,
        None => false,
    }
}

/// The character sets of strings of one octet a character.
#[derive(Clone, Copy)]
pub(crate) enum Charset {
    Numeric,
    Printable,
    Ia5,
    Visible,
}

impl Charset {
    ghost use Rattle.std.specs.List.{list_all};
    ghost use Rattle.der_tree.specs.Charset.{has};

    fn has(self, octet: u8) -> bool
        ensures { result ≡ has self octet }
    {
        match self {
            Charset::Numeric => octet.is_ascii_digit() || octet == b' ',
            Charset::Printable => {
                octet.is_ascii_alphanumeric()
                    || octet == b' '
                    || (octet >= b'\'' && octet <= b')')
                    || (octet >= b'+' && octet <= b'/')
                    || octet == b':'
                    || octet == b'='
                    || octet == b'?'
            }
            Charset::Ia5 => octet < 128,
            Charset::Visible => octet >= 32 && octet <= 126,
        }
    }

    /// The octets as text of these characters.
    pub(crate) fn text<'a>(self, content: &'a [u8]) -> Option<&'a str>
        ensures { MatchOption result (list_all (has self) content.now ≡ false)
            (λ t. (t.now ≡ content.now) × IsTrue (list_all (has self) content.now)) }
    {
        if !self.has_all(content) {
            return None;
        }
        match str::from_utf8(content) {
            Ok(text) => Some(text),
            Err(_) => None,
        }
    }

    /// Whether each octet is one of these characters.
    pub(crate) fn has_all(self, content: &[u8]) -> bool
        ensures { result ≡ list_all (has self) content.now }
    {
        content.iter().all(|octet| self.has(*octet))
    }
}
