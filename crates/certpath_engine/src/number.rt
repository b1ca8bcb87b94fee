//! Numbers on the command line.
ghost use Rattle.std.specs.Prelude.{◌≡◌, ◌↔◌, ℕ, ◌<◌, ◌^◌, Some, IfSome, IsTrue};
ghost use Rattle.std.specs.Char.{IsAsciiDigit};
ghost use Rattle.std.specs.List.{AllByRecursion};
ghost use Rattle.certpath_engine.specs.Numbers.{WritesNumber};

/// The number that `text` writes in decimal digits of ASCII, one or more; zeros may lead. None
/// if the text is not of that form, or the number is above 4,294,967,295.
pub fn read_number(text: &str) -> Option<u32>
    ensures found { IfSome result (λ n. WritesNumber text.now n) }
    ensures only { (n : ℕ) → n < 2 ^ 32 → WritesNumber text.now n → result ≡ Some n }
{
    if !is_digits(text) {
        return None;
    }
    text.parse::<u32>().ok()
}

/// Whether each octet of `text` is a decimal digit of ASCII.
fn is_digits(text: &str) -> bool
    ensures { IsTrue result ↔ AllByRecursion IsAsciiDigit text.now }
{
    text.bytes().all(|octet| octet.is_ascii_digit())
}
