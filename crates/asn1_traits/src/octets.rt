//! The octets of a number that isn't negative, in a buffer of fixed size.

ghost use Rattle.std.specs.Prelude.{◌≡◌, ◌+◌, ◌≤◌, ◌++◌, length};
ghost use Rattle.std.specs.Int.Digits.{digits_of};
ghost use Rattle.asn1_traits.specs.Integers.{with_sign_bit};

use arrayvec::ArrayVec;

/// A buffer of at most 20 octets.
pub(crate) type Octets = ArrayVec<u8, 20>;

/// Appends the digits of base 256, with `00` before them if the first bit is 1; for 0 appends `00`
/// alone (X.690, 8.3).
pub(crate) fn push_positive(out: &mut Octets, number: u128)
    requires { length out.old.items + length (with_sign_bit (digits_of 256 number)) ≤ 20 }
    ensures { out.new.items ≡ out.old.items ++ with_sign_bit (digits_of 256 number) }
{
    if number < 128 {
        out.push(number as u8);
        return;
    }
    push_positive(out, number / 256);
    out.push((number % 256) as u8);
}

/// Returns how many octets `push_positive` appends.
pub(crate) fn positive_len(number: u128) -> usize
    ensures { result ≡ length (with_sign_bit (digits_of 256 number)) }
{
    let mut len = 1;
    let mut left = number;
    while left >= 128 {
        left /= 256;
        len += 1;
    }
    len
}
