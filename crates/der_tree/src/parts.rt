//! The parts of an object, one after the other.

ghost use Rattle.std.specs.Prelude.{◌≡◌, option_map};
ghost use Rattle.der_tree.specs.Access.{first_at, end_at};
ghost use Rattle.der_tree.specs.View.{view, views};

use crate::object::BerObject;

/// The first of some parts, and the rest.
pub fn first_of<'b, 'a>(
    parts: &'b [BerObject<'a>],
) -> Option<(&'b BerObject<'a>, &'b [BerObject<'a>])>
    ensures { option_map (λ p. (view p.0.now, views p.1.now)) result ≡ first_at (views parts.now) }
{
    let (first, rest) = parts.split_first()?;
    Some((first, rest))
}

/// That no part is left.
pub fn end_of(parts: &[BerObject<'_>]) -> Option<()>
    ensures { result ≡ end_at (views parts.now) }
{
    match parts.split_first() {
        None => Some(()),
        Some(_) => None,
    }
}
