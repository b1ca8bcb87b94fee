//! The extension of an identifier.

ghost use Rattle.std.specs.Prelude.{◌≡◌, ◌↔◌, ℕ, List, map, IsTrue};
ghost use Rattle.cert_model.specs.Extended.{under_ce, IsWithout};
ghost use Rattle.cert_model.specs.View.{ext_view};
ghost use Rattle.cert_purpose.specs.Purposes.{Allows};
ghost use Rattle.cert_purpose.specs.Found.{Tells};

use crate::purpose::is_for;
use cert_model::fields::ExtField;
use cert_model::identifiers::is_ce;

/// extKeyUsage, 2.5.29.37: the last arc, as `is_ce` takes it.
pub const EXTENDED_KEY_USAGE: u8 = 37;

/// The values under 2.5.29.n: none, the only one, or that there are more.
#[derive(Clone, Copy)]
pub enum Value<'a> {
    /// No extension has the identifier.
    Missing,
    /// Exactly one has it: its value.
    One(&'a [u8]),
    /// Two or more have it.
    More,
}

/// What extensions have under 2.5.29.n. Linear in their number, no memory.
pub fn value_under<'a>(extensions: &[ExtField<'a>], n: u8) -> Value<'a>
    ensures { Tells (under_ce n) (map ext_view extensions.now) result }
{
    let mut value = Value::Missing;
    for extension in extensions {
        if is_ce(extension.identifier, n) {
            value = match value {
                Value::Missing => Value::One(extension.value),
                _ => Value::More,
            };
        }
    }
    value
}

/// Whether extensions allow a purpose, given by the content octets of its identifier.
pub fn allows(extensions: &[ExtField<'_>], purpose: &[u8]) -> bool
    ensures { IsTrue result ↔ Allows purpose.now (map ext_view extensions.now) }
{
    match value_under(extensions, EXTENDED_KEY_USAGE) {
        Value::Missing => true,
        Value::One(value) => is_for(value, purpose),
        Value::More => false,
    }
}
