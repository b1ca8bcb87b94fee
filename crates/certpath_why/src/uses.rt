//! What a certificate is for, in words (RFC 5280, 4.2.1.12).

ghost use Rattle.std.specs.Prelude.{◌≡◌, ◌++◌, map, OnOk, string_bytes};
ghost use Rattle.cert_model.specs.Extended.{IsWithout};
ghost use Rattle.cert_model.specs.View.{ext_view};
ghost use Rattle.cert_purpose.specs.Purposes.{extended_key_usage};
ghost use Rattle.certpath_why.specs.Appended.{Appends};
ghost use Rattle.certpath_why.specs.Uses.{purpose_text, ArePurposesWords, AreUsesWords};

use crate::listed::{Part, push_list, push_part};
use asn1_core::OutOfMemory;
use cert_model::fields::ExtField;
use cert_purpose::{EXTENDED_KEY_USAGE, Value, value_under};
use cert_reasons::{Purpose, purposes_of};
use purpose_names::push_purpose;
use std::alloc::Global;

/// Appends the name of a purpose, or its numbers.
fn push_purpose_text(text: &mut String, alloc: Global, identifier: &[u8]) -> Result<(), OutOfMemory>
    ensures { OnOk result (string_bytes text.new ≡ string_bytes text.old ++ purpose_text identifier.now) }
{
    push_purpose(alloc, text, identifier)?;
    Ok(())
}

impl Part for Purpose<'_> {
    ghost use Rattle.certpath_why.specs.Uses.{purpose_text};

    ghost text_of = { λ p. purpose_text p.identifier.now };

    fn push_shown(&self, text: &mut String, alloc: Global) -> Result<(), OutOfMemory> {
        let mut one = String::new(alloc);
        push_purpose_text(&mut one, alloc, self.identifier)?;
        push_part(text, one.as_bytes())?;
        Ok(())
    }
}

/// Appends what a value of extKeyUsage is for.
fn push_purposes(text: &mut String, alloc: Global, value: &[u8]) -> Result<(), OutOfMemory>
    ensures { OnOk result (Appends (ArePurposesWords value.now) (string_bytes text.old) (string_bytes text.new)) }
{
    match purposes_of(alloc, value)? {
        Some(purposes) => {
            text.push_str("it is for ")?;
            push_list(text, alloc, &purposes)?;
        }
        None => text.push_str("its extKeyUsage isn't well written")?,
    }
    Ok(())
}

/// Appends what extensions are for, which have an extKeyUsage.
pub(crate) fn push_uses(
    text: &mut String,
    alloc: Global,
    extensions: &[ExtField<'_>],
) -> Result<(), OutOfMemory>
    requires { IsWithout extended_key_usage (map ext_view extensions.now) → ⊥ }
    ensures { OnOk result (Appends (AreUsesWords (map ext_view extensions.now)) (string_bytes text.old) (string_bytes text.new)) }
{
    match value_under(extensions, EXTENDED_KEY_USAGE) {
        Value::Missing => unreachable!(),
        Value::One(value) => push_purposes(text, alloc, value)?,
        Value::More => text.push_str("it has more than one extKeyUsage")?,
    }
    Ok(())
}
