//! The octets of times, in a buffer.

ghost use Rattle.std.specs.Prelude.{◌≡◌, ◌+◌, ◌≤◌, ◌∷◌, [], ◌++◌, length};
ghost use Rattle.asn1_times.specs.Fields.{two_digits, minute_octets, thousandths_octets, fraction_octets, sign_octet, zone_octets, time_octets};

use crate::datetime::{ASN1DateTime, ASN1TimeZone};
use arrayvec::ArrayVec;

/// A buffer of at most 24 octets; a GeneralizedTime has at most 23.
pub(crate) type Octets = ArrayVec<u8, 24>;

fn push(out: &mut Octets, octet: u8)
    requires { length out.old.items ≤ 23 }
    ensures items { out.new.items ≡ out.old.items ++ octet ∷ [] }
    ensures len { length out.new.items ≡ length out.old.items + 1 }
{
    out.push(octet);
}

/// Appends the last two digits of the number.
pub(crate) fn push_pair(out: &mut Octets, number: u32)
    requires { length out.old.items ≤ 22 }
    ensures items { out.new.items ≡ out.old.items ++ two_digits number }
    ensures len { length out.new.items ≡ length out.old.items + 2 }
{
    push(out, b'0' + (number / 10 % 10) as u8);
    push(out, b'0' + (number % 10) as u8);
}

// Appends the digits of thousandths but last ones that are 0.
fn push_thousandths(out: &mut Octets, number: u16)
    requires { length out.old.items ≤ 21 }
    ensures items { out.new.items ≡ out.old.items ++ thousandths_octets number }
    ensures len { length out.new.items ≤ length out.old.items + 3 }
{
    if number % 100 == 0 {
        push(out, b'0' + (number / 100 % 10) as u8);
    } else if number % 10 == 0 {
        push_pair(out, u32::from(number / 10));
    } else {
        push(out, b'0' + (number / 100 % 10) as u8);
        push_pair(out, u32::from(number));
    }
}

// Appends a fraction of a second, or nothing.
fn push_fraction(out: &mut Octets, millisecond: Option<u16>)
    requires { length out.old.items ≤ 20 }
    ensures items { out.new.items ≡ out.old.items ++ fraction_octets millisecond }
    ensures len { length out.new.items ≤ length out.old.items + 4 }
{
    if let Some(number) = millisecond {
        push(out, b'.');
        push_thousandths(out, number);
    }
}

// Appends a zone.
fn push_zone(out: &mut Octets, zone: ASN1TimeZone)
    requires { length out.old.items ≤ 19 }
    ensures { out.new.items ≡ out.old.items ++ zone_octets zone }
{
    match zone {
        ASN1TimeZone::Undefined => {}
        ASN1TimeZone::Z => push(out, b'Z'),
        ASN1TimeZone::Offset(hour, minute) => {
            push(out, if hour < 0 || minute < 0 { b'-' } else { b'+' });
            push_pair(out, u32::from(hour.unsigned_abs()));
            push_pair(out, u32::from(minute.unsigned_abs()));
        }
    }
}

/// Appends the octets after the year.
pub(crate) fn push_time(out: &mut Octets, time: &ASN1DateTime)
    requires { length out.old.items ≤ 4 }
    ensures { out.new.items ≡ time_octets out.old.items time.now }
{
    push_pair(out, u32::from(time.month));
    push_pair(out, u32::from(time.day));
    push_pair(out, u32::from(time.hour));
    push_pair(out, u32::from(time.minute));
    push_pair(out, u32::from(time.second));
    push_fraction(out, time.millisecond);
    push_zone(out, time.tz);
}
