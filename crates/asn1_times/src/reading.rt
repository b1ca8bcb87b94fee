//! The digits of times.

ghost use Rattle.std.specs.Prelude.{◌≡◌, ◌+◌, ◌-◌, ◌*◌, ◌<◌, ◌≤◌, ◌&&◌, if◌then◌else◌, IfSome, Some, None, option_map};
ghost use Rattle.std.specs.Char.{is_ascii_digit};
ghost use Rattle.asn1_times.specs.Reading.{digit_at, pair_at, milliseconds_at, fraction_at, clock_at, behind, offset_at, zone_at, tail_at, utc_at, generalized_at};

use crate::datetime::{ASN1DateTime, ASN1TimeZone};

// A digit at the front, as a number.
#[tactic(auto, unfolding(crate::specs::Reading::digit_at))]
fn digit_of(i: &[u8]) -> Option<(u8, &[u8])>
    ensures value { option_map (λ p. (p.0, p.1.now)) result ≡ digit_at i.now }
    ensures small { IfSome result (λ p. p.0 < 10) }
{
    let [digit, rest @ ..] = i else {
        return None;
    };
    if digit.is_ascii_digit() {
        Some((*digit - b'0', rest))
    } else {
        None
    }
}

// Two digits at the front, as a number.
#[tactic(auto, unfolding(crate::specs::Reading::pair_at))]
pub(crate) fn pair_of(i: &[u8]) -> Option<(u8, &[u8])>
    ensures value { option_map (λ p. (p.0, p.1.now)) result ≡ pair_at i.now }
    ensures small { IfSome result (λ p. p.0 < 100) }
{
    let [first, second, rest @ ..] = i else {
        return None;
    };
    if first.is_ascii_digit() && second.is_ascii_digit() {
        Some(((*first - b'0') * 10 + (*second - b'0'), rest))
    } else {
        None
    }
}

// One to three digits at the front, the last not 0, as thousandths.
#[tactic(auto, unfolding(crate::specs::Reading::milliseconds_at))]
fn milliseconds_of(i: &[u8]) -> Option<(u16, &[u8])>
    ensures { option_map (λ p. (p.0, p.1.now)) result ≡ milliseconds_at i.now }
{
    let (first, i) = digit_of(i)?;
    let tenths = u16::from(first) * 100;
    let Some((second, after)) = digit_of(i) else {
        return if first == 0 { None } else { Some((tenths, i)) };
    };
    let hundredths = tenths + u16::from(second) * 10;
    let Some((third, end)) = digit_of(after) else {
        return if second == 0 {
            None
        } else {
            Some((hundredths, after))
        };
    };
    if third == 0 {
        None
    } else {
        Some((hundredths + u16::from(third), end))
    }
}

// A point and the digits of a fraction of a second, or no fraction.
#[tactic(auto, unfolding(crate::specs::Reading::fraction_at))]
fn fraction_of(i: &[u8]) -> Option<(Option<u16>, &[u8])>
    ensures { option_map (λ p. (p.0, p.1.now)) result ≡ fraction_at i.now }
{
    let [point, digits @ ..] = i else {
        return Some((None, i));
    };
    if *point != b'.' {
        return Some((None, i));
    }
    let (millisecond, rest) = milliseconds_of(digits)?;
    Some((Some(millisecond), rest))
}

// Seconds and a fraction of one, or 0 and none if no two digits are there.
#[tactic(auto, unfolding(crate::specs::Reading::clock_at))]
fn clock_of(i: &[u8]) -> Option<(u8, Option<u16>, &[u8])>
    ensures { option_map (λ p. (p.0, p.1, p.2.now)) result ≡ clock_at i.now }
{
    let Some((second, rest)) = pair_of(i) else {
        return Some((0, None, i));
    };
    let (millisecond, rest) = fraction_of(rest)?;
    Some((second, millisecond, rest))
}

// The offset of a clock that is `hour` hours and `minute` minutes late.
fn behind(hour: u8, minute: u8) -> ASN1TimeZone
    requires hour { hour < 100 }
    requires minute { minute < 100 }
    ensures { result ≡ behind hour minute }
{
    if hour == 0 {
        ASN1TimeZone::Offset(0, -(minute as i8))
    } else {
        ASN1TimeZone::Offset(-(hour as i8), minute as i8)
    }
}

// HHMM after a sign, to the end.
#[tactic(auto, unfolding(crate::specs::Reading::offset_at))]
fn offset_of(sign: u8, i: &[u8]) -> Option<ASN1TimeZone>
    ensures { result ≡ offset_at sign i.now }
{
    let (hour, i) = pair_of(i)?;
    let (minute, i) = pair_of(i)?;
    if !i.is_empty() {
        return None;
    }
    match sign {
        b'+' => Some(ASN1TimeZone::Offset(hour as i8, minute as i8)),
        b'-' => Some(behind(hour, minute)),
        _ => None,
    }
}

// A zone, to the end.
#[tactic(auto, unfolding(crate::specs::Reading::zone_at))]
fn zone_of(i: &[u8]) -> Option<ASN1TimeZone>
    ensures { result ≡ zone_at i.now }
{
    match i {
        [] => Some(ASN1TimeZone::Undefined),
        [end] => {
            if *end == b'Z' {
                Some(ASN1TimeZone::Z)
            } else {
                None
            }
        }
        [sign, rest @ ..] => offset_of(*sign, rest),
    }
}

// The number of two digits.
fn two_digits(tens: u8, ones: u8) -> Option<u8>
    ensures { result ≡ (if is_ascii_digit tens && is_ascii_digit ones then Some ((tens - 48) * 10 + (ones - 48)) else None) }
{
    if tens.is_ascii_digit() && ones.is_ascii_digit() {
        Some((tens - b'0') * 10 + (ones - b'0'))
    } else {
        None
    }
}

// A time after the digits of its year, in the one form that certificates may have: MMDDHHMMSSZ
// (RFC 5280, 4.1.2.5).
#[tactic(auto, unfolding(crate::specs::Reading::pair_at, crate::specs::Reading::fraction_at, crate::specs::Reading::clock_at, crate::specs::Reading::zone_at, crate::specs::Reading::tail_at))]
fn whole_tail_of(year: u32, i: &[u8]) -> Option<ASN1DateTime>
    ensures { IfSome result (λ t. tail_at year i.now ≡ Some t) }
{
    let [m0, m1, d0, d1, h0, h1, n0, n1, s0, s1, b'Z'] = i else {
        return None;
    };
    Some(ASN1DateTime {
        year,
        month: two_digits(*m0, *m1)?,
        day: two_digits(*d0, *d1)?,
        hour: two_digits(*h0, *h1)?,
        minute: two_digits(*n0, *n1)?,
        second: two_digits(*s0, *s1)?,
        millisecond: None,
        tz: ASN1TimeZone::Z,
    })
}

/// Reads a time after the digits of its year, to the end. The fields' ranges aren't checked.
#[tactic(auto, unfolding(crate::specs::Reading::tail_at))]
pub(crate) fn tail_of(year: u32, i: &[u8]) -> Option<ASN1DateTime>
    ensures { result ≡ tail_at year i.now }
{
    if let Some(time) = whole_tail_of(year, i) {
        return Some(time);
    }
    let (month, i) = pair_of(i)?;
    let (day, i) = pair_of(i)?;
    let (hour, i) = pair_of(i)?;
    let (minute, i) = pair_of(i)?;
    let (second, millisecond, i) = clock_of(i)?;
    let tz = zone_of(i)?;
    Some(ASN1DateTime {
        year,
        month,
        day,
        hour,
        minute,
        second,
        millisecond,
        tz,
    })
}

/// Reads the fields of a UTCTime. Their ranges aren't checked.
#[tactic(auto, unfolding(crate::specs::Reading::utc_at))]
pub(crate) fn utc_of(i: &[u8]) -> Option<ASN1DateTime>
    ensures { result ≡ utc_at i.now }
{
    let (year, i) = pair_of(i)?;
    tail_of(u32::from(year), i)
}

/// Reads the fields of a GeneralizedTime. Their ranges aren't checked.
#[tactic(auto, unfolding(crate::specs::Reading::generalized_at))]
pub(crate) fn generalized_of(i: &[u8]) -> Option<ASN1DateTime>
    ensures { result ≡ generalized_at i.now }
{
    let (century, i) = pair_of(i)?;
    let (year, i) = pair_of(i)?;
    tail_of(u32::from(century) * 100 + u32::from(year), i)
}
