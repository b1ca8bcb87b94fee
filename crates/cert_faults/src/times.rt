//! Times (RFC 5280, 4.1.2.5): UTCTime up to the year 2049, GeneralizedTime from then on, in whole
//! seconds and in UTC.

ghost use Rattle.std.specs.Prelude.{◌≡◌, ℕ, option_map, Some, None, if◌then◌else◌};
ghost use Rattle.der_tree.specs.Table.{utc_time, generalized_time};
ghost use Rattle.der_tree.specs.TimeReading.{moment_of, IsWritable};
ghost use Rattle.der_tree.specs.Access.{plain_at};
ghost use Rattle.der_tree.specs.View.{view, views};
ghost use Rattle.cert_model.specs.View.{time_view};
ghost use Rattle.cert_model.specs.Times.{is_real, civil_of, is_zulu, utc_time_at, late_time_at, time_at};

use der_tree::{BerObject, BerObjectContent, Clock, generalized_of, utc_of};
use jiff::civil::DateTime;

/// The first year that is written as GeneralizedTime (RFC 5280, 4.1.2.5).
const FIRST_LATE_YEAR: u16 = 2050;

pub(crate) fn utc_content<'a>(object: &BerObject<'a>) -> Option<&'a [u8]>
    ensures { option_map (λ octets. octets.now) result ≡ plain_at utc_time (view object.now) }
{
    match &object.content {
        BerObjectContent::UTCTime(octets) => Some(octets),
        _ => None,
    }
}

pub(crate) fn generalized_content<'a>(object: &BerObject<'a>) -> Option<&'a [u8]>
    ensures { option_map (λ octets. octets.now) result ≡ plain_at generalized_time (view object.now) }
{
    match &object.content {
        BerObjectContent::GeneralizedTime(octets) => Some(octets),
        _ => None,
    }
}

/// Whether Z alone is left.
fn is_zulu(rest: &[u8]) -> bool
    ensures { result ≡ is_zulu rest.now }
{
    match rest {
        [end] => *end == b'Z',
        _ => false,
    }
}

/// The date and time, if the calendar has the date and a clock shows the time.
fn civil_of(clock: Clock) -> Option<DateTime>
    requires { IsWritable (moment_of clock) }
    ensures { option_map time_view result ≡ (if is_real (moment_of clock) then Some (civil_of (moment_of clock)) else None) }
{
    match DateTime::new(
        clock.year as i16,
        clock.month as i8,
        clock.day as i8,
        clock.hour as i8,
        clock.minute as i8,
        clock.second as i8,
        0,
    ) {
        Ok(time) => Some(time),
        Err(_) => None,
    }
}

/// YYMMDDHHMMSSZ.
#[tactic(auto, unfolding(cert_model::specs::Times::utc_time_at))]
fn utc_time_of(object: &BerObject<'_>) -> Option<DateTime>
    ensures { option_map time_view result ≡ utc_time_at (view object.now) }
{
    let (clock, rest) = utc_of(utc_content(object)?)?;
    if is_zulu(rest) { civil_of(clock) } else { None }
}

/// YYYYMMDDHHMMSSZ from the year 2050 on.
#[tactic(auto, unfolding(cert_model::specs::Times::late_time_at))]
fn late_time_of(object: &BerObject<'_>) -> Option<DateTime>
    ensures { option_map time_view result ≡ late_time_at (view object.now) }
{
    let (clock, rest) = generalized_of(generalized_content(object)?)?;
    if clock.year >= FIRST_LATE_YEAR && is_zulu(rest) {
        civil_of(clock)
    } else {
        None
    }
}

/// Time.
#[tactic(auto, unfolding(cert_model::specs::Times::time_at))]
pub(crate) fn time_of(object: &BerObject<'_>) -> Option<DateTime>
    ensures { option_map time_view result ≡ time_at (view object.now) }
{
    match utc_time_of(object) {
        Some(time) => Some(time),
        None => late_time_of(object),
    }
}
