//! The moment of a text `YYYY-MM-DDTHH:MM:SS`.
ghost use Rattle.std.specs.Prelude.{◌≡◌, ◌<◌, option_map, IfSome, IsSomeAnd, Some, None, if◌then◌else◌};
ghost use Rattle.der_tree.specs.TimeReading.{moment_of, pair_at, IsWritable};
ghost use Rattle.cert_model.specs.Fields.{CivilTime};
ghost use Rattle.cert_model.specs.Times.{is_real, civil_of};
ghost use Rattle.cert_model.specs.View.{time_view};
ghost use Rattle.certpath_engine.specs.Moments.{WritesMoment};
ghost use Rattle.certpath_engine.specs.MomentReading.{part_at, text_at, moment_in};

use der_tree::Clock;
use jiff::civil::DateTime;

/// The moment that a text writes as `YYYY-MM-DDTHH:MM:SS`: a date of the calendar from year 0000 to
/// 9999, and a time that a clock shows, with no second 60. None of any other text.
pub fn read_moment(text: &str) -> Option<DateTime>
    ensures found { IfSome result (λ t. WritesMoment text.now (time_view t)) }
    ensures only { (t : CivilTime) → WritesMoment text.now t → IsSomeAnd result (λ r. time_view r ≡ t) }
{
    moment_among(text.as_bytes())
}

/// The moment that octets write as `YYYY-MM-DDTHH:MM:SS`; none of any other octets.
#[tactic(auto, unfolding(crate::specs::MomentReading::moment_in))]
fn moment_among(octets: &[u8]) -> Option<DateTime>
    ensures { option_map time_view result ≡ moment_in octets.now }
{
    let (clock, rest) = clock_of(octets)?;
    if rest.is_empty() {
        civil_of(clock)
    } else {
        None
    }
}

/// What a clock and a calendar show at the front, and the octets after it.
#[tactic(auto, unfolding(crate::specs::MomentReading::text_at))]
fn clock_of(i: &[u8]) -> Option<(Clock, &[u8])>
    ensures value { option_map (λ p. (moment_of p.0, p.1.now)) result ≡ text_at i.now }
    ensures small { IfSome result (λ p. IsWritable (moment_of p.0)) }
{
    let (century, i) = pair_of(i)?;
    let (year, i) = pair_of(i)?;
    let (month, i) = part_of(b'-', i)?;
    let (day, i) = part_of(b'-', i)?;
    let (hour, i) = part_of(b'T', i)?;
    let (minute, i) = part_of(b':', i)?;
    let (second, i) = part_of(b':', i)?;
    let clock = Clock {
        year: u16::from(century) * 100 + u16::from(year),
        month,
        day,
        hour,
        minute,
        second,
    };
    Some((clock, i))
}

/// Two digits at the front, after a separator.
fn part_of(separator: u8, i: &[u8]) -> Option<(u8, &[u8])>
    ensures value { option_map (λ p. (p.0, p.1.now)) result ≡ part_at separator i.now }
    ensures small { IfSome result (λ p. p.0 < 100) }
{
    let [first, rest @ ..] = i else {
        return None;
    };
    if *first == separator {
        pair_of(rest)
    } else {
        None
    }
}

/// Two digits at the front, as a number.
#[tactic(auto, unfolding(der_tree::specs::TimeReading::pair_at))]
fn pair_of(i: &[u8]) -> Option<(u8, &[u8])>
    ensures value { option_map (λ p. (p.0, p.1.now)) result ≡ pair_at i.now }
    ensures small { IfSome result (λ p. p.0 < 100) }
{
    let [first, second, rest @ ..] = i else {
        return None;
    };
    if first.is_ascii_digit() && second.is_ascii_digit() {
        Some(((*first - b'0') * 10 + (*second - b'0'), rest))
    } else {
        None
    }
}

/// The date and time, if the calendar has the date and a clock shows the time.
fn civil_of(clock: Clock) -> Option<DateTime>
    requires { IsWritable (moment_of clock) }
    ensures { option_map time_view result ≡ (if is_real (moment_of clock) then Some (civil_of (moment_of clock)) else None) }
{
    match DateTime::new(
        clock.year as i16,
        clock.month as i8,
        clock.day as i8,
        clock.hour as i8,
        clock.minute as i8,
        clock.second as i8,
        0,
    ) {
        Ok(time) => Some(time),
        Err(_) => None,
    }
}
