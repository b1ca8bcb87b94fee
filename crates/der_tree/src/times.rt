//! UTCTime and GeneralizedTime.

ghost use Rattle.std.specs.Prelude.{◌≡◌, ◌↔◌, ℕ, ◌+◌, ◌<◌, nat_le, if◌then◌else◌, IsTrue, IfSome, option_map, [], ◌∷◌};
ghost use Rattle.std.specs.List.{list_all};
ghost use Rattle.std.specs.Char.{is_ascii_digit};
ghost use Rattle.der_tree.specs.Time.{IsUtcTime, IsGeneralizedTime, IsMoment, ends_in_zero};
ghost use Rattle.der_tree.specs.TimeReading.{pair_at, moment_at, utc_at, generalized_at, is_fraction, moment_of, IsWritable, EndsTime};

use jiff::civil::DateTime;

/// The parts of a date and a time of day, as digits wrote them: the year has four digits, each other part two.
#[derive(Clone, Copy)]
pub struct Clock {
    pub year: u16,
    pub month: u8,
    pub day: u8,
    pub hour: u8,
    pub minute: u8,
    pub second: u8,
}

/// Whether the octets are a UTCTime of DER: YYMMDDHHMMSSZ of a real date and time, YY from 50 on being 19YY.
pub(crate) fn is_utc_time(content: &[u8]) -> bool
    ensures { IsTrue result ↔ IsUtcTime content.now }
{
    match utc_of(content) {
        Some((clock, rest)) => is_end(rest) && is_real(clock),
        None => false,
    }
}

/// Whether the octets are a GeneralizedTime of DER: YYYYMMDDHHMMSSZ of a real date and time, or with a fraction before Z.
pub(crate) fn is_generalized_time(content: &[u8]) -> bool
    ensures { IsTrue result ↔ IsGeneralizedTime content.now }
{
    match generalized_of(content) {
        Some((clock, rest)) => ends_time(rest) && is_real(clock),
        None => false,
    }
}

/// Two digits at the front, as a number.
#[tactic(auto, unfolding(crate::specs::TimeReading::pair_at))]
fn pair_of(i: &[u8]) -> Option<(u8, &[u8])>
    ensures value { option_map (λ p. (p.0, p.1.now)) result ≡ pair_at i.now }
    ensures small { IfSome result (λ p. p.0 < 100) }
{
    let [first, second, rest @ ..] = i else {
        return None;
    };
    if first.is_ascii_digit() && second.is_ascii_digit() {
        Some(((*first - b'0') * 10 + (*second - b'0'), rest))
    } else {
        None
    }
}

#[tactic(auto, unfolding(crate::specs::TimeReading::moment_at))]
fn clock_of(year: u16, i: &[u8]) -> Option<(Clock, &[u8])>
    requires { year < 10000 }
    ensures value { option_map (λ p. (moment_of p.0, p.1.now)) result ≡ moment_at year i.now }
    ensures small { IfSome result (λ p. IsWritable (moment_of p.0)) }
{
    let (month, i) = pair_of(i)?;
    let (day, i) = pair_of(i)?;
    let (hour, i) = pair_of(i)?;
    let (minute, i) = pair_of(i)?;
    let (second, i) = pair_of(i)?;
    let clock = Clock {
        year,
        month,
        day,
        hour,
        minute,
        second,
    };
    Some((clock, i))
}

/// YYMMDDHHMMSS at the front, YY from 50 on being 19YY (RFC 5280, 4.1.2.5.1), and the octets after
/// it. Whether the calendar has the date isn't asked.
#[tactic(auto, unfolding(crate::specs::TimeReading::utc_at))]
pub fn utc_of(i: &[u8]) -> Option<(Clock, &[u8])>
    ensures value { option_map (λ p. (moment_of p.0, p.1.now)) result ≡ utc_at i.now }
    ensures small { IfSome result (λ p. IsWritable (moment_of p.0)) }
{
    let (year, i) = pair_of(i)?;
    clock_of(year_of(year), i)
}

fn year_of(year: u8) -> u16
    ensures value { result ≡ (if nat_le 50 year then 1900 + year else 2000 + year) }
    ensures small { result < 10000 }
{
    if year >= 50 {
        1900 + u16::from(year)
    } else {
        2000 + u16::from(year)
    }
}

/// YYYYMMDDHHMMSS at the front (X.690, 11.7), and the octets after it. Whether the calendar has the
/// date isn't asked.
#[tactic(auto, unfolding(crate::specs::TimeReading::generalized_at))]
pub fn generalized_of(i: &[u8]) -> Option<(Clock, &[u8])>
    ensures value { option_map (λ p. (moment_of p.0, p.1.now)) result ≡ generalized_at i.now }
    ensures small { IfSome result (λ p. IsWritable (moment_of p.0)) }
{
    let (century, i) = pair_of(i)?;
    let (year, i) = pair_of(i)?;
    clock_of(u16::from(century) * 100 + u16::from(year), i)
}

/// Whether the calendar has the date and a clock shows the time.
fn is_real(clock: Clock) -> bool
    requires { IsWritable (moment_of clock) }
    ensures { IsTrue result ↔ IsMoment (moment_of clock) }
{
    DateTime::new(
        clock.year as i16,
        clock.month as i8,
        clock.day as i8,
        clock.hour as i8,
        clock.minute as i8,
        clock.second as i8,
        0,
    )
    .is_ok()
}

/// Whether the octets are Z alone.
fn is_end(i: &[u8]) -> bool
    ensures { IsTrue result ↔ (i.now ≡ 90 ∷ []) }
{
    match i {
        [end] => *end == b'Z',
        _ => false,
    }
}

/// Whether the octets are Z, after a fraction of a second or nothing.
fn ends_time(i: &[u8]) -> bool
    ensures { IsTrue result ↔ EndsTime i.now }
{
    match i.split_last() {
        None => false,
        Some((end, fraction)) => *end == b'Z' && is_fraction(fraction),
    }
}

fn is_fraction(i: &[u8]) -> bool
    ensures { result ≡ is_fraction i.now }
{
    let [point, digits @ ..] = i else {
        return true;
    };
    !digits.is_empty() && *point == b'.' && are_digits(digits) && !ends_in_zero(digits)
}

fn are_digits(octets: &[u8]) -> bool
    ensures { result ≡ list_all is_ascii_digit octets.now }
{
    octets.iter().all(|octet| octet.is_ascii_digit())
}

fn ends_in_zero(digits: &[u8]) -> bool
    ensures { result ≡ ends_in_zero digits.now }
{
    match digits.split_last() {
        None => false,
        Some((digit, _)) => *digit == b'0',
    }
}
