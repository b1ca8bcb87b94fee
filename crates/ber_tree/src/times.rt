//! UTCTime and GeneralizedTime as BER allows them.

ghost use Rattle.std.specs.Prelude.{◌≡◌, ◌↔◌, ◌<◌, IsTrue, IfSome, option_map};
ghost use Rattle.der_tree.specs.TimeReading.{pair_at};
ghost use Rattle.ber_tree.specs.Time.{IsBerUtcTime, IsBerGeneralizedTime};
ghost use Rattle.ber_tree.specs.TimeReading.{ranged_at, clock_at, begins_with_digit, second_at, digits_at, fraction_at, exact_second_at, offset_at, is_over, is_zone, is_local, utc_at, generalized_at, ends};

/// Returns whether the octets are a UTCTime of BER: YYMMDDHHMM, SS or none, and `Z` or an offset.
pub(crate) fn is_ber_utc_time(content: &[u8]) -> bool
    ensures { IsTrue result ↔ IsBerUtcTime content.now }
{
    is_utc(content)
}

/// Returns whether the octets are a GeneralizedTime of BER: YYYYMMDDHHMM; SS, with a fraction of up
/// to three digits or none, or nothing; and `Z`, an offset or nothing.
pub(crate) fn is_ber_generalized_time(content: &[u8]) -> bool
    ensures { IsTrue result ↔ IsBerGeneralizedTime content.now }
{
    is_generalized(content)
}

fn is_utc(i: &[u8]) -> bool
    ensures { result ≡ ends is_zone (utc_at i.now) }
{
    match utc_of(i) {
        Some(rest) => is_zone(rest),
        None => false,
    }
}

fn is_generalized(i: &[u8]) -> bool
    ensures { result ≡ ends is_local (generalized_at i.now) }
{
    match generalized_of(i) {
        Some(rest) => is_local(rest),
        None => false,
    }
}

/// Reads two digits as a number.
#[tactic(auto, unfolding(der_tree::specs::TimeReading::pair_at))]
fn pair_of(i: &[u8]) -> Option<(u8, &[u8])>
    ensures value { option_map (λ p. (p.0, p.1.now)) result ≡ pair_at i.now }
    ensures small { IfSome result (λ p. p.0 < 100) }
{
    let [first, second, rest @ ..] = i else {
        return None;
    };
    if first.is_ascii_digit() && second.is_ascii_digit() {
        Some(((*first - b'0') * 10 + (*second - b'0'), rest))
    } else {
        None
    }
}

/// Skips two digits of a number in this range; returns the octets after them.
#[tactic(auto, unfolding(crate::specs::TimeReading::ranged_at))]
fn ranged_of(least: u8, most: u8, i: &[u8]) -> Option<&[u8]>
    ensures { option_map (λ r. r.now) result ≡ ranged_at least most i.now }
{
    let (number, rest) = pair_of(i)?;
    if least <= number && number <= most {
        Some(rest)
    } else {
        None
    }
}

#[tactic(auto, unfolding(crate::specs::TimeReading::clock_at))]
fn clock_of(i: &[u8]) -> Option<&[u8]>
    ensures { option_map (λ r. r.now) result ≡ clock_at i.now }
{
    let day = ranged_of(1, 12, i)?;
    let hour = ranged_of(1, 31, day)?;
    let minute = ranged_of(0, 23, hour)?;
    ranged_of(0, 59, minute)
}

fn begins_with_digit(i: &[u8]) -> bool
    ensures { result ≡ begins_with_digit i.now }
{
    match i {
        [] => false,
        [first, ..] => first.is_ascii_digit(),
    }
}

#[tactic(auto, unfolding(crate::specs::TimeReading::second_at))]
fn second_of(i: &[u8]) -> Option<&[u8]>
    ensures { option_map (λ r. r.now) result ≡ second_at i.now }
{
    if begins_with_digit(i) {
        ranged_of(0, 59, i)
    } else {
        Some(i)
    }
}

/// Skips at most `n` digits; returns the octets after them. The last digit, which may be `last`,
/// isn't 0.
#[tactic(auto, unfolding(crate::specs::TimeReading::digits_at))]
fn digits_of(n: usize, last: u8, i: &[u8]) -> Option<&[u8]>
    ensures { option_map (λ r. r.now) result ≡ digits_at n last i.now }
{
    if n > 0 {
        match i {
            [] => {}
            [digit, rest @ ..] => {
                if digit.is_ascii_digit() {
                    return digits_of(n - 1, *digit, rest);
                }
            }
        }
    }
    if last == b'0' { None } else { Some(i) }
}

#[tactic(auto, unfolding(crate::specs::TimeReading::fraction_at))]
fn fraction_of(i: &[u8]) -> Option<&[u8]>
    ensures { option_map (λ r. r.now) result ≡ fraction_at i.now }
{
    match i {
        [] => Some(i),
        [point] => { if *point == b'.' { None } else { Some(i) } }
        [point, digit, rest @ ..] => {
            if *point != b'.' {
                Some(i)
            } else if digit.is_ascii_digit() {
                digits_of(2, *digit, rest)
            } else {
                None
            }
        }
    }
}

#[tactic(auto, unfolding(crate::specs::TimeReading::exact_second_at))]
fn exact_second_of(i: &[u8]) -> Option<&[u8]>
    ensures { option_map (λ r. r.now) result ≡ exact_second_at i.now }
{
    if begins_with_digit(i) {
        fraction_of(ranged_of(0, 59, i)?)
    } else {
        Some(i)
    }
}

#[tactic(auto, unfolding(crate::specs::TimeReading::offset_at))]
fn offset_of(i: &[u8]) -> Option<&[u8]>
    ensures { option_map (λ r. r.now) result ≡ offset_at i.now }
{
    let minute = ranged_of(0, 23, i)?;
    ranged_of(0, 59, minute)
}

fn is_offset(i: &[u8]) -> bool
    ensures { result ≡ is_over (offset_at i.now) }
{
    match offset_of(i) {
        Some(rest) => rest.is_empty(),
        None => false,
    }
}

#[tactic(auto, unfolding(crate::specs::TimeReading::is_zone))]
fn is_zone(i: &[u8]) -> bool
    ensures { result ≡ is_zone i.now }
{
    match i {
        [] => false,
        [only] => *only == b'Z',
        [sign, offset @ ..] => (*sign == b'+' || *sign == b'-') && is_offset(offset),
    }
}

#[tactic(auto, unfolding(crate::specs::TimeReading::is_local))]
fn is_local(i: &[u8]) -> bool
    ensures { result ≡ is_local i.now }
{
    i.is_empty() || is_zone(i)
}

#[tactic(auto, unfolding(crate::specs::TimeReading::utc_at))]
fn utc_of(i: &[u8]) -> Option<&[u8]>
    ensures { option_map (λ r. r.now) result ≡ utc_at i.now }
{
    let (_, clock) = pair_of(i)?;
    second_of(clock_of(clock)?)
}

#[tactic(auto, unfolding(crate::specs::TimeReading::generalized_at))]
fn generalized_of(i: &[u8]) -> Option<&[u8]>
    ensures { option_map (λ r. r.now) result ≡ generalized_at i.now }
{
    let (_, year) = pair_of(i)?;
    let (_, clock) = pair_of(year)?;
    exact_second_of(clock_of(clock)?)
}
