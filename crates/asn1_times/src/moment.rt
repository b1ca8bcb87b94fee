//! From the fields of a time to its moment in universal time, on `jiff`'s calendar.

ghost use Rattle.std.specs.Prelude.{◌≡◌, ◌↔◌, ◌≤◌, ◌<◌, IsTrue, IsSome, IfSome, IfOk, pos, ◌-ℤ◌, ◌*ℤ◌, ◌*◌, ◌+◌};
ghost use Rattle.jiff.specs.Words.{IsWithin, civil_nanos};
ghost use Rattle.asn1_times.specs.Moments.{offset_minutes, IsClockOffset, HasClock, HasSameFields, HasNoOffset, GivesMoment, GivesShifted, full_year};
ghost use Rattle.asn1_times.specs.Readers.{moment_at, GivesNanos};

use crate::datetime::{ASN1DateTime, ASN1TimeZone};
use crate::generalized_time::GeneralizedTime;
use crate::utc_time::UtcTime;
use asn1_core::Error;
use jiff::civil::DateTime;

impl ASN1DateTime {
    /// Returns the moment in universal time, on the Gregorian calendar extended to the year 0
    /// (ISO 8601): the time of day less the offset of its zone. A time of day without a zone is
    /// taken as universal time.
    ///
    /// `InvalidDateTime` if the month lacks the day, a field is out of range, or the moment is
    /// after the year 9999.
    pub fn to_datetime(&self) -> Result<DateTime, Error>
        ensures moment { GivesMoment self.now.year self.now result }
        ensures exact { GivesNanos result (moment_at self.now.year self.now) }
        ensures fields { HasNoOffset self.now.tz → IfOk result (HasSameFields self.now.year self.now) }
    {
        moment_in(self.year, self)
    }
}

impl UtcTime {
    /// Returns the moment in universal time, in the year from 0 to 99 that the two digits are.
    ///
    /// `InvalidDateTime` if the month lacks the day, a field is out of range, or the moment is
    /// after the year 9999.
    pub fn utc_datetime(&self) -> Result<DateTime, Error>
        ensures moment { GivesMoment self.now.0.year self.now.0 result }
        ensures exact { GivesNanos result (moment_at self.now.0.year self.now.0) }
        ensures fields { HasNoOffset self.now.0.tz → IfOk result (HasSameFields self.now.0.year self.now.0) }
    {
        moment_in(self.0.year, &self.0)
    }

    /// Returns the moment in universal time, the year being 19YY if YY is 50 or more, else 20YY
    /// (RFC 5280, 4.1.2.5.1).
    ///
    /// `InvalidDateTime` if the month lacks the day, a field is out of range, or the moment is
    /// after the year 9999.
    pub fn utc_adjusted_datetime(&self) -> Result<DateTime, Error>
        ensures moment { GivesMoment (full_year self.now.0.year) self.now.0 result }
        ensures exact { GivesNanos result (moment_at (full_year self.now.0.year) self.now.0) }
        ensures fields { HasNoOffset self.now.0.tz → IfOk result (HasSameFields (full_year self.now.0.year) self.now.0) }
    {
        if self.0.year > 9999 {
            return Err(Error::InvalidDateTime);
        }
        moment_in(full_year(self.0.year), &self.0)
    }
}

impl GeneralizedTime {
    /// Returns the moment in universal time, as `ASN1DateTime::to_datetime` does.
    ///
    /// `InvalidDateTime` if the month lacks the day, a field is out of range, or the moment is
    /// after the year 9999.
    pub fn utc_datetime(&self) -> Result<DateTime, Error>
        ensures moment { GivesMoment self.now.0.year self.now.0 result }
        ensures exact { GivesNanos result (moment_at self.now.0.year self.now.0) }
        ensures fields { HasNoOffset self.now.0.tz → IfOk result (HasSameFields self.now.0.year self.now.0) }
    {
        self.0.to_datetime()
    }
}

// The whole year of two digits.
fn full_year(year: u32) -> u32
    requires { year ≤ 9999 }
    ensures { result ≡ full_year year }
{
    if year >= 50 { 1900 + year } else { 2000 + year }
}

// The moment of the date and time in this year.
fn moment_in(year: u32, time: &ASN1DateTime) -> Result<DateTime, Error>
    ensures moment { GivesMoment year time.now result }
    ensures exact { GivesNanos result (moment_at year time.now) }
    ensures fields { HasNoOffset time.now.tz → IfOk result (HasSameFields year time.now) }
{
    let Some(local) = local_in(year, time) else {
        return Err(Error::InvalidDateTime);
    };
    match time.tz {
        ASN1TimeZone::Offset(hour, minute) => shifted(local, hour, minute),
        _ => Ok(local),
    }
}

// The date and time in this year on the zone's clock, if the calendar and a clock have them.
fn local_in(year: u32, time: &ASN1DateTime) -> Option<DateTime>
    ensures some { IsSome result ↔ HasClock year time.now }
    ensures fields { IfSome result (HasSameFields year time.now) }
{
    let millisecond = time.millisecond.unwrap_or(0);
    if year > 9999
        || time.month > 12
        || time.day > 31
        || time.hour > 23
        || time.minute > 59
        || time.second > 59
        || millisecond > 999
    {
        return None;
    }
    match DateTime::new(
        year as i16,
        time.month as i8,
        time.day as i8,
        time.hour as i8,
        time.minute as i8,
        time.second as i8,
        i32::from(millisecond) * 1_000_000,
    ) {
        Ok(local) => Some(local),
        Err(_) => None,
    }
}

// Minutes that a clock is ahead of universal time.
fn offset_minutes(hour: i8, minute: i8) -> i32
    ensures value { result ≡ offset_minutes hour minute }
    ensures small { IsWithin 7808 result }
{
    let hours = i32::from(hour) * 60;
    let minutes = i32::from(minute);
    if hour == 0 {
        minutes
    } else if hour > 0 {
        hours + minutes.abs()
    } else {
        hours - minutes.abs()
    }
}

// The date and time of a clock with this offset, in universal time.
fn shifted(local: DateTime, hour: i8, minute: i8) -> Result<DateTime, Error>
    ensures { GivesShifted (IsClockOffset hour minute) (civil_nanos local -ℤ offset_minutes hour minute *ℤ pos 60_000_000_000) result }
{
    if hour.unsigned_abs() > 23 || minute.unsigned_abs() > 59 {
        return Err(Error::InvalidDateTime);
    }
    let minutes = i128::from(offset_minutes(hour, minute));
    match local
        .to_plain()
        .checked_add_nanos(minutes * -60_000_000_000)
    {
        Ok(moment) => Ok(DateTime::from_plain(moment)),
        Err(_) => Err(Error::InvalidDateTime),
    }
}
