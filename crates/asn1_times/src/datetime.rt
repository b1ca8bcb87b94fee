//! A date and a time of day with its zone, as the fields of a time are read.

ghost use Rattle.std.specs.Prelude.{◌≡◌, ◌↔◌, IsTrue};
ghost use Rattle.asn1_times.specs.Fields.{IsOffset, IsZone, IsToldZone, IsClock};

/// The zone of a time of day.
#[derive(Clone, Copy, Debug, PartialEq, Eq, PartialOrd, Ord)]
pub enum ASN1TimeZone {
    /// No zone is given.
    Undefined,
    /// Coordinated universal time, written `Z`.
    Z,
    /// Hours and minutes by which the clock is ahead of universal time, or, if negative, late. The
    /// hours have the sign; if they are 0 the minutes have it.
    Offset(i8, i8),
}

impl ASN1TimeZone {
    /// Returns whether the zone is no offset, or an offset in range.
    pub(crate) fn is_in_range(&self) -> bool
        ensures { IsTrue result ↔ IsZone self.now }
    {
        match self {
            ASN1TimeZone::Undefined | ASN1TimeZone::Z => true,
            ASN1TimeZone::Offset(hour, minute) => is_offset(*hour, *minute),
        }
    }

    /// Returns whether the zone is `Z` or an offset in range.
    pub(crate) fn is_told(&self) -> bool
        ensures { IsTrue result ↔ IsToldZone self.now }
    {
        match self {
            ASN1TimeZone::Undefined => false,
            ASN1TimeZone::Z => true,
            ASN1TimeZone::Offset(hour, minute) => is_offset(*hour, *minute),
        }
    }
}

// Hours to 23 and minutes to 59, which are negative only if the hours are 0.
fn is_offset(hour: i8, minute: i8) -> bool
    ensures { IsTrue result ↔ IsOffset hour minute }
{
    hour.unsigned_abs() < 24 && minute.unsigned_abs() < 60 && (minute >= 0 || hour == 0)
}

/// A date and a time of day with a zone. Only the types of the fields bound them: the readers check
/// ranges.
#[derive(Clone, Copy, Debug, PartialEq, Eq, PartialOrd, Ord)]
pub struct ASN1DateTime {
    /// The year; in a UTCTime its last two digits.
    pub year: u32,
    /// The month, from 1.
    pub month: u8,
    /// The day of the month, from 1.
    pub day: u8,
    pub hour: u8,
    pub minute: u8,
    pub second: u8,
    /// The fraction of the second in thousandths, if one is given.
    pub millisecond: Option<u16>,
    pub tz: ASN1TimeZone,
}

impl ASN1DateTime {
    /// Returns the date and time of these fields. The calendar isn't asked: 31 February is
    /// accepted.
    pub fn new(
        year: u32,
        month: u8,
        day: u8,
        hour: u8,
        minute: u8,
        second: u8,
        millisecond: Option<u16>,
        tz: ASN1TimeZone,
    ) -> ASN1DateTime
        ensures { result ≡ record { year = year; month = month; day = day; hour = hour; minute = minute; second = second; millisecond = millisecond; tz = tz } }
    {
        ASN1DateTime {
            year,
            month,
            day,
            hour,
            minute,
            second,
            millisecond,
            tz,
        }
    }

    /// Returns whether the fields from the month to the second are in range. Whether the month has
    /// the day isn't checked.
    pub(crate) fn is_clock(&self) -> bool
        ensures { IsTrue result ↔ IsClock self.now }
    {
        1 <= self.month
            && self.month <= 12
            && 1 <= self.day
            && self.day <= 31
            && self.hour < 24
            && self.minute < 60
            && self.second < 60
    }
}
