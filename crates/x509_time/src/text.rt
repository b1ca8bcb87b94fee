//! Texts of times.

ghost use Rattle.std.specs.Prelude.{◌≡◌};
ghost use Rattle.std.specs.Int.{IsInRange};
ghost use Rattle.jiff.specs.Words.{monday_zero};
ghost use Rattle.x509_time.specs.Texts.{last_digit, month_name, weekday_name, WritesRfc2822};

use crate::time::ASN1Time;
use jiff::civil::{DateTime, Weekday};
use jiff_core::civil;
use std::alloc::Global;
use std::fmt;
use x509_core::X509Error;

// The last two digits of a number.
#[derive(Clone, Copy)]
struct TwoDigits(u16);

impl fmt::Display for TwoDigits {
    ghost use Rattle.std.specs.Prelude.{Some};
    ghost use Rattle.x509_time.specs.Texts.{two_digits};

    ghost output = { λ n. Some (two_digits n.0) };

    fn fmt<W: fmt::Write>(&self, f: &mut fmt::Formatter<W>) -> fmt::Result {
        f.write_char(digit(self.0 / 10))?;
        f.write_char(digit(self.0))
    }
}

// A number below 100 in two places.
#[derive(Clone, Copy)]
struct TwoPlaces(u16);

impl fmt::Display for TwoPlaces {
    ghost use Rattle.std.specs.Prelude.{Some};
    ghost use Rattle.x509_time.specs.Texts.{two_places};

    ghost output = { λ n. Some (two_places n.0) };

    fn fmt<W: fmt::Write>(&self, f: &mut fmt::Formatter<W>) -> fmt::Result {
        f.write_char(if self.0 < 10 { ' ' } else { digit(self.0 / 10) })?;
        f.write_char(digit(self.0))
    }
}

// HH:MM:SS.
#[derive(Clone, Copy)]
struct Clock(civil::Time);

impl fmt::Display for Clock {
    ghost use Rattle.std.specs.Prelude.{Some};
    ghost use Rattle.x509_time.specs.Texts.{clock_text};

    ghost output = { λ c. Some (clock_text c.0) };

    fn fmt<W: fmt::Write>(&self, f: &mut fmt::Formatter<W>) -> fmt::Result {
        let hour = TwoDigits(u16::from(self.0.hour));
        let minute = TwoDigits(u16::from(self.0.minute));
        let second = TwoDigits(u16::from(self.0.second));
        write!(f, "{hour}:{minute}:{second}")
    }
}

/// Writes `Jul  1 10:52:37 2003 +00:00`, without fractions of a second.
impl fmt::Display for ASN1Time {
    ghost use Rattle.std.specs.Prelude.{Some};
    ghost use Rattle.x509_time.specs.Texts.{time_text};

    ghost output = { λ t. Some (time_text t.time) };

    fn fmt<W: fmt::Write>(&self, f: &mut fmt::Formatter<W>) -> fmt::Result {
        let civil::DateTime { date, time } = self.to_datetime().to_plain();
        let month = month_name(date.month);
        let day = TwoPlaces(u16::from(date.day));
        let clock = Clock(time);
        let year = date.year;
        write!(f, "{month} {day} {clock} {year} +00:00")
    }
}

impl ASN1Time {
    /// The time as `Tue, 01 Jul 2003 10:52:37 +0000`, by RFC 2822 (now RFC 5322, 3.3), without
    /// fractions of a second.
    ///
    /// # Errors
    ///
    /// `InvalidDate` before the year 1900; `OutOfMemory`.
    pub fn to_rfc2822(self, alloc: Global) -> Result<String, X509Error>
        ensures { WritesRfc2822 self.time result }
    {
        let moment = self.to_datetime();
        if moment.year() < 1900 {
            return Err(X509Error::InvalidDate);
        }
        let text = Rfc2822(moment).to_string(alloc)?;
        Ok(text)
    }
}

// The weekday of a moment.
#[derive(Clone, Copy)]
struct WeekdayOf(DateTime);

impl fmt::Display for WeekdayOf {
    ghost use Rattle.std.specs.Prelude.{Some};
    ghost use Rattle.jiff.specs.Words.{weekday_of};
    ghost use Rattle.x509_time.specs.Texts.{weekday_name};

    ghost output = { λ t. Some (weekday_name (weekday_of t.0.date)) };

    fn fmt<W: fmt::Write>(&self, f: &mut fmt::Formatter<W>) -> fmt::Result {
        f.write_str(weekday_name(self.0.weekday()))
    }
}

// The last four digits of a moment's year.
#[derive(Clone, Copy)]
struct YearOf(DateTime);

impl fmt::Display for YearOf {
    ghost use Rattle.std.specs.Prelude.{Some, unsigned_abs};
    ghost use Rattle.x509_time.specs.Texts.{four_digits};

    ghost output = { λ t. Some (four_digits (unsigned_abs t.0.date.year)) };

    fn fmt<W: fmt::Write>(&self, f: &mut fmt::Formatter<W>) -> fmt::Result {
        let number = self.0.year().unsigned_abs();
        let century = TwoDigits(number / 100);
        let year = TwoDigits(number);
        write!(f, "{century}{year}")
    }
}

// A moment by RFC 2822.
#[derive(Clone, Copy)]
struct Rfc2822(DateTime);

impl fmt::Display for Rfc2822 {
    ghost use Rattle.std.specs.Prelude.{Some};
    ghost use Rattle.x509_time.specs.Texts.{rfc2822_text};

    ghost output = { λ t. Some (rfc2822_text t.0) };

    fn fmt<W: fmt::Write>(&self, f: &mut fmt::Formatter<W>) -> fmt::Result {
        let weekday = WeekdayOf(self.0);
        let year = YearOf(self.0);
        let civil::DateTime { date, time } = self.0.to_plain();
        let day = TwoDigits(u16::from(date.day));
        let month = month_name(date.month);
        let clock = Clock(time);
        write!(f, "{weekday}, {day} {month} {year} {clock} +0000")
    }
}

// The last digit of a number.
fn digit(n: u16) -> char
    ensures { result ≡ last_digit n }
{
    char::from(b'0' + (n % 10) as u8)
}

// A month, from 1, in three letters.
fn month_name(month: u8) -> &'static str
    requires { IsInRange 1 12 month }
    ensures { result.now ≡ month_name month }
{
    match month {
        1 => "Jan",
        2 => "Feb",
        3 => "Mar",
        4 => "Apr",
        5 => "May",
        6 => "Jun",
        7 => "Jul",
        8 => "Aug",
        9 => "Sep",
        10 => "Oct",
        11 => "Nov",
        _ => "Dec",
    }
}

// A weekday in three letters.
fn weekday_name(day: Weekday) -> &'static str
    ensures { result.now ≡ weekday_name (monday_zero day) }
{
    match day {
        Weekday::Monday => "Mon",
        Weekday::Tuesday => "Tue",
        Weekday::Wednesday => "Wed",
        Weekday::Thursday => "Thu",
        Weekday::Friday => "Fri",
        Weekday::Saturday => "Sat",
        Weekday::Sunday => "Sun",
    }
}
