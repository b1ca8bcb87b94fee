//! `ASN1Time`, a time of a certificate or list.

ghost use Rattle.std.specs.Prelude.{◌≡◌, false, true, not, pos, ◌*ℤ◌, IfOk, IfErr, IsOk, ◌↔◌};
ghost use Rattle.jiff.specs.Words.{civil_nanos, civil_seconds};
ghost use Rattle.x509_time.specs.Calls.{time_of, is_late, AreSeconds, ReadsTimeOf};

use jiff::civil::DateTime;
use x509_core::X509Error;

/// A moment in universal time with its form, UTCTime or GeneralizedTime (RFC 5280, 4.1.2.5).
///
/// Times are ordered by moment; at equal moments UTCTime comes before GeneralizedTime.
#[derive(Clone, Copy, Debug, PartialEq, Eq, PartialOrd, Ord, Hash)]
pub struct ASN1Time {
    time: DateTime,
    generalized: bool,
}

impl ASN1Time {
    /// Makes a time of a moment: a GeneralizedTime from the year 2050 on, else a UTCTime.
    pub fn new(dt: DateTime) -> ASN1Time
        ensures { result ≡ time_of dt }
    {
        ASN1Time {
            time: dt,
            generalized: dt.year() > 2049,
        }
    }

    /// Makes a GeneralizedTime of a moment.
    pub fn new_generalized(dt: DateTime) -> ASN1Time
        ensures { result ≡ record { time = dt; generalized = true } }
    {
        ASN1Time {
            time: dt,
            generalized: true,
        }
    }

    /// Makes a UTCTime of a moment of any year.
    pub fn new_utc(dt: DateTime) -> ASN1Time
        ensures { result ≡ record { time = dt; generalized = false } }
    {
        ASN1Time {
            time: dt,
            generalized: false,
        }
    }

    /// Makes a time, as `new`, of the caller's current moment. The library reads no clock.
    pub fn now(moment: DateTime) -> ASN1Time
        ensures { result ≡ time_of moment }
    {
        ASN1Time::new(moment)
    }

    /// Makes a time, as `new`, of so many seconds after the beginning of 1970, without leap
    /// seconds.
    ///
    /// # Errors
    ///
    /// `InvalidDate` if the year isn't from -9999 to 9999.
    pub fn from_timestamp(secs: i64) -> Result<ASN1Time, X509Error>
        ensures { ReadsTimeOf (secs *ℤ pos 1_000_000_000) result }
    {
        match jiff_core::civil::DateTime::from_nanosecond(i128::from(secs) * 1_000_000_000) {
            Ok(moment) => Ok(ASN1Time::new(DateTime::from_plain(moment))),
            Err(_) => Err(X509Error::InvalidDate),
        }
    }

    /// The moment of the time.
    pub fn to_datetime(&self) -> DateTime
        ensures { result ≡ self.now.time }
    {
        self.time
    }

    /// The seconds since the beginning of 1970, without leap seconds, rounded down.
    pub fn timestamp(&self) -> i64
        ensures seconds { result ≡ civil_seconds self.now.time }
        ensures dropped { AreSeconds (civil_nanos self.now.time) result }
    {
        self.time.to_plain().to_second()
    }

    /// Whether the form is UTCTime.
    pub fn is_utctime(&self) -> bool
        ensures { result ≡ not self.now.generalized }
    {
        !self.generalized
    }

    /// Whether the form is GeneralizedTime.
    pub fn is_generalizedtime(&self) -> bool
        ensures { result ≡ self.now.generalized }
    {
        self.generalized
    }
}

/// Makes a time of a moment, as `new`.
impl From<DateTime> for ASN1Time {
    ghost use Rattle.std.specs.Prelude.{◌≡◌};
    ghost use Rattle.x509_time.specs.Calls.{time_of};

    ghost from_gives = { λ dt t. t ≡ time_of dt };

    fn from(dt: DateTime) -> ASN1Time {
        ASN1Time::new(dt)
    }
}
