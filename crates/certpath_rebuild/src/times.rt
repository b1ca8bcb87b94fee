//! Times: UTCTime to 2049, GeneralizedTime from 2050 on (RFC 5280, 4.1.2.5).
ghost use Rattle.std.specs.Prelude.{◌≡◌, ◌/◌, ◌%◌, ◌++◌, ◌∷◌, []};
ghost use Rattle.cert_model.specs.Octets.{moment_in, time_octets};
ghost use Rattle.cert_model.specs.View.{time_view};
ghost use Rattle.der_tree.specs.Time.{two_digits, after_year};

use crate::encode::{Both, Element, Encode, primitive};
use asn1_core::Tag;
use jiff::civil::DateTime;

/// A time as it is written: the century's digits from 2050 on, and the others.
pub(crate) type Time = Element<Both<Option<[u8; 2]>, [u8; 13]>>;

/// Returns a time, in whole seconds.
pub(crate) fn time(time: DateTime) -> Time
    ensures { ⟦<Time as Encode>⟧.octets result ≡ time_octets (time_view time) }
{
    let year = time.year().unsigned_abs();
    let digits = digits(time);
    if year < 2050 {
        primitive(Tag::UtcTime, Both(None, digits))
    } else {
        primitive(Tag::GeneralizedTime, Both(Some(century(time)), digits))
    }
}

// The first two digits of the year.
fn century(time: DateTime) -> [u8; 2]
    ensures { result ≡ two_digits ((moment_in (time_view time)).year / 100) }
{
    let century = (time.year().unsigned_abs() / 100) as u8;
    [48 + century / 10, 48 + century % 10]
}

// The digits from the year's last two on, and `Z`.
fn digits(time: DateTime) -> [u8; 13]
    ensures { let m = moment_in (time_view time) in result ≡ two_digits (m.year % 100) ++ after_year m ++ 90 ∷ [] }
{
    let year = (time.year().unsigned_abs() % 100) as u8;
    let month = time.month() as u8;
    let day = time.day() as u8;
    let hour = time.hour() as u8;
    let minute = time.minute() as u8;
    let second = time.second() as u8;
    [
        48 + year / 10,
        48 + year % 10,
        48 + month / 10,
        48 + month % 10,
        48 + day / 10,
        48 + day % 10,
        48 + hour / 10,
        48 + hour % 10,
        48 + minute / 10,
        48 + minute % 10,
        48 + second / 10,
        48 + second % 10,
        b'Z',
    ]
}
