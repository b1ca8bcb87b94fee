//! Moments: what the date-time calls answer of times, and what they refuse.

use super::{NOON, SHORT, offset};
use asn1_core::Error;
use asn1_times::{ASN1DateTime, ASN1TimeZone, GeneralizedTime, UtcTime};
use jiff::civil::DateTime;
use std::fmt::Debug;
use std::process::Abort;

// What came is what was wanted.
fn agree<R: Abort, T: PartialEq + Debug>(rt: &R, got: &T, want: &T) {
    assert_eq!(rt; *got, *want);
}

// A day by year, month and day; a second of it by hour, minute and second.
type Day = (i16, i8, i8);

type Second = (i8, i8, i8);

// The date and time, in whole seconds.
fn moment(day: Day, second: Second) -> Result<DateTime, Error> {
    fraction(day, second, 0)
}

// The date and time, with a fraction of the second in nanoseconds.
fn fraction(day: Day, second: Second, nanosecond: i32) -> Result<DateTime, Error> {
    match DateTime::new(
        day.0, day.1, day.2, second.0, second.1, second.2, nanosecond,
    ) {
        Ok(moment) => Ok(moment),
        Err(_) => Err(Error::BerValueError),
    }
}

// The time's moment is this one.
fn is_at<R: Abort>(rt: &R, time: ASN1DateTime, day: Day, second: Second) {
    agree(rt, &time.to_datetime(), &moment(day, second));
}

// The time has no moment.
fn is_nowhere<R: Abort>(rt: &R, time: ASN1DateTime) {
    agree(rt, &time.to_datetime(), &Err(Error::InvalidDateTime));
}

// The moment of the UTCTime is this one, in the century that its two digits mean.
fn is_adjusted_to<R: Abort>(rt: &R, time: ASN1DateTime, day: Day, second: Second) {
    agree(
        rt,
        &UtcTime::new(time).utc_adjusted_datetime(),
        &moment(day, second),
    );
}

// The UTCTime has none.
fn is_not_adjusted<R: Abort>(rt: &R, time: ASN1DateTime) {
    agree(
        rt,
        &UtcTime::new(time).utc_adjusted_datetime(),
        &Err(Error::InvalidDateTime),
    );
}

#[test]
fn moments_of_zones(rt: HostRuntime) {
    is_at(&rt, NOON, (2026, 11, 22), (12, 30, 59));
    let local = ASN1DateTime {
        tz: ASN1TimeZone::Undefined,
        ..NOON
    };
    is_at(&rt, local, (2026, 11, 22), (12, 30, 59));
    let ahead = ASN1DateTime {
        tz: offset(5, 30),
        ..NOON
    };
    is_at(&rt, ahead, (2026, 11, 22), (7, 0, 59));
    let behind = ASN1DateTime {
        tz: offset(-5, 30),
        ..NOON
    };
    is_at(&rt, behind, (2026, 11, 22), (18, 0, 59));
    let both_signs = ASN1DateTime {
        tz: offset(-5, -30),
        ..NOON
    };
    is_at(&rt, both_signs, (2026, 11, 22), (18, 0, 59));
    let half = ASN1DateTime {
        tz: offset(0, -30),
        ..NOON
    };
    is_at(&rt, half, (2026, 11, 22), (13, 0, 59));
    let tomorrow = ASN1DateTime {
        tz: offset(-23, 59),
        ..NOON
    };
    is_at(&rt, tomorrow, (2026, 11, 23), (12, 29, 59));
    let quarter = ASN1DateTime {
        millisecond: Some(250),
        ..NOON
    };
    agree(
        &rt,
        &quarter.to_datetime(),
        &fraction((2026, 11, 22), (12, 30, 59), 250_000_000),
    );
}

#[test]
fn days_of_months(rt: HostRuntime) {
    let leap = ASN1DateTime {
        month: 2,
        day: 29,
        ..NOON
    };
    is_nowhere(&rt, ASN1DateTime { day: 30, ..leap });
    is_nowhere(&rt, leap);
    is_nowhere(&rt, ASN1DateTime { year: 1900, ..leap });
    is_at(
        &rt,
        ASN1DateTime { year: 2000, ..leap },
        (2000, 2, 29),
        (12, 30, 59),
    );
    is_at(
        &rt,
        ASN1DateTime { year: 2024, ..leap },
        (2024, 2, 29),
        (12, 30, 59),
    );
    is_at(
        &rt,
        ASN1DateTime { year: 0, ..leap },
        (0, 2, 29),
        (12, 30, 59),
    );
    is_nowhere(&rt, ASN1DateTime { day: 31, ..NOON });
    is_at(
        &rt,
        ASN1DateTime { day: 30, ..NOON },
        (2026, 11, 30),
        (12, 30, 59),
    );
    agree(
        &rt,
        &GeneralizedTime::new(ASN1DateTime {
            year: 2024,
            day: 30,
            ..leap
        })
        .utc_datetime(),
        &Err(Error::InvalidDateTime),
    );

    is_not_adjusted(
        &rt,
        ASN1DateTime {
            year: 24,
            day: 30,
            ..leap
        },
    );
}

#[test]
fn fields_out_of_range(rt: HostRuntime) {
    is_nowhere(&rt, ASN1DateTime { month: 0, ..NOON });
    is_nowhere(&rt, ASN1DateTime { month: 13, ..NOON });
    is_nowhere(&rt, ASN1DateTime { day: 0, ..NOON });
    is_nowhere(&rt, ASN1DateTime { hour: 24, ..NOON });
    is_nowhere(&rt, ASN1DateTime { minute: 60, ..NOON });
    is_nowhere(&rt, ASN1DateTime { second: 60, ..NOON });
    is_nowhere(
        &rt,
        ASN1DateTime {
            second: 255,
            ..NOON
        },
    );
    is_nowhere(
        &rt,
        ASN1DateTime {
            millisecond: Some(1000),
            ..NOON
        },
    );
    is_nowhere(
        &rt,
        ASN1DateTime {
            tz: offset(24, 0),
            ..NOON
        },
    );
    is_nowhere(
        &rt,
        ASN1DateTime {
            tz: offset(-128, 0),
            ..NOON
        },
    );
    is_nowhere(
        &rt,
        ASN1DateTime {
            tz: offset(0, 60),
            ..NOON
        },
    );
    is_nowhere(
        &rt,
        ASN1DateTime {
            year: 10000,
            ..NOON
        },
    );
    is_nowhere(
        &rt,
        ASN1DateTime {
            year: u32::MAX,
            ..NOON
        },
    );
}

#[test]
fn ends_of_the_calendar(rt: HostRuntime) {
    let last = ASN1DateTime::new(9999, 12, 31, 23, 59, 59, None, ASN1TimeZone::Z);
    is_at(&rt, last, (9999, 12, 31), (23, 59, 59));
    is_nowhere(
        &rt,
        ASN1DateTime {
            tz: offset(0, -1),
            ..last
        },
    );
    let first = ASN1DateTime::new(0, 1, 1, 0, 0, 0, None, offset(0, 1));
    is_at(&rt, first, (-1, 12, 31), (23, 59, 0));
}

#[test]
fn years_of_two_digits(rt: HostRuntime) {
    agree(
        &rt,
        &UtcTime::new(SHORT).utc_datetime(),
        &moment((26, 11, 22), (12, 30, 59)),
    );
    is_adjusted_to(&rt, SHORT, (2026, 11, 22), (12, 30, 59));
    let zero = ASN1DateTime { year: 0, ..SHORT };
    is_adjusted_to(&rt, zero, (2000, 11, 22), (12, 30, 59));
    let late = ASN1DateTime { year: 49, ..SHORT };
    is_adjusted_to(&rt, late, (2049, 11, 22), (12, 30, 59));
    let early = ASN1DateTime { year: 50, ..SHORT };
    is_adjusted_to(&rt, early, (1950, 11, 22), (12, 30, 59));
    let nines = ASN1DateTime { year: 99, ..SHORT };
    is_adjusted_to(&rt, nines, (1999, 11, 22), (12, 30, 59));
    let eve = ASN1DateTime::new(49, 12, 31, 23, 59, 30, None, offset(-1, 0));
    is_adjusted_to(&rt, eve, (2050, 1, 1), (0, 59, 30));
    is_not_adjusted(
        &rt,
        ASN1DateTime {
            year: 9999,
            ..SHORT
        },
    );
    is_not_adjusted(
        &rt,
        ASN1DateTime {
            year: u32::MAX,
            ..SHORT
        },
    );
    agree(
        &rt,
        &GeneralizedTime::new(NOON).utc_datetime(),
        &moment((2026, 11, 22), (12, 30, 59)),
    );
}
