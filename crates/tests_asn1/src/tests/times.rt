//! What rows of octets don't tell: times out of form, and moments. What texts are read as and written stands in the rows of
//! `rows_asn1`.

mod moments;

use super::same;
use asn1_times::{ASN1DateTime, ASN1TimeZone, GeneralizedTime, UtcTime};
use asn1_traits::ToDer;
use std::process::Abort;

const NOON: ASN1DateTime = ASN1DateTime {
    year: 2026,
    month: 11,
    day: 22,
    hour: 12,
    minute: 30,
    second: 59,
    millisecond: None,
    tz: ASN1TimeZone::Z,
};

// The same moment, as a UTCTime has it.
const SHORT: ASN1DateTime = ASN1DateTime { year: 26, ..NOON };

fn offset(hour: i8, minute: i8) -> ASN1TimeZone {
    ASN1TimeZone::Offset(hour, minute)
}

#[test]
fn texts_of_times(rt: HostRuntime) {
    same(
        &rt,
        UtcTime::from_bytes(b"261122123059Z"),
        Ok(UtcTime::new(SHORT)),
    );
    same(&rt, UtcTime::from_bytes(b"").is_err(), true);
    same(
        &rt,
        GeneralizedTime::from_bytes(b"20261122123059Z"),
        Ok(GeneralizedTime::new(NOON)),
    );
    same(&rt, GeneralizedTime::from_bytes(b"").is_err(), true);
}

// In DER form, by the bound alone.
fn in_form<T: ToDer>(value: &T) -> bool {
    value.in_der_form()
}

// A UTCTime of these fields isn't in DER form.
fn is_bad_utc<R: Abort>(rt: &R, time: ASN1DateTime) {
    same(rt, in_form(&UtcTime::new(time)), false);
}

// Nor is a GeneralizedTime.
fn is_bad_generalized<R: Abort>(rt: &R, time: ASN1DateTime) {
    same(rt, in_form(&GeneralizedTime::new(time)), false);
}

#[test]
fn utc_times_out_of_form(rt: HostRuntime) {
    let nines = ASN1DateTime { year: 99, ..SHORT };
    same(&rt, in_form(&UtcTime::new(SHORT)), true);
    same(&rt, in_form(&UtcTime::new(nines)), true);
    is_bad_utc(&rt, ASN1DateTime { year: 100, ..SHORT });
    is_bad_utc(&rt, NOON);
    is_bad_utc(&rt, ASN1DateTime { month: 0, ..SHORT });
    is_bad_utc(
        &rt,
        ASN1DateTime {
            month: 255,
            ..SHORT
        },
    );
    is_bad_utc(
        &rt,
        ASN1DateTime {
            millisecond: Some(5),
            ..SHORT
        },
    );
}

// Nor is one in this zone.
fn is_bad_zone<R: Abort>(rt: &R, tz: ASN1TimeZone) {
    is_bad_utc(rt, ASN1DateTime { tz, ..SHORT });
}

#[test]
fn utc_times_in_zones_out_of_form(rt: HostRuntime) {
    is_bad_zone(&rt, ASN1TimeZone::Undefined);
    is_bad_zone(&rt, offset(-5, -30));
    is_bad_zone(&rt, offset(24, 0));
    is_bad_zone(&rt, offset(-128, 0));
}

#[test]
fn generalized_times_out_of_form(rt: HostRuntime) {
    same(&rt, in_form(&GeneralizedTime::new(NOON)), true);
    is_bad_generalized(
        &rt,
        ASN1DateTime {
            year: 10000,
            ..NOON
        },
    );
    is_bad_generalized(&rt, ASN1DateTime { second: 60, ..NOON });
    is_bad_generalized(
        &rt,
        ASN1DateTime {
            millisecond: Some(0),
            ..NOON
        },
    );
    is_bad_generalized(
        &rt,
        ASN1DateTime {
            millisecond: Some(1000),
            ..NOON
        },
    );
    is_bad_generalized(
        &rt,
        ASN1DateTime {
            tz: offset(0, 0),
            ..NOON
        },
    );
    is_bad_generalized(
        &rt,
        ASN1DateTime {
            tz: ASN1TimeZone::Undefined,
            ..NOON
        },
    );
}
