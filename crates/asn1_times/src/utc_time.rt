//! UTCTime (X.680, 47; X.690, 11.8).

ghost use Rattle.std.specs.Prelude.{◌≡◌, ◌↔◌, ◌≤◌, IsTrue, IfErr, length};
ghost use Rattle.std.proofs.Common.{lit<};
ghost use Rattle.asn1_traits.specs.Leaves.{ReadsContent};
ghost use Rattle.asn1_times.specs.UtcTimes.{IsUtcTime, UtcMeans, utc_octets};
ghost use Rattle.asn1_times.specs.Refused.{IsInvalidValue};
ghost use Rattle.asn1_times.specs.Readers.{utc_time_at, GivesTime};
ghost use Rattle.asn1_times.specs.UtcLaws.{utc_means, utc_same};

use crate::datetime::ASN1DateTime;
use crate::reading::utc_of;
use crate::writing::{Octets, push_pair, push_time};
use arrayvec::ArrayVec;
use asn1_core::{Class, Error, SerializeResult, Tag};
use asn1_device::Sink;
use asn1_traits::{DerLeaf, FromLeaf, Tagged, write_all};
use std::alloc::Global;

/// A UTCTime (X.680, 47): a date and time with the last two digits of its year, to the second or to
/// the minute.
///
/// One with an offset is in DER form and is written with that offset, as `from_der` accepts it,
/// though X.690, 11.8.1 requires `Z`. To write for readers that demand it, take the moment that
/// `utc_adjusted_datetime` returns, and write its fields with `ASN1TimeZone::Z` and the year modulo
/// 100.
#[derive(Clone, Copy, Debug, PartialEq, Eq, PartialOrd, Ord)]
pub struct UtcTime(pub ASN1DateTime);

impl UtcTime {
    /// Returns the UTCTime of these fields. It is in DER form if the year is below 100, the month
    /// from 1 to 12, the day from 1 to 31, the time of day from 00:00:00 to 23:59:59, there is no
    /// fraction, and the zone is `Z` or an offset in range.
    pub fn new(datetime: ASN1DateTime) -> UtcTime
        ensures { result.0 ≡ datetime }
    {
        UtcTime(datetime)
    }

    /// Reads a UTCTime from its content octets, to their end (X.680, 47.3), as `250102030405Z`. The
    /// form is YYMMDDHHMM, SS or nothing, and `Z` or an offset +hhmm or -hhmm.
    ///
    /// Seconds that aren't given are 0. Each field is in range; whether the month has the day isn't
    /// checked. It takes no memory. Other octets are `InvalidValue`.
    pub fn from_bytes(octets: &[u8]) -> Result<UtcTime, Error>
        ensures value { ReadsContent ⊥ (λ content v. UtcMeans content v.0) octets.now result }
        ensures refused { IfErr result (IsInvalidValue 23) }
        ensures exact { GivesTime (λ v. v.0) 23 result (utc_time_at octets.now) }
    {
        let Some(time) = utc_of(octets) else {
            return Err(Error::InvalidValue {
                tag: Self::TAG,
                msg: "malformed time string",
            });
        };
        if !is_utc_time(&time) {
            return Err(Error::InvalidValue {
                tag: Self::TAG,
                msg: "time components with invalid values",
            });
        }
        Ok(UtcTime(time))
    }
}

impl Tagged for UtcTime {
    const TAG: Tag = Tag::UtcTime;

    ghost tag_number = { 23 };

    fn own_class() -> Class {
        Class::Universal
    }

    fn own_tag() -> Tag {
        Self::TAG
    }
}

impl DerLeaf for UtcTime {
    ghost content_means = { λ content v. UtcMeans content v.0 };

    ghost content_allowed = { λ _. Unit {0} };

    ghost leaf_form = { λ v. IsUtcTime v.0 };

    ghost content = { λ v. utc_octets v.0 };

    ghost low = { lit< tt };

    ghost fits = { λ v form. (tt, utc_means v.0 form) };

    ghost same = { λ v w form read. utc_same v.0 w.0 form read };

    fn check_content(_octets: &[u8]) -> Result<(), Error> {
        Ok(())
    }

    fn leaf_in_form(&self) -> bool {
        is_utc_time(&self.0)
    }

    fn leaf_len(&self) -> SerializeResult<usize> {
        Ok(octets_of(&self.0).len())
    }

    fn write_leaf<S: Sink>(&self, writer: &mut S) -> SerializeResult<usize> {
        write_all(writer, octets_of(&self.0).as_slice())
    }
}

impl<'a> FromLeaf<'a> for UtcTime {
    fn from_content(_alloc: Global, octets: &'a [u8]) -> Result<UtcTime, Error>
        ensures value { ReadsContent ⊥ (λ content v. UtcMeans content v.0) octets.now result }
        ensures refused { IfErr result (IsInvalidValue 23) }
        ensures exact { GivesTime (λ v. v.0) 23 result (utc_time_at octets.now) }
    {
        UtcTime::from_bytes(octets)
    }
}

// Whether a UTCTime can have the fields.
fn is_utc_time(time: &ASN1DateTime) -> bool
    ensures { IsTrue result ↔ IsUtcTime time.now }
{
    time.year < 100 && time.is_clock() && time.millisecond.is_none() && time.tz.is_told()
}

// The content octets that are written.
fn octets_of(time: &ASN1DateTime) -> Octets
    ensures { result.items ≡ utc_octets time.now }
{
    let mut out = ArrayVec::new();
    push_pair(&mut out, time.year);
    push_time(&mut out, time);
    out
}
