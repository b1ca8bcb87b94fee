//! GeneralizedTime (X.680, 46; X.690, 11.7).

ghost use Rattle.std.specs.Prelude.{◌≡◌, ◌↔◌, ◌≤◌, IsTrue, IfErr, length};
ghost use Rattle.std.proofs.Common.{lit<};
ghost use Rattle.asn1_traits.specs.Leaves.{ReadsContent, ChecksContent};
ghost use Rattle.asn1_times.specs.Fields.{IsFraction};
ghost use Rattle.asn1_times.specs.GeneralizedTimes.{HasFields, IsGeneralizedTime, HasSecondsAndZ, GeneralizedMeans, generalized_octets};
ghost use Rattle.asn1_times.specs.Refused.{IsInvalidValue};
ghost use Rattle.asn1_times.specs.Readers.{generalized_time_at, der_check, GivesTime};
ghost use Rattle.asn1_times.specs.GeneralizedLaws.{generalized_fits, generalized_same};

use crate::datetime::{ASN1DateTime, ASN1TimeZone};
use crate::reading::generalized_of;
use crate::writing::{Octets, push_pair, push_time};
use arrayvec::ArrayVec;
use asn1_core::{Class, DerConstraint, Error, SerializeResult, Tag};
use asn1_device::Sink;
use asn1_traits::{DerLeaf, FromLeaf, Tagged, write_all};
use std::alloc::Global;

/// A GeneralizedTime (X.680, 46): a date and time with its whole year, to the minute, the second or
/// the thousandth of one.
#[derive(Clone, Copy, Debug, PartialEq, Eq, PartialOrd, Ord)]
pub struct GeneralizedTime(pub ASN1DateTime);

impl GeneralizedTime {
    /// Returns the GeneralizedTime of these fields. It is in DER form if the year is below 10000,
    /// the month from 1 to 12, the day from 1 to 31, the time of day from 00:00:00 to 23:59:59, the
    /// fraction absent or from 1 to 999 thousandths, and the zone `Z` (X.690, 11.7).
    pub fn new(datetime: ASN1DateTime) -> GeneralizedTime
        ensures { result.0 ≡ datetime }
    {
        GeneralizedTime(datetime)
    }

    /// Reads a GeneralizedTime from its content octets, to their end, by the rules of BER
    /// (X.680, 46.3), as `20250102030405Z`. The form is YYYYMMDDHHMM; then nothing, or SS, which a
    /// point and one to three digits may follow, the last not 0; then `Z`, an offset +hhmm or
    /// -hhmm, or nothing.
    ///
    /// Seconds that aren't given are 0. Each field is in range; whether the month has the day isn't
    /// checked. It takes no memory. Other octets are `InvalidValue`.
    pub fn from_bytes(octets: &[u8]) -> Result<GeneralizedTime, Error>
        ensures value { ReadsContent ⊥ (λ content v. GeneralizedMeans content v.0) octets.now result }
        ensures refused { IfErr result (IsInvalidValue 24) }
        ensures exact { GivesTime (λ v. v.0) 24 result (generalized_time_at octets.now) }
    {
        let Some(time) = generalized_of(octets) else {
            return Err(Error::InvalidValue {
                tag: Self::TAG,
                msg: "malformed time string",
            });
        };
        if !has_fields(&time) {
            return Err(Error::InvalidValue {
                tag: Self::TAG,
                msg: "time components with invalid values",
            });
        }
        Ok(GeneralizedTime(time))
    }
}

impl Tagged for GeneralizedTime {
    const TAG: Tag = Tag::GeneralizedTime;

    ghost tag_number = { 24 };

    fn own_class() -> Class {
        Class::Universal
    }

    fn own_tag() -> Tag {
        Self::TAG
    }
}

impl DerLeaf for GeneralizedTime {
    ghost content_means = { λ content v. GeneralizedMeans content v.0 };

    ghost content_allowed = { HasSecondsAndZ };

    ghost leaf_form = { λ v. IsGeneralizedTime v.0 };

    ghost content = { λ v. generalized_octets v.0 };

    ghost low = { lit< tt };

    ghost fits = { λ v form. generalized_fits v.0 form };

    ghost same = { λ v w form read. generalized_same v.0 w.0 form read };

    fn check_content(octets: &[u8]) -> Result<(), Error>
        ensures allowed { ChecksContent HasSecondsAndZ octets.now result }
        ensures exact { result ≡ der_check octets.now }
    {
        match octets.split_last() {
            Some((end, front)) if *end == b'Z' => {
                if front.len() >= 14 {
                    Ok(())
                } else {
                    Err(Error::DerConstraintFailed(DerConstraint::MissingSeconds))
                }
            }
            _ => Err(Error::DerConstraintFailed(DerConstraint::MissingTimeZone)),
        }
    }

    fn leaf_in_form(&self) -> bool {
        is_generalized_time(&self.0)
    }

    fn leaf_len(&self) -> SerializeResult<usize> {
        Ok(octets_of(&self.0).len())
    }

    fn write_leaf<S: Sink>(&self, writer: &mut S) -> SerializeResult<usize> {
        write_all(writer, octets_of(&self.0).as_slice())
    }
}

impl<'a> FromLeaf<'a> for GeneralizedTime {
    fn from_content(_alloc: Global, octets: &'a [u8]) -> Result<GeneralizedTime, Error>
        ensures value { ReadsContent ⊥ (λ content v. GeneralizedMeans content v.0) octets.now result }
        ensures refused { IfErr result (IsInvalidValue 24) }
        ensures exact { GivesTime (λ v. v.0) 24 result (generalized_time_at octets.now) }
    {
        GeneralizedTime::from_bytes(octets)
    }
}

// Whether a GeneralizedTime can have the fields.
fn has_fields(time: &ASN1DateTime) -> bool
    ensures { IsTrue result ↔ HasFields time.now }
{
    time.year < 10000 && time.is_clock() && is_fraction(time.millisecond) && time.tz.is_in_range()
}

// Whether a GeneralizedTime of DER can have the fields.
fn is_generalized_time(time: &ASN1DateTime) -> bool
    ensures { IsTrue result ↔ IsGeneralizedTime time.now }
{
    has_fields(time) && matches!(time.tz, ASN1TimeZone::Z)
}

// Whether a fraction is none, or more than 0 and less than a second.
fn is_fraction(millisecond: Option<u16>) -> bool
    ensures { IsTrue result ↔ IsFraction millisecond }
{
    match millisecond {
        None => true,
        Some(number) => 1 <= number && number <= 999,
    }
}

// The content octets that are written.
fn octets_of(time: &ASN1DateTime) -> Octets
    ensures { result.items ≡ generalized_octets time.now }
{
    let mut out = ArrayVec::new();
    push_pair(&mut out, time.year / 100);
    push_pair(&mut out, time.year);
    push_time(&mut out, time);
    out
}
