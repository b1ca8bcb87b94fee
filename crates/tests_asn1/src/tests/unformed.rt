//! Nothing is written of a value that isn't in DER form, by itself or within others, and the refusal names its tag.

use super::same;
use asn1_core::{SerializeError, Tag};
use asn1_device::WriteSink;
use asn1_strings::PrintableString;
use asn1_tagged::{TaggedExplicit, TaggedImplicit};
use asn1_times::{ASN1DateTime, ASN1TimeZone, GeneralizedTime, UtcTime};
use asn1_traits::ToDer;
use asn1_values::{BitString, Boolean, Integer};
use std::alloc::Global;
use std::process::Abort;
use std::test::Fail;

const NOON: ASN1DateTime = ASN1DateTime {
    year: 26,
    month: 11,
    day: 22,
    hour: 12,
    minute: 30,
    second: 59,
    millisecond: None,
    tz: ASN1TimeZone::Z,
};

// Nothing of the value comes to a device or a vector.
fn unwritten<R: Abort, T: ToDer>(rt: &R, alloc: Global, value: &T, tag: Tag) {
    let refusal = SerializeError::ASN1Error(tag.invalid_value("the value is not in DER form"));
    let mut sink = WriteSink::new(Vec::new(alloc));
    same(rt, value.write_der(&mut sink), Err(refusal));
    same(rt, sink.into_inner().len(), 0);
    match value.to_der_vec(alloc) {
        Ok(_) => assert!(rt; false),
        Err(e) => same(rt, e, refusal),
    }
}

#[test]
fn unformed_values(rt: HostRuntime) {
    let alloc = rt.alloc();
    let thousandths = UtcTime::new(ASN1DateTime {
        millisecond: Some(5),
        ..NOON
    });
    unwritten(&rt, alloc, &thousandths, Tag::UtcTime);
    let zoneless = GeneralizedTime::new(ASN1DateTime {
        tz: ASN1TimeZone::Undefined,
        ..NOON
    });
    unwritten(&rt, alloc, &zoneless, Tag::GeneralizedTime);
    unwritten(&rt, alloc, &Integer::new(&[0, 0, 7]), Tag::Integer);
    unwritten(&rt, alloc, &BitString::new(1, &[1]), Tag::BitString);
    unwritten(&rt, alloc, &Boolean::new(1), Tag::Boolean);
    unwritten(
        &rt,
        alloc,
        &PrintableString::new("a*b"),
        Tag::PrintableString,
    );
}

#[test]
fn unformed_values_in_others(rt: HostRuntime) -> Result<(), Fail> {
    let alloc = rt.alloc();
    let mut list = Vec::new(alloc);
    list.push(Integer::new(&[7]))?;
    same(
        &rt,
        list.to_der_vec(alloc)?.as_slice(),
        &[0x30, 3, 2, 1, 7][..],
    );
    list.push(Integer::new(&[0, 7]))?;
    unwritten(&rt, alloc, &list, Tag::Sequence);
    let explicit = TaggedExplicit::<_, (), 3>::explicit(Integer::new(&[0, 7]));
    unwritten(&rt, alloc, &explicit, Tag(3));
    let implicit = TaggedImplicit::<_, (), 3>::implicit(Integer::new(&[0, 7]));
    unwritten(&rt, alloc, &implicit, Tag(3));
    Ok(())
}
