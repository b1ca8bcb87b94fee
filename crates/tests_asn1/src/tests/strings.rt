//! Which characters each type takes, and the calls of texts that are held. What octets are read as and written stands in the
//! rows of `rows_asn1`.

use super::same;
use asn1_core::Error;
use asn1_strings::charsets::{
    Descriptor, General, Graphic, Ia5, Numeric, Printable, Teletex, Utf8, Videotex, Visible,
};
use asn1_strings::wide_forms::{Utf16, Utf32};
use asn1_strings::{
    BmpString, Ia5String, NumericString, PrintableString, TeletexString, TestValidCharset,
    UniversalString, Utf8String, VisibleString, WideForm,
};
use asn1_traits::ToDer;
use std::convert::AsStr;
use std::process::Abort;
use std::test::Fail;

// The text of one octet is taken exactly where the octet is one of these.
fn takes_exactly<C: TestValidCharset, R: Abort>(rt: &R, octets: &[u8]) {
    for octet in 0..=255u8 {
        assert!(rt;
            C::test_valid_charset(&[octet]).is_ok() == octets.contains(&octet),
            "{octet:02x}"
        );
    }
    same(rt, C::test_valid_charset(&[]), Ok(()));
}

#[test]
fn characters_of_each_type(rt: HostRuntime) {
    takes_exactly::<Numeric, _>(&rt, b" 0123456789");
    takes_exactly::<Printable, _>(
        &rt,
        b" '()+,-./0123456789:=?ABCDEFGHIJKLMNOPQRSTUVWXYZabcdefghijklmnopqrstuvwxyz",
    );
    let mut below = [0u8; 128];
    for i in 0..128u8 {
        below[usize::from(i)] = i;
    }
    takes_exactly::<Visible, _>(&rt, &below[0x20..0x7f]);
    takes_exactly::<Utf8, _>(&rt, &below);
    takes_exactly::<Ia5, _>(&rt, &below);
    takes_exactly::<Teletex, _>(&rt, &below);
    takes_exactly::<Videotex, _>(&rt, &below);
    takes_exactly::<Graphic, _>(&rt, &below);
    takes_exactly::<General, _>(&rt, &below);
    takes_exactly::<Descriptor, _>(&rt, &below);
}

// Text that its type lacks isn't in DER form.
#[test]
fn out_of_form(rt: HostRuntime) {
    same(&rt, PrintableString::new("a*b").in_der_form(), false);
    same(&rt, NumericString::new("1-2").in_der_form(), false);
    same(&rt, VisibleString::new("\x7f").in_der_form(), false);
    same(&rt, Ia5String::new("é").in_der_form(), false);
    same(&rt, TeletexString::new("é").in_der_form(), false);
    same(&rt, Utf8String::new("é").in_der_form(), true);
}

#[test]
fn texts_of_several_octets(rt: HostRuntime) {
    let none = Err(Error::StringInvalidCharset);
    same(&rt, PrintableString::test_valid_charset(b"a*b"), none);
    same(&rt, PrintableString::test_valid_charset(b"a b"), Ok(()));
    same(
        &rt,
        BmpString::test_valid_charset(b"\xd8\x3d\xde\x00"),
        Ok(()),
    );
    same(&rt, BmpString::test_valid_charset(b"\xd8\x3d"), none);
    same(
        &rt,
        UniversalString::test_valid_charset(b"\x00\x10\xff\xff"),
        Ok(()),
    );
    same(
        &rt,
        UniversalString::test_valid_charset(b"\x00\x11\x00\x00"),
        none,
    );
    same(
        &rt,
        Utf16::first_char(b"\x00A\x07"),
        Some(('A', b"\x07".as_slice())),
    );
    same(
        &rt,
        Utf32::octets_of_char('é').as_slice(),
        b"\x00\x00\x00\xe9".as_slice(),
    );
}

#[test]
fn held_text(rt: HostRuntime) -> Result<(), Fail> {
    let string: Ia5String<'_> = "host".into();
    same(&rt, string.as_str(), "host");
    same(&rt, AsStr::as_str(&string), "host");
    same(&rt, string.text, "host");
    same(&rt, string.string(rt.alloc())?.as_str(), "host");
    let copy = string;
    same(&rt, copy == string, true);
    same(&rt, copy == Ia5String::new("hos"), false);
    Ok(())
}

#[test]
fn held_wide_text(rt: HostRuntime) -> Result<(), Fail> {
    let string: BmpString = String::from_str(rt.alloc(), "é€")?.into();
    same(&rt, string.as_str(), "é€");
    same(&rt, AsStr::as_str(&string), "é€");
    same(&rt, string.string(rt.alloc())?.as_str(), "é€");
    let copy = string.clone()?;
    same(&rt, copy == string, true);
    same(&rt, copy.into_string().as_str(), "é€");
    Ok(())
}
