//! What rows of octets don't tell: levels of choice, made elements, many elements, want of memory. What the readers answer
//! to octets stands in the rows of `rows_asn1`.

use super::same;
use asn1_any::{
    Any, cut_elements, cut_elements_counted, cutting_by_piece, cutting_by_reader, definite_is_ber,
    more_octets, one_ber_element, one_cutting, one_definite_element, strict_is_definite,
};
use asn1_core::{Class, Err, Error, Header, HeaderCount, Length, Needed, OutOfMemory, Tag};
use std::alloc::{AllocError, Global};
use std::test::Fail;

#[test]
fn levels_of_choice(rt: HostRuntime) {
    let octets = b"\x30\x80\x05\x00\x00\x00";
    let too_deep = Err(Err::Error(Error::BerMaxDepth));
    same(&rt, Any::from_ber_recursive(octets, 0), too_deep);
    same(&rt, Any::from_ber_recursive(octets, 1), too_deep);
    same(
        &rt,
        Any::from_ber_recursive(octets, 2),
        Any::from_ber(octets),
    );
    same(
        &rt,
        Any::from_ber_recursive(octets, usize::MAX),
        Any::from_ber(octets),
    );
    // a bad header is told first
    let missing = Err(Err::Incomplete(Needed::Size(1)));
    same(&rt, Any::from_ber_recursive(b"", 0), missing);
    let cut = &octets[..4];
    same(&rt, Any::from_ber_recursive(cut, 2), Any::from_ber(cut));
}

#[test]
fn made_elements(rt: HostRuntime) {
    let made = Any::from_tag_and_data(Tag::Set, b"\x05\x00");
    same(&rt, made.class(), Class::Universal);
    same(&rt, made.header.constructed(), true);
    same(&rt, made.tag(), Tag::Set);
    same(&rt, made.length(), Length::Definite(2));
    same(&rt, made.as_bytes(), b"\x05\x00".as_slice());
    let primitive = Any::from_tag_and_data(Tag::Integer, b"");
    same(&rt, primitive.header.is_primitive(), true);
    // the length plays no part in equality
    let header = Header::new(Class::Universal, true, Tag::Set, Length::Indefinite);
    same(&rt, Any::new(header, b"\x05\x00") == made, true);
    same(&rt, Any::new(header, b"\x05") == made, false);
    let private = header.with_class(Class::Private);
    same(&rt, Any::new(private, b"\x05\x00") == made, false);
}

#[test]
fn counted_elements(rt: HostRuntime) {
    let mut count = HeaderCount::new();
    let octets = b"\x05\x00\x07";
    same(
        &rt,
        Any::from_der_counted(octets, &mut count),
        Any::from_der(octets),
    );
    let cut = b"\x04\x02\x07";
    same(
        &rt,
        Any::from_der_counted(cut, &mut count),
        Any::from_der(cut),
    );
    same(&rt, count.get(), 2);
}

#[test]
fn cut_contents(rt: HostRuntime) -> Result<(), Fail> {
    let cut = cut_elements(rt.alloc(), b"\x02\x01\x01\x02\x01")?;
    same(&rt, cut.items.len(), 1);
    for element in &cut.items {
        same(&rt, element.octets, b"\x02\x01\x01".as_slice());
        same(&rt, element.any.as_bytes(), b"\x01".as_slice());
    }
    same(&rt, cut.tail, b"\x02\x01".as_slice());
    Ok(())
}

// So many empty elements, one behind the other.
fn nulls(alloc: Global, n: usize) -> Result<Vec<u8>, AllocError> {
    let mut octets = Vec::new(alloc);
    for _ in 0..n {
        octets.extend_from_slice(b"\x05\x00")?;
    }
    Ok(octets)
}

#[test]
fn thousands_of_elements_are_cut(rt: HostRuntime) -> Result<(), Fail> {
    let content = nulls(rt.alloc(), 5000)?;
    let mut count = HeaderCount::new();
    let cut = cut_elements_counted(rt.alloc(), content.as_slice(), &mut count)?;
    same(&rt, cut.items.len(), 5000);
    same(&rt, cut.tail.len(), 0);
    same(&rt, count.get(), 5000);
    Ok(())
}

// Either the whole cut or want of memory, whichever growth is refused: to be run with each allocation failing in turn.
#[test]
fn cut_or_want_of_memory(rt: HostRuntime) -> Result<(), Fail> {
    let content = nulls(rt.alloc(), 10)?;
    let mut count = HeaderCount::new();
    match cut_elements_counted(rt.alloc(), content.as_slice(), &mut count) {
        Ok(cut) => {
            same(&rt, cut.items.len(), 10);
            same(&rt, cut.tail.len(), 0);
            same(&rt, count.get(), 10);
        }
        Err(OutOfMemory) => assert!(rt; count.get() <= 10),
    }
    Ok(())
}

#[test]
fn laws_of_elements() {
    one_definite_element();
    one_ber_element();
    strict_is_definite();
    definite_is_ber();
    more_octets();
    one_cutting();
    cutting_by_piece();
    cutting_by_reader();
}
