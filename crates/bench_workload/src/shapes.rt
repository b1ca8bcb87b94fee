//! Items of common shapes, copied with numbers of their own.

use crate::failure::Failure;
use asn1_any::Any;
use certcheck::{Bundle, Items};
use std::alloc::{AllocError, Global};
use std::mem;

/// A number that an item shows, in eight hexadecimal digits.
#[derive(Clone, Copy)]
pub(crate) struct Numbers {
    pub subject: u32,
    pub issuer: u32,
    pub serial: u32,
    pub drawn: u32,
}

/// Which of the numbers a field shows.
#[derive(Clone, Copy)]
enum Field {
    Subject,
    Issuer,
    Serial,
    Drawn,
}

/// What stands in `shapes.der` for each field.
const MARKS: [(Field, &[u8]); 4] = [
    (Field::Subject, b"SUBJECT0"),
    (Field::Issuer, b"ISSUER00"),
    (Field::Serial, b"SERIAL00"),
    (Field::Drawn, b"DRAWN000"),
];

const DIGITS: [u8; 16] = *b"0123456789abcdef";

/// Octets as they are, or a number.
#[derive(Drop)]
enum Piece {
    Octets(Vec<u8>),
    Number(Field),
}

/// An item, cut where its numbers stand.
#[derive(Drop)]
pub(crate) struct Shape {
    pieces: Vec<Piece>,
}

/// The eight digits of a number.
fn digits_of(number: u32) -> [u8; 8] {
    let mut digits = [b'0'; 8];
    let mut left = number;
    for digit in digits.iter_mut().rev() {
        *digit = DIGITS[(left % 16) as usize];
        left /= 16;
    }
    digits
}

/// The field whose mark begins the octets.
fn field_at(octets: &[u8]) -> Option<Field> {
    for (field, mark) in MARKS {
        if octets.starts_with(mark) {
            return Some(field);
        }
    }
    None
}

impl Shape {
    fn new(alloc: Global, item: &[u8]) -> Result<Shape, AllocError> {
        let mut pieces = Vec::new(alloc);
        let mut plain = Vec::new(alloc);
        let mut skipped = 0;
        for (place, octet) in item.iter().enumerate() {
            if skipped > 0 {
                skipped -= 1;
                continue;
            }
            match field_at(&item[place..]) {
                Some(field) => {
                    let octets = mem::replace(&mut plain, Vec::new(alloc));
                    pieces.push(Piece::Octets(octets))?;
                    pieces.push(Piece::Number(field))?;
                    skipped = 7;
                }
                None => plain.push(*octet)?,
            }
        }
        pieces.push(Piece::Octets(plain))?;
        Ok(Shape { pieces })
    }

    /// Appends the item with these numbers.
    pub(crate) fn write(&self, out: &mut Vec<u8>, numbers: &Numbers) -> Result<(), AllocError> {
        for piece in &self.pieces {
            match piece {
                Piece::Octets(octets) => out.extend_from_slice(octets)?,
                Piece::Number(Field::Subject) => {
                    out.extend_from_slice(&digits_of(numbers.subject))?;
                }
                Piece::Number(Field::Issuer) => {
                    out.extend_from_slice(&digits_of(numbers.issuer))?;
                }
                Piece::Number(Field::Serial) => {
                    out.extend_from_slice(&digits_of(numbers.serial))?;
                }
                Piece::Number(Field::Drawn) => out.extend_from_slice(&digits_of(numbers.drawn))?,
            }
        }
        Ok(())
    }
}

/// The shapes of `shapes.der`, in its order.
#[derive(Drop)]
pub(crate) struct Shapes {
    /// Leaves: of a web server with an RSA key, of one with an EC key and many names, and of a person.
    pub leaves: Vec<Shape>,
    /// An issuing authority.
    pub authority: Shape,
    /// An anchor, issued by itself.
    pub anchor: Shape,
    /// A small one whose subject and issuer are always the same name.
    pub same: Shape,
    /// A small authority.
    pub link: Shape,
    /// The parts of a revocation list.
    pub list: ListShapes,
}

/// The parts of a revocation list.
#[derive(Drop)]
pub(crate) struct ListShapes {
    /// What stands before the entries.
    pub head: Shape,
    /// An entry, whole.
    pub entry: Shape,
    /// An entry with a reason, whole.
    pub reasoned: Shape,
    /// The extensions behind the entries.
    pub extensions: Shape,
    /// What stands behind the signed part.
    pub signature: Shape,
}

/// The items of octets.
fn items_of(alloc: Global, octets: &[u8]) -> Result<Items, Failure> {
    let mut bundle = Bundle::new(alloc, u32::MAX);
    if bundle.feed(octets).is_err() {
        return Err(Failure::OutOfMemory);
    }
    match bundle.finish() {
        Ok(items) => Ok(items),
        Err(_) => Err(Failure::OutOfMemory),
    }
}

/// The shape of an item.
fn whole(alloc: Global, items: &Items, place: usize) -> Result<Shape, Failure> {
    if place >= items.len() {
        return Err(Failure::Shapes);
    }
    Ok(Shape::new(alloc, items.get(place))?)
}

/// The shape of an item's content.
fn content(alloc: Global, items: &Items, place: usize) -> Result<Shape, Failure> {
    if place >= items.len() {
        return Err(Failure::Shapes);
    }
    match Any::from_der(items.get(place)) {
        Ok((_, element)) => Ok(Shape::new(alloc, element.content)?),
        Err(_) => Err(Failure::Shapes),
    }
}

impl Shapes {
    /// The shapes of the file's octets.
    pub(crate) fn new(alloc: Global, octets: &[u8]) -> Result<Shapes, Failure> {
        let items = items_of(alloc, octets)?;
        let mut leaves = Vec::new(alloc);
        for place in 0..3 {
            leaves
                .push(whole(alloc, &items, place)?)
                .map_err(AllocError::from)?;
        }
        Ok(Shapes {
            leaves,
            authority: whole(alloc, &items, 3)?,
            anchor: whole(alloc, &items, 4)?,
            same: whole(alloc, &items, 5)?,
            link: whole(alloc, &items, 6)?,
            list: list_shapes(alloc, &items)?,
        })
    }

    /// Appends a leaf, of the shape whose turn it is.
    pub(crate) fn write_leaf(
        &self,
        out: &mut Vec<u8>,
        turn: usize,
        numbers: &Numbers,
    ) -> Result<(), AllocError> {
        match self.leaves.get(turn % 3) {
            Some(shape) => shape.write(out, numbers),
            None => Ok(()),
        }
    }
}

/// The parts of a list, behind the certificates.
fn list_shapes(alloc: Global, items: &Items) -> Result<ListShapes, Failure> {
    Ok(ListShapes {
        head: content(alloc, items, 7)?,
        entry: whole(alloc, items, 8)?,
        reasoned: whole(alloc, items, 9)?,
        extensions: content(alloc, items, 10)?,
        signature: content(alloc, items, 11)?,
    })
}
