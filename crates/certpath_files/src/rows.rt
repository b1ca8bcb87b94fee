//! The rows of a report: where something is, what it is, and why it is left out.

ghost use Rattle.std.specs.Prelude.{◌≡◌};
ghost use Rattle.certpath_files.specs.Rows.{at};
ghost use Rattle.certpath_files.specs.RowViews.{place_view, spot_view};

use crate::front::Fault;
use crate::shape::Kind;

/// Where in a file something is.
#[derive(Clone, Copy)]
pub enum Spot<'a> {
    /// The file as a whole.
    File,
    /// What begins at this octet, from 0.
    Octet(usize),
    /// The line of this number, from 1.
    Line(usize),
    /// The block that begins at the line of this number, from 1, and its label, if that is a
    /// known one. Another label may be part of a key, and is never here.
    Block(usize, Option<&'a [u8]>),
}

/// An element of a set of SignedData: of its certificates or of its lists, by its number there,
/// from 0.
#[derive(Clone, Copy)]
pub struct Member {
    pub set: Kind,
    pub number: usize,
}

/// Where something is: a spot, and what of the SignedData there.
#[derive(Clone, Copy)]
pub struct Place<'a> {
    pub spot: Spot<'a>,
    pub member: Option<Member>,
}

/// Why something is left out.
#[derive(Clone, Copy)]
pub enum Reason {
    /// The file has no octet.
    EmptyFile,
    /// The file is neither PEM nor DER.
    NoForm,
    /// The file is a text in UTF-16.
    WideText,
    /// What begins a block, or an element that is passed over, is no item.
    Faulty(Fault),
    /// What begins here is no item, and the so many octets from here on are left out, to the end of
    /// the file or the set.
    ToEnd(Fault, usize),
    /// It has the shape of neither a certificate nor a revocation list, nor is it SignedData if
    /// that is taken.
    NoItem,
    /// So many octets after the item of a block.
    Behind(usize),
    /// No line ends the block.
    NoEnd,
    /// Header lines are in the block.
    WithHeaders,
    /// There is nothing in the block.
    NoOctets,
    /// The lines of the block are no base64.
    NotBase64,
    /// The label is a known one of other things.
    OtherLabel,
    /// The label isn't a known one.
    UnknownLabel,
    /// An END line that ends no block.
    StrayEnd,
    /// A line with a BEGIN or an END that is no line of its own.
    BadBoundary,
    /// A line outside of blocks with octets that are no text.
    NoText,
    /// The block holds no SignedData in DER.
    NoSignedData,
    /// The SignedData holds neither certificates nor lists.
    NoMembers,
}

/// A row of a report.
#[derive(Clone, Copy)]
pub enum Row<'a> {
    /// An item, which has so many octets.
    Item(Place<'a>, Kind, usize),
    /// Something that is left out.
    LeftOut(Place<'a>, Reason),
}

/// The place of a spot itself.
pub(crate) fn at(spot: Spot<'_>) -> Place<'_>
    ensures { place_view result ≡ at (spot_view spot.entry) }
{
    Place { spot, member: None }
}
