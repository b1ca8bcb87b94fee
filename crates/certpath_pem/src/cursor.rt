//! The entries of a text, one after another.

ghost use Rattle.std.specs.Prelude.{◌+◌, ◌<◌, ◌^◌, length};

use crate::blocks::step;

/// A block of a text (RFC 7468, 2). Label and body are windows of the text.
#[derive(Clone, Copy)]
pub struct Block<'a> {
    /// What its first line calls it: at most 64 octets of printable ASCII, or none. A label that
    /// isn't known may hold anything, a key too: don't print it.
    pub label: &'a [u8],
    /// The number of its first line, from 1.
    pub line: usize,
    /// The octets after its first line, up to the next line with the words of a boundary.
    pub body: &'a [u8],
    /// Whether that line ends it: an END line of its label.
    pub is_ended: bool,
}

/// An entry of the report of a text.
#[derive(Clone, Copy)]
pub enum Entry<'a> {
    /// A block.
    Block(Block<'a>),
    /// The number of an END line, if no block of its label is open.
    StrayEnd(usize),
    /// The number of a line in which `-----BEGIN` or `-----END` is, and which neither begins nor
    /// ends a block.
    BadBoundary(usize),
}

/// The entries of a text that are still to be read. It takes as much memory as four references,
/// however long the text is.
#[derive(Clone, Copy)]
pub struct Cursor<'a> {
    pub(crate) rest: &'a [u8],
    pub(crate) number: usize,
    pub(crate) opened: Option<&'a [u8]>,
    ghost room: { number + length rest.now < 2 ^ 64 },
}

impl<'a> Cursor<'a> {
    ghost use Rattle.std.specs.Prelude.{◌≡◌, ◌∷◌, [], IfNone, IfSome, option_copied};
    ghost use Rattle.certpath_pem.specs.Lines.{lines_of};
    ghost use Rattle.certpath_pem.specs.Blocks.{entries_of, entries_from};
    ghost use Rattle.certpath_pem.specs.Views.{entry_view, entries_left};

    /// The entries of the lines of a rest, the first of which has this number, if a block of
    /// this label is open.
    pub(crate) fn at(rest: &'a [u8], number: usize, opened: Option<&'a [u8]>) -> Cursor<'a>
        requires { number + length rest.now < 2 ^ 64 }
        ensures rest { result.rest.now ≡ rest.now }
        ensures left { entries_left result ≡ entries_from (option_copied opened.entry) number (lines_of rest.now) }
    {
        Cursor {
            rest,
            number,
            opened,
        }
    }

    /// All entries of a text.
    pub fn new(text: &'a [u8]) -> Cursor<'a>
        ensures { entries_left result ≡ entries_of text.now }
    {
        Cursor::at(text, 1, None)
    }

    /// The next entry. Reading a text to its end is one pass over it.
    pub fn next_entry(&mut self) -> Option<Entry<'a>>
        ensures found { IfSome result (λ entry. entries_left self.old ≡ entry_view entry ∷ entries_left self.new) }
        ensures none { IfNone result ((entries_left self.old ≡ []) × (entries_left self.new ≡ [])) }
    {
        while let Some((entry, next)) = step(*self) {
            *self = next;
            if entry.is_some() {
                return entry;
            }
        }
        None
    }
}
