//! The parts of an encoding. Each part returns how many octets it has, writes them, and finds them
//! at the end of others.
ghost use Rattle.std.specs.Prelude.{◌≡◌, ◌≢◌, ◌<◌, ◌^◌, ℕ, List, [], ◌∷◌, ◌++◌, length, MatchOption};
ghost use Rattle.std.specs.List.{flat_map};
ghost use Rattle.asn1_core.specs.Strict.{strict_header};
ghost use Rattle.asn1_core.specs.Elements.{element_octets};
ghost use Rattle.asn1_core.specs.Views.{class_number};
ghost use Rattle.cert_model.specs.Octets.{optional_octets, primitive_octets, sequence_octets, set_octets, explicit_octets};
ghost use Rattle.certpath_rebuild.specs.Puts.{Sized, Puts};

use asn1_core::{Class, Header, HeaderOctets, Length, Tag};
use asn1_device::{DeviceFault, Sink, write_octets};

/// A part of an encoding.
pub(crate) trait Encode {
    /// The octets.
    ghost octets: { Self → List ℕ };

    /// Returns how many octets there are; `None` if the number passes `usize`.
    fn size(&self) -> Option<usize>
        ensures { Sized (octets self.now) result };

    /// Writes the octets. If a write fails, some octets from the front were written.
    fn put<S: Sink>(&self, writer: &mut S) -> Result<(), DeviceFault>
        requires { length (octets self.now) < 2 ^ 64 }
        ensures octets { Puts (S.contents writer.old) (S.contents writer.new) (S.failures writer.old) (S.failures writer.new) (octets self.now) result }
        ensures flushes { S.flushes writer.new ≡ S.flushes writer.old };

    /// Returns what is before the octets, if `whole` ends with them; else `None`. Each part is met
    /// once, the last one first, and none is counted in advance: the octets that were found say how
    /// long a content is.
    fn before<'w>(&self, whole: &'w [u8]) -> Option<&'w [u8]>
        ensures { MatchOption result ((front : List ℕ) → whole.now ≢ front ++ octets self.now)
            (λ front. whole.now ≡ front.now ++ octets self.now) };
}

// What is before the octets if `whole` ends with them.
fn before_octets<'w>(octets: &[u8], whole: &'w [u8]) -> Option<&'w [u8]>
    ensures { MatchOption result ((front : List ℕ) → whole.now ≢ front ++ octets.now)
        (λ front. whole.now ≡ front.now ++ octets.now) }
{
    whole.strip_suffix(octets)
}

/// Octets as they are.
#[derive(Clone, Copy)]
pub(crate) struct Octets<'a>(pub &'a [u8]);

impl<'a> Encode for Octets<'a> {
    ghost octets = { λ o. o.0.now };

    fn size(&self) -> Option<usize> {
        Some(self.0.len())
    }

    fn put<S: Sink>(&self, writer: &mut S) -> Result<(), DeviceFault> {
        write_octets(writer, self.0)
    }

    fn before<'w>(&self, whole: &'w [u8]) -> Option<&'w [u8]> {
        before_octets(self.0, whole)
    }
}

/// An array of octets.
impl<const N: usize> Encode for [u8; N] {
    ghost octets = { λ a. a };

    fn size(&self) -> Option<usize> {
        Some(N)
    }

    fn put<S: Sink>(&self, writer: &mut S) -> Result<(), DeviceFault> {
        write_octets(writer, self)
    }

    fn before<'w>(&self, whole: &'w [u8]) -> Option<&'w [u8]> {
        before_octets(self, whole)
    }
}

/// One octet.
#[derive(Clone, Copy)]
pub(crate) struct Octet(pub u8);

impl Encode for Octet {
    ghost octets = { λ o. o.0 ∷ [] };

    fn size(&self) -> Option<usize> {
        Some(1)
    }

    fn put<S: Sink>(&self, writer: &mut S) -> Result<(), DeviceFault> {
        write_octets(writer, &[self.0])
    }

    fn before<'w>(&self, whole: &'w [u8]) -> Option<&'w [u8]> {
        match whole.split_last() {
            Some((last, front)) => { if *last == self.0 { Some(front) } else { None } }
            None => None,
        }
    }
}

/// No octets.
#[derive(Clone, Copy)]
pub(crate) struct Nothing;

impl Encode for Nothing {
    ghost octets = { λ _. [] };

    fn size(&self) -> Option<usize> {
        Some(0)
    }

    fn put<S: Sink>(&self, _writer: &mut S) -> Result<(), DeviceFault> {
        Ok(())
    }

    fn before<'w>(&self, whole: &'w [u8]) -> Option<&'w [u8]> {
        Some(whole)
    }
}

/// One part after another.
#[derive(Drop)]
pub(crate) struct Both<A, B>(pub A, pub B);

impl<A: Encode, B: Encode> Encode for Both<A, B> {
    ghost octets = { λ b. A.octets b.0 ++ B.octets b.1 };

    fn size(&self) -> Option<usize> {
        let first = self.0.size()?;
        let second = self.1.size()?;
        first.checked_add(second)
    }

    fn put<S: Sink>(&self, writer: &mut S) -> Result<(), DeviceFault> {
        self.0.put(writer)?;
        self.1.put(writer)
    }

    fn before<'w>(&self, whole: &'w [u8]) -> Option<&'w [u8]> {
        let front = self.1.before(whole)?;
        self.0.before(front)
    }
}

/// A part that may be absent.
impl<A: Encode> Encode for Option<A> {
    ghost octets = { λ o. optional_octets A.octets o };

    fn size(&self) -> Option<usize> {
        match self {
            Some(part) => part.size(),
            None => Some(0),
        }
    }

    fn put<S: Sink>(&self, writer: &mut S) -> Result<(), DeviceFault> {
        match self {
            Some(part) => part.put(writer),
            None => Ok(()),
        }
    }

    fn before<'w>(&self, whole: &'w [u8]) -> Option<&'w [u8]> {
        match self {
            Some(part) => part.before(whole),
            None => Some(whole),
        }
    }
}

/// An element around its content: a strict header, and the content's octets (X.690, 8.1 and 10.1).
#[derive(Drop)]
pub(crate) struct Element<C> {
    pub class: Class,
    /// Whether the element is constructed.
    pub constructed: bool,
    pub tag: Tag,
    pub content: C,
}

/// Returns a primitive element of the universal class.
pub(crate) fn primitive<C: Encode>(tag: Tag, content: C) -> Element<C>
    ensures { ⟦<Element<C> as Encode>⟧.octets result ≡ primitive_octets tag.0 (C.octets content) }
{
    Element {
        class: Class::Universal,
        constructed: false,
        tag,
        content,
    }
}

/// Returns a SEQUENCE (X.690, 8.9).
pub(crate) fn sequence<C: Encode>(content: C) -> Element<C>
    ensures { ⟦<Element<C> as Encode>⟧.octets result ≡ sequence_octets (C.octets content) }
{
    Element {
        class: Class::Universal,
        constructed: true,
        tag: Tag::Sequence,
        content,
    }
}

/// Returns a SET OF (X.690, 8.11).
pub(crate) fn set<C: Encode>(content: C) -> Element<C>
    ensures { ⟦<Element<C> as Encode>⟧.octets result ≡ set_octets (C.octets content) }
{
    Element {
        class: Class::Universal,
        constructed: true,
        tag: Tag::Set,
        content,
    }
}

/// Returns `[n] EXPLICIT` (X.690, 8.14).
pub(crate) fn explicit<C: Encode>(tag: u32, content: C) -> Element<C>
    ensures { ⟦<Element<C> as Encode>⟧.octets result ≡ explicit_octets tag (C.octets content) }
{
    Element {
        class: Class::ContextSpecific,
        constructed: true,
        tag: Tag(tag),
        content,
    }
}

impl<C> Element<C> {
    // The strict header before so many content octets.
    fn header(&self, size: usize) -> HeaderOctets
        ensures { result ≡ strict_header (record { class = class_number self.now.class; constructed = self.now.constructed; tag = self.now.tag.0; size = size }) }
    {
        let header = Header::new(
            self.class,
            self.constructed,
            self.tag,
            Length::Definite(size),
        );
        match header.strict_octets() {
            Some(octets) => octets,
            None => unreachable!(),
        }
    }

    // What is before the strict header of so many content octets if `whole` ends with it. A
    // header of two octets is compared without a buffer (X.690, 8.1.2.2 and 8.1.3.4).
    fn before_header<'w>(&self, size: usize, whole: &'w [u8]) -> Option<&'w [u8]>
        ensures { let header = strict_header (record { class = class_number self.now.class; constructed = self.now.constructed; tag = self.now.tag.0; size = size }) in
            MatchOption result ((front : List ℕ) → whole.now ≢ front ++ header) (λ front. whole.now ≡ front.now ++ header) }
    {
        if self.tag.0 < 31 && size < 128 {
            let bit = if self.constructed { 32 } else { 0 };
            let lead = 64 * (self.class as u8) + bit + self.tag.0 as u8;
            Both(Octet(lead), Octet(size as u8)).before(whole)
        } else {
            before_octets(self.header(size).as_slice(), whole)
        }
    }
}

impl<C: Encode> Encode for Element<C> {
    ghost octets = { λ e. element_octets (record { class = class_number e.class; constructed = e.constructed; tag = e.tag.0; content = C.octets e.content }) };

    fn size(&self) -> Option<usize> {
        let content = self.content.size()?;
        self.header(content).as_slice().len().checked_add(content)
    }

    fn put<S: Sink>(&self, writer: &mut S) -> Result<(), DeviceFault> {
        match self.content.size() {
            Some(content) => {
                write_octets(writer, self.header(content).as_slice())?;
                self.content.put(writer)
            }
            None => unreachable!(),
        }
    }

    fn before<'w>(&self, whole: &'w [u8]) -> Option<&'w [u8]> {
        let front = self.content.before(whole)?;
        self.before_header(whole.len() - front.len(), front)
    }
}

/// Parts of one type, one after another.
#[derive(Clone, Copy)]
pub(crate) struct Each<'a, A>(pub &'a [A]);

impl<'a, A: Encode> Encode for Each<'a, A> {
    ghost octets = { λ e. flat_map A.octets e.0.now };

    fn size(&self) -> Option<usize> {
        let mut total = 0usize;
        let mut rest = self.0;
        while let Some((part, after)) = rest.split_first() {
            total = total.checked_add(part.size()?)?;
            rest = after;
        }
        Some(total)
    }

    fn put<S: Sink>(&self, writer: &mut S) -> Result<(), DeviceFault> {
        let mut rest = self.0;
        while let Some((part, after)) = rest.split_first() {
            part.put(writer)?;
            rest = after;
        }
        Ok(())
    }

    fn before<'w>(&self, whole: &'w [u8]) -> Option<&'w [u8]> {
        let mut front = whole;
        let mut rest = self.0;
        while let Some((part, ahead)) = rest.split_last() {
            front = part.before(front)?;
            rest = ahead;
        }
        Some(front)
    }
}
