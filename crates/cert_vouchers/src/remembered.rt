//! Vouching by pairs of digests, each text's digest computed once.

ghost use Rattle.std.specs.Prelude.{◌≡◌, IfSome};
ghost use Rattle.std.proofs.Props.{props};
ghost use Rattle.sha2.specs.Sha256.{sha256};

use crate::lookup::{Digests, has_pair, rows_of};
use crate::vouchers::Vouchers;
use cert_graph::tail_of;
use cert_judge::Vouch;
use sha2::{Digest, Sha256};
use std::alloc::{AllocError, Global};
use std::cell::RefCell;
use std::cmp::Ordering;

/// A text, and its digest once that was computed.
#[derive(Drop)]
struct Known<'a> {
    /// What `tail_of` returns of the text.
    tail: u64,
    text: &'a [u8],
    digest: Option<[u8; 32]>,
    /// The place of the text that was asked for after it.
    next: usize,
    ghost right: { IfSome digest (λ d. d ≡ sha256 text.now) } by { Prim.hlevel props },
}

impl<'a> Known<'a> {
    /// The digest of the text, computed the first time.
    fn digest(&mut self) -> [u8; 32]
        ensures { result ≡ sha256 self.old.text.now }
    {
        if let Some(digest) = self.digest {
            return digest;
        }
        let digest = Sha256::digest(self.text);
        *self = Known {
            tail: self.tail,
            text: self.text,
            digest: Some(digest),
            next: self.next,
        };
        digest
    }

    /// The order of the text and another one: that of their tails, which reads neither, and that of
    /// their octets if the tails are equal.
    fn order(&self, tail: u64, text: &[u8]) -> Ordering {
        if self.tail != tail {
            return self.tail.cmp(&tail);
        }
        if self.text == text {
            return Ordering::Equal;
        }
        self.text.cmp(&text)
    }
}

/// Texts that are known, sorted before they are looked up.
#[derive(Drop)]
struct Memory<'a> {
    known: Vec<Known<'a>>,
    /// The tails of the texts, in the order of these, once they are sorted. A search over them
    /// reads less memory than one over the texts.
    tails: Vec<u64>,
    is_sorted: bool,
    /// Where a text was found last.
    last: usize,
}

impl<'a> Memory<'a> {
    fn new(alloc: Global) -> Memory<'a> {
        Memory {
            known: Vec::new(alloc),
            tails: Vec::new(alloc),
            is_sorted: true,
            last: 0,
        }
    }

    /// Returns whether the last one is this text, which has this tail.
    fn ends_with(&self, tail: u64, text: &[u8]) -> bool {
        match self.known.last() {
            Some(known) => known.tail == tail && known.text == text,
            None => false,
        }
    }

    /// One text more, unless it is the last one or memory for it is refused.
    fn add(&mut self, text: &'a [u8]) {
        let tail = tail_of(text);
        if self.ends_with(tail, text) {
            return;
        }
        let known = Known {
            tail,
            text,
            digest: None,
            next: 0,
        };
        if self.known.push(known).is_ok() {
            self.is_sorted = false;
        }
    }

    /// Sorts the texts, unless they are, and keeps one of equal ones.
    fn sort(&mut self) {
        if !self.is_sorted {
            self.known.sort_unstable_by(|a, b| a.order(b.tail, b.text));
            self.known.dedup_by_key(|known| (known.tail, known.text));
            self.list_tails();
            self.is_sorted = true;
        }
    }

    /// Lists the tails of the texts, as many as there is memory for.
    fn list_tails(&mut self) {
        self.tails.clear();
        for known in &self.known {
            if self.tails.push(known.tail).is_err() {
                return;
            }
        }
    }

    /// The digest of a text, if it is the one at a place.
    fn digest_at(&mut self, place: usize, text: &[u8]) -> Option<[u8; 32]>
        ensures { IfSome result (λ d. d ≡ sha256 text.now) }
    {
        let known = self.known.get_mut(place)?;
        if known.text != text {
            return None;
        }
        Some(known.digest())
    }

    /// The place of the text that was asked for after the one at a place.
    fn next_of(&self, place: usize) -> usize {
        match self.known.get(place) {
            Some(known) => known.next,
            None => 0,
        }
    }

    /// Goes on to a place, which is then guessed when the text that was found last is found again.
    fn step_to(&mut self, place: usize) {
        let last = self.last;
        if let Some(known) = self.known.get_mut(last) {
            known.next = place;
        }
        self.last = place;
    }

    /// The digest of a known text, if it is the one that was found last or the one that was
    /// asked for after that.
    fn guess(&mut self, text: &[u8]) -> Option<[u8; 32]>
        ensures { IfSome result (λ d. d ≡ sha256 text.now) }
    {
        let last = self.last;
        if let Some(digest) = self.digest_at(last, text) {
            return Some(digest);
        }
        let next = self.next_of(last);
        let digest = self.digest_at(next, text)?;
        self.last = next;
        Some(digest)
    }

    /// The digest of a known text, by a search over the tails, and over the texts if another one has
    /// its tail.
    fn look_up(&mut self, text: &[u8]) -> Option<[u8; 32]>
        ensures { IfSome result (λ d. d ≡ sha256 text.now) }
    {
        let tail = tail_of(text);
        if let Ok(place) = self.tails.binary_search(&tail) {
            if let Some(digest) = self.digest_at(place, text) {
                self.step_to(place);
                return Some(digest);
            }
        }
        let found = self.known.binary_search_by(|known| known.order(tail, text));
        let place = found.ok()?;
        self.step_to(place);
        self.digest_at(place, text)
    }

    /// The digest of a text. That of one that isn't known is computed, and not kept.
    fn digest_of(&mut self, text: &[u8]) -> [u8; 32]
        ensures { result ≡ sha256 text.now }
    {
        self.sort();
        if let Some(digest) = self.guess(text) {
            return digest;
        }
        match self.look_up(text) {
            Some(digest) => digest,
            None => Sha256::digest(text),
        }
    }
}

/// The digest of a text, by a memory that nothing else reads at the moment.
fn digest_in(memory: &RefCell<Memory<'_>>, text: &[u8]) -> [u8; 32]
    ensures { result ≡ sha256 text.now }
{
    match memory.try_borrow_mut() {
        Ok(mut memory) => memory.digest_of(text),
        Err(_) => Sha256::digest(text),
    }
}

/// Vouchers with a memory: they vouch for what the vouchers do, and hash an expected text at most
/// once, once it is asked for, if all texts are expected before the first question.
///
/// The first question after a text was expected sorts all expected texts. Each question takes as
/// many comparisons of texts as a look-up in a sorted map, and two if it goes over the same items as
/// before, in their order. Texts are compared by their last eight octets, and whole if these are
/// equal. A text that wasn't expected is hashed each time; nothing else depends on which texts were
/// expected. `vouched_by_each` asks by each item's digest if its keys are different, and otherwise
/// for each pair of a key and a chosen item.
#[derive(Drop)]
pub struct RememberedVouchers<'a> {
    vouchers: &'a Vouchers,
    keys: RefCell<Memory<'a>>,
    items: RefCell<Memory<'a>>,
}

impl<'a> RememberedVouchers<'a> {
    /// Vouchers without an expected text.
    pub fn new(alloc: Global, vouchers: &'a Vouchers) -> RememberedVouchers<'a>
        ensures { result.vouchers.now ≡ vouchers.now }
    {
        RememberedVouchers {
            vouchers,
            keys: RefCell::new(Memory::new(alloc)),
            items: RefCell::new(Memory::new(alloc)),
        }
    }

    /// Expects a key element, which may be asked for. It isn't remembered if memory is refused.
    pub fn expect_key(&mut self, key: &'a [u8])
        ensures { self.new.vouchers.now ≡ self.old.vouchers.now }
    {
        self.keys.get_mut().add(key);
    }

    /// Expects an item, which may be asked for. It isn't remembered if memory is refused.
    pub fn expect_item(&mut self, item: &'a [u8])
        ensures { self.new.vouchers.now ≡ self.old.vouchers.now }
    {
        self.items.get_mut().add(item);
    }
}

impl Digests for RememberedVouchers<'_> {
    fn key_digest(&self, key: &[u8]) -> [u8; 32] {
        digest_in(&self.keys, key)
    }

    fn item_digest(&self, item: &[u8]) -> [u8; 32] {
        digest_in(&self.items, item)
    }
}

impl Vouch for RememberedVouchers<'_> {
    ghost use Rattle.cert_judge.specs.Vouching.{vouching_alone};
    ghost use Rattle.cert_vouchers.specs.Vouching.{VouchesBy};

    /// They vouch for what their vouchers vouch for, and process no extension.
    ghost vouches_for = { λ v. vouching_alone (VouchesBy v.vouchers.now.pairs) };

    fn vouches(&self, key: &[u8], item: &[u8]) -> bool {
        has_pair(&self.vouchers.pairs, self, key, item)
    }

    fn processes(&self, _item: &[u8], _identifier: &[u8]) -> bool {
        false
    }

    fn vouched_by_each(
        &self,
        alloc: Global,
        keys: &[&[u8]],
        items: &[&[u8]],
        chosen: &[usize],
    ) -> Result<Vec<Vec<usize>>, AllocError> {
        if let Some(rows) = rows_of(alloc, &self.vouchers.pairs, self, keys, items, chosen)? {
            return Ok(rows);
        }
        let mut rows = Vec::with_capacity(alloc, keys.len())?;
        for key in keys {
            rows.push(self.vouched_by(alloc, key, items, chosen)?)?;
        }
        Ok(rows)
    }
}
