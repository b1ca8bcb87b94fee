//! The elements of a content that a reader hasn't reached yet.

ghost use Rattle.std.specs.Prelude.{◌≡◌, ◌+◌, ◌^◌, ◌<◌, ◌≤◌, ◌∷◌, List, [], length, Some, IfOk, IfSome, IfNone};
ghost use Rattle.asn1_any.specs.declared.cut.Element.{Element as Cut};
ghost use Rattle.asn1_core.specs.Counts.{attempts};
ghost use Rattle.x509_core.specs.Parts.{IsCut, ahead_of};

use asn1_any::{Element, cut_elements_counted, first_element_counted};
use asn1_core::{HeaderCount, OutOfMemory};
use std::alloc::Global;

/// Elements in order. The first three are held inline, since most contents have no more; a vector
/// holds the others.
#[derive(Drop)]
pub(crate) struct Ahead<'a> {
    front: Option<Element<'a>>,
    second: Option<Element<'a>>,
    third: Option<Element<'a>>,
    others: Vec<Element<'a>>,
    at: usize,
}

// At most three elements.
#[inline(always)]
fn few<'a>(
    alloc: Global,
    front: Option<Element<'a>>,
    second: Option<Element<'a>>,
    third: Option<Element<'a>>,
) -> Ahead<'a>
    ensures front { result.front ≡ front.entry }
    ensures second { result.second ≡ second.entry }
    ensures third { result.third ≡ third.entry }
    ensures others { result.others.items ≡ [] }
    ensures at { result.at ≡ 0 }
{
    Ahead {
        front,
        second,
        third,
        others: Vec::new(alloc),
        at: 0,
    }
}

impl<'a> Ahead<'a> {
    /// Cuts a content into its elements. Tries one header for each of them, and one more at octets
    /// that begin none. Takes memory for those after the third.
    ///
    /// # Errors
    ///
    /// Out of memory.
    #[inline(always)]
    #[tactic(auto, unfolding(crate::specs::Parts::ahead_of))]
    pub(crate) fn cut(
        alloc: Global,
        content: &'a [u8],
        count: &mut HeaderCount,
    ) -> Result<Ahead<'a>, OutOfMemory>
        requires { attempts count.old + length content.now < 2 ^ 128 }
        ensures cut { IfOk result (λ ahead. IsCut content.now (ahead_of ahead)) }
        ensures least { IfOk result (λ ahead. attempts count.old + length (ahead_of ahead) ≤ attempts count.new) }
        ensures grows { attempts count.old ≤ attempts count.new }
        ensures most { attempts count.new ≤ attempts count.old + length content.now }
    {
        if content.is_empty() {
            return Ok(few(alloc, None, None, None));
        }
        let Some((tail, front)) = first_element_counted(content, count) else {
            return Ok(few(alloc, None, None, None));
        };
        let Some((tail, second)) = first_element_counted(tail, count) else {
            return Ok(few(alloc, Some(front), None, None));
        };
        let Some((tail, third)) = first_element_counted(tail, count) else {
            return Ok(few(alloc, Some(front), Some(second), None));
        };
        let others = cut_elements_counted(alloc, tail, count)?;
        Ok(Ahead {
            front: Some(front),
            second: Some(second),
            third: Some(third),
            others: others.items,
            at: 0,
        })
    }

    /// The first element, or `None`.
    #[inline(always)]
    #[tactic(auto, unfolding(crate::specs::Parts::ahead_of))]
    pub(crate) fn front(&self) -> Option<Element<'a>>
        ensures some { IfSome result (λ e. (rest : List Cut) × (ahead_of self.now ≡ e ∷ rest)) }
        ensures none { IfNone result (ahead_of self.now ≡ []) }
    {
        if let Some(element) = self.front {
            return Some(element);
        }
        if self.at < self.others.len() {
            return Some(self.others[self.at]);
        }
        None
    }

    /// Drops the first element.
    #[inline(always)]
    #[tactic(auto, unfolding(crate::specs::Parts::ahead_of))]
    pub(crate) fn pass(&mut self)
        ensures { (e : Cut) (rest : List Cut) → ahead_of self.old ≡ e ∷ rest → ahead_of self.new ≡ rest }
    {
        if self.front.is_some() {
            self.front = self.second;
            self.second = self.third;
            self.third = None;
        } else if self.at < self.others.len() {
            self.at += 1;
        }
    }

    /// The number of elements.
    #[tactic(auto, unfolding(crate::specs::Parts::ahead_of))]
    pub(crate) fn len(&self) -> usize
        ensures { result ≡ length (ahead_of self.now) }
    {
        let others = self.others.len().saturating_sub(self.at);
        match (self.front, self.second, self.third) {
            (None, _, _) => others,
            (Some(_), None, _) => 1 + others,
            (Some(_), Some(_), None) => 2 + others,
            (Some(_), Some(_), Some(_)) => 3 + others,
        }
    }
}
