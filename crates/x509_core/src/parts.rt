//! `Parts`, a content that was cut into its elements and is read from its front.

ghost use Rattle.std.specs.Prelude.{◌≡◌, ◌+◌, ◌*◌, ◌^◌, ◌<◌, ◌≤◌, ◌-◌, List, ℕ, length, IfOk, IfErr, IfSome, option_map, Some, Ok};
ghost use Rattle.asn1_core.specs.Counts.{attempts};
ghost use Rattle.asn1_any.specs.CutViews.{HasCountedContent, piece_of};
ghost use Rattle.asn1_any.specs.Cutting.{Piece};
ghost use Rattle.x509_core.specs.Answers.{Gives, Fails};
ghost use Rattle.x509_core.specs.Fronts.{TakesNoMemory};
ghost use Rattle.x509_core.specs.Reading.{piece_at, first_piece};
ghost use Rattle.x509_core.specs.Parts.{Left};

use crate::ahead::Ahead;
use crate::error::X509Error;
use asn1_any::Element;
use asn1_core::{Err as Refusal, Error, HeaderCount, OutOfMemory};
use std::alloc::Global;
use std::marker::Model;

/// The unread octets of a content, cut into elements.
#[derive(Drop)]
pub struct Parts<'a> {
    left: &'a [u8],
    ahead: Ahead<'a>,
}

impl<'a> Model for Parts<'a> {
    ghost use Rattle.std.specs.Prelude.{length};
    ghost use Rattle.x509_core.specs.Parts.{Left, IsCut, ahead_of};

    ghost Value = { Left };

    ghost view = { λ p. record { octets = p.left.now; elements = length (ahead_of p.ahead) } };

    ghost invariant = { λ p. IsCut p.left.now (ahead_of p.ahead) };
}

impl<'a> Parts<'a> {
    /// Cuts a whole content into elements. Tries one header for each of them, and one more at
    /// octets that begin none. Takes memory for more than three.
    ///
    /// # Errors
    ///
    /// Out of memory.
    #[inline(always)]
    pub fn cut(
        alloc: Global,
        content: &'a [u8],
        count: &mut HeaderCount,
    ) -> Result<Parts<'a>, OutOfMemory>
        requires { attempts count.old + length content.now < 2 ^ 128 }
        ensures octets { IfOk result (λ p. p.octets ≡ content.now) }
        ensures least { IfOk result (λ p. attempts count.old + p.elements ≤ attempts count.new) }
        ensures grows { attempts count.old ≤ attempts count.new }
        ensures most { attempts count.new ≤ attempts count.old + length content.now }
    {
        let ahead = Ahead::cut(alloc, content, count)?;
        Ok(Parts {
            left: content,
            ahead,
        })
    }

    /// Takes the element at the front.
    ///
    /// # Errors
    ///
    /// An `Error`, never `Incomplete`, if no element begins there; nothing changes then.
    #[tactic(auto, unfolding(crate::specs::Reading::piece_at))]
    #[inline(always)]
    pub fn next(&mut self) -> Result<Element<'a>, Refusal<X509Error>>
        ensures read { Gives (λ e. (piece_of e, self.new.octets)) result (piece_at self.old.octets) }
        ensures elements { IfOk result (λ _. self.old.elements ≡ self.new.elements + 1) }
        ensures shorter { IfOk result (λ e. length e.octets.now + length self.new.octets ≡ length self.old.octets) }
        ensures ends { length self.new.octets ≤ length self.old.octets }
        ensures content { IfOk result (λ e. length e.any.content.now + 2 ≤ length e.octets.now) }
        ensures counted { IfOk result HasCountedContent }
        ensures stays { IfErr result (λ _. self.new ≡ self.old) }
        ensures memory { IfErr result TakesNoMemory }
    {
        let Some(element) = self.ahead.front() else {
            return Err(Refusal::Error(X509Error::Der(Error::InvalidLength)));
        };
        let (_, left) = self.left.split_at(element.octets.len());
        self.left = left;
        self.ahead.pass();
        Ok(element)
    }

    /// The element at the front, without taking it.
    #[tactic(auto, unfolding(crate::specs::Reading::piece_at))]
    #[inline(always)]
    pub fn first(&self) -> Option<Element<'a>>
        ensures read { option_map piece_of result ≡ first_piece self.now.octets }
        ensures shorter { IfSome result (λ e. length e.octets.now ≤ length self.now.octets) }
        ensures content { IfSome result (λ e. length e.any.content.now + 2 ≤ length e.octets.now) }
        ensures counted { IfSome result HasCountedContent }
        ensures some { IfSome result (λ _. 0 < self.now.elements) }
    {
        match self.ahead.front() {
            Some(element) => Some(element),
            None => None,
        }
    }

    /// Drops the element that `first` returned.
    #[inline(always)]
    pub fn advance(&mut self)
        requires { 0 < self.old.elements }
        ensures read { (e : Piece) → first_piece self.old.octets ≡ Some e → piece_at self.old.octets ≡ Ok (e, self.new.octets) }
        ensures elements { self.old.elements ≡ self.new.elements + 1 }
        ensures ends { length self.new.octets ≤ length self.old.octets }
        ensures shorter { (e : Piece) → first_piece self.old.octets ≡ Some e → length e.octets + length self.new.octets ≡ length self.old.octets }
    {
        let Some(element) = self.ahead.front() else {
            unreachable!();
        };
        let (_, left) = self.left.split_at(element.octets.len());
        self.left = left;
        self.ahead.pass();
    }

    /// The number of elements that are left.
    pub fn elements(&self) -> usize
        ensures { result ≡ self.now.elements }
    {
        self.ahead.len()
    }

    /// The octets that are left.
    pub fn left(&self) -> &'a [u8]
        ensures { result.now ≡ self.now.octets }
    {
        self.left
    }
}
