//! A nameConstraints: the names that certificates below the subject may have (RFC 5280, 4.2.1.10).

ghost use Rattle.std.specs.Prelude.{◌≡◌, ◌<◌, ℕ, List, length, All, IfOk, IfErr, IfSome};
ghost use Rattle.asn1_any.specs.CutViews.{piece_of};
ghost use Rattle.asn1_any.specs.Views.{any_of};
ghost use Rattle.asn1_traits.specs.Elements.{EndsWithinElement};
ghost use Rattle.asn1_traits.specs.Reads.{Reads};
ghost use Rattle.x509_core.specs.Answers.{Gives, ElseMemory};
ghost use Rattle.x509_core.specs.Errors.{told};
ghost use Rattle.x509_core.specs.Fronts.{TakesNoMemory, TellsMissing, one_rest};
ghost use Rattle.std.specs.Prelude.{map, option_map, Ok};
ghost use Rattle.x509_core.specs.Grammar.{Holds};
ghost use Rattle.x509_items.specs.Reading.{maybe_of};
ghost use Rattle.x509_ext_names.specs.Extensions as grammar;
ghost use Rattle.x509_ext_names.specs.Reading.{subtree_in, subtree_at, subtrees_at, subtrees_in, name_constraints_parts_at, name_constraints_in, name_constraints_at};
ghost use Rattle.x509_ext_names.specs.Values as values;
ghost use Rattle.x509_ext_names.specs.View.{HasCountedSubtrees, IsCountedSubtree, subtree_view, name_constraints_view};

use crate::general_name::{GeneralName, general_name_at_front};
use asn1_any::Element;
use asn1_core::{Err as Refusal, Error, HeaderCount, OutOfMemory};
use asn1_traits::{DerMeaning, FromDer};
use std::alloc::Global;
use x509_core::{X509Error, X509Result, front_element};
use x509_items::{Begins, Copies, content_of, copy_some, optional, some, taken, told_front};

/// A subtree: a name and all names below it.
#[derive(Debug, Drop, PartialEq, Eq)]
pub struct GeneralSubtree<'a> {
    /// The name at the root of the subtree.
    pub base: GeneralName<'a>,
}

/// A nameConstraints: the names that certificates below the subject may have (RFC 5280, 4.2.1.10).
#[derive(Debug, Drop, PartialEq, Eq)]
pub struct NameConstraints<'a> {
    /// The subtrees that names must lie in, or `None` if there is no such list.
    pub permitted_subtrees: Option<Vec<GeneralSubtree<'a>>>,
    /// The subtrees that names must not lie in, or `None` if there is no such list.
    pub excluded_subtrees: Option<Vec<GeneralSubtree<'a>>>,
}

impl<'a> GeneralSubtree<'a> {
    /// A copy that borrows the same octets as the name.
    ///
    /// # Errors
    ///
    /// Out of memory, for the copied vectors.
    pub fn clone(&self, alloc: Global) -> Result<GeneralSubtree<'a>, OutOfMemory>
        ensures { IfOk result (λ copy. subtree_view copy ≡ subtree_view self.now) }
    {
        let base = self.base.clone(alloc)?;
        Ok(GeneralSubtree { base })
    }
}

impl<'a> Copies for GeneralSubtree<'a> {
    ghost use Rattle.x509_ext_names.specs.Values as values;
    ghost use Rattle.x509_ext_names.specs.View.{subtree_view};

    ghost Value = { values.GeneralName };

    ghost value = { subtree_view };

    fn copy(&self, alloc: Global) -> Result<GeneralSubtree<'a>, OutOfMemory> {
        self.clone(alloc)
    }
}

impl<'a> NameConstraints<'a> {
    /// A copy that borrows the same octets as the names.
    ///
    /// # Errors
    ///
    /// Out of memory.
    pub fn clone(&self, alloc: Global) -> Result<NameConstraints<'a>, OutOfMemory>
        ensures { IfOk result (λ copy. name_constraints_view copy ≡ name_constraints_view self.now) }
    {
        let permitted_subtrees = copy_some(alloc, &self.permitted_subtrees)?;
        let excluded_subtrees = copy_some(alloc, &self.excluded_subtrees)?;
        Ok(NameConstraints {
            permitted_subtrees,
            excluded_subtrees,
        })
    }
}

// A subtree at the front; what comes after its base is ignored.
fn subtree_at_front<'a>(alloc: Global, i: &'a [u8]) -> X509Result<'a, GeneralSubtree<'a>>
    ensures exact { Gives (λ r. (subtree_view r.1, r.0.now)) result (subtree_at i.now) }
    ensures counted { IfOk result (λ r. IsCountedSubtree r.1) }
    ensures shorter { IfOk result (λ r. length r.0.now < length i.now) }
{
    let mut count = HeaderCount::new();
    let (rest, element) = front_element(i, &mut count)?;
    let content = content_of(16, element.any)?;
    let (_, base) = general_name_at_front(alloc, content)?;
    Ok((rest, GeneralSubtree { base }))
}

impl<'a> Begins<'a> for GeneralSubtree<'a> {
    ghost use Rattle.x509_ext_names.specs.Reading.{subtree_at};
    ghost use Rattle.x509_ext_names.specs.Values as values;
    ghost use Rattle.x509_ext_names.specs.View.{IsCountedSubtree, subtree_view};

    ghost Data = { values.GeneralName };

    ghost stands_for = { subtree_view };

    ghost reader = { subtree_at };

    ghost IsCounted = { IsCountedSubtree };

    fn begin(
        alloc: Global,
        i: &'a [u8],
    ) -> Result<Option<(&'a [u8], GeneralSubtree<'a>)>, OutOfMemory> {
        taken(subtree_at_front(alloc, i))
    }
}

// Subtrees to the end of the octets.
fn subtrees_of<'a>(
    alloc: Global,
    content: &'a [u8],
) -> Result<Vec<GeneralSubtree<'a>>, Refusal<X509Error>>
    ensures read { Gives (λ v. map subtree_view v.items) result (subtrees_in content.now) }
    ensures counted { IfOk result (λ v. All IsCountedSubtree v.items) }
{
    let (rest, subtrees) = told_front(some(alloc, content))?;
    if rest.is_empty() {
        Ok(subtrees)
    } else {
        Err(Refusal::Error(X509Error::Der(Error::InvalidLength)))
    }
}

fn subtrees_at_front<'a>(
    alloc: Global,
    tag: u32,
    i: &'a [u8],
) -> X509Result<'a, Vec<GeneralSubtree<'a>>>
    ensures read { Gives (λ r. (map subtree_view r.1.items, r.0.now)) result (subtrees_at tag i.now) }
    ensures counted { IfOk result (λ r. All IsCountedSubtree r.1.items) }
{
    let mut count = HeaderCount::new();
    let (rest, element) = front_element(i, &mut count)?;
    let content = content_of(tag, element.any)?;
    let subtrees = subtrees_of(alloc, content)?;
    Ok((rest, subtrees))
}

// Subtrees under this tag number, or none.
fn next_subtrees<'a>(
    alloc: Global,
    tag: u32,
    i: &'a [u8],
) -> X509Result<'a, Option<Vec<GeneralSubtree<'a>>>>
    ensures read { Gives (λ r. (option_map (λ v. map subtree_view v.items) r.1, r.0.now)) result (Ok (maybe_of (subtrees_at tag) i.now)) }
    ensures counted { IfOk result (λ r. IfSome r.1 (λ v. All IsCountedSubtree v.items)) }
{
    optional(i, subtrees_at_front(alloc, tag, i))
}

#[tactic(auto, unfolding(crate::specs::Reading::name_constraints_parts_at))]
fn constraints_parts<'a>(alloc: Global, i: &'a [u8]) -> X509Result<'a, NameConstraints<'a>>
    ensures read { Gives (λ r. (name_constraints_view r.1, r.0.now)) result (name_constraints_parts_at i.now) }
    ensures counted { IfOk result (λ r. HasCountedSubtrees r.1) }
{
    let (i, permitted_subtrees) = next_subtrees(alloc, 0, i)?;
    let (i, excluded_subtrees) = next_subtrees(alloc, 1, i)?;
    Ok((
        i,
        NameConstraints {
            permitted_subtrees,
            excluded_subtrees,
        },
    ))
}

fn constraints_of<'a>(
    alloc: Global,
    element: Element<'a>,
) -> Result<NameConstraints<'a>, Refusal<X509Error>>
    ensures read { Gives name_constraints_view result (name_constraints_in (piece_of element.entry)) }
    ensures counted { IfOk result HasCountedSubtrees }
{
    let content = content_of(16, element.any)?;
    let (_, constraints) = constraints_parts(alloc, content)?;
    Ok(constraints)
}

impl<'b> DerMeaning for NameConstraints<'b> {
    ghost der_reads = { λ i v r. grammar.NameConstraints i (name_constraints_view v) r };

    ghost der_cut = { EndsWithinElement };

    ghost der_grows = { Unit {0} };

    ghost one_rest = { λ i v w r s left right. one_rest (Holds 16 grammar.NameConstraintsParts) i (name_constraints_view v) (name_constraints_view w) r s left right };
}

impl<'a> FromDer<'a, X509Error> for NameConstraints<'a> {
    /// Reads one nameConstraints from the front of `bytes`. Returns `(rest, constraints)`.
    /// Malformed subtrees count as absent: use the strict readers to judge a path.
    ///
    /// # Errors
    ///
    /// `Incomplete` if `bytes` ends inside the element; an `Error` if it isn't a SEQUENCE; out of
    /// memory.
    fn from_der(alloc: Global, bytes: &'a [u8]) -> X509Result<'a, NameConstraints<'a>>
        ensures reads { Reads (λ given e. e ≡ told given) (Unit {0}) EndsWithinElement (λ i. i.now)
            (λ i v r. grammar.NameConstraints i (name_constraints_view v) r) bytes.now result }
        ensures exact { Gives (λ r. (name_constraints_view r.1, r.0.now)) result (name_constraints_at bytes.now) }
        ensures found { IfOk result (λ r. grammar.NameConstraints bytes.now (name_constraints_view r.1) r.0.now) }
        ensures only { (v : values.NameConstraints) (rest : List ℕ) → grammar.NameConstraints bytes.now v rest
            → ElseMemory result (λ r. (name_constraints_view r.1 ≡ v) × (r.0.now ≡ rest)) }
        ensures counted { IfOk result (λ r. HasCountedSubtrees r.1) }
    {
        constraints_at_front(alloc, bytes)
    }
}

fn constraints_at_front<'a>(alloc: Global, i: &'a [u8]) -> X509Result<'a, NameConstraints<'a>>
    ensures exact { Gives (λ r. (name_constraints_view r.1, r.0.now)) result (name_constraints_at i.now) }
    ensures counted { IfOk result (λ r. HasCountedSubtrees r.1) }
    ensures missing { TellsMissing i.now result }
    ensures shorter { IfOk result (λ r. length r.0.now < length i.now) }
{
    let mut count = HeaderCount::new();
    let (rest, element) = front_element(i, &mut count)?;
    match constraints_of(alloc, element) {
        Ok(value) => Ok((rest, value)),
        Err(refusal) => Err(Refusal::within(refusal)),
    }
}
