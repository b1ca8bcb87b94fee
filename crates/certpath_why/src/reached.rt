//! Which certificates are reached from the target by the names of issuers.

ghost use Rattle.std.specs.Prelude.{◌≡◌, ◌↔◌, ◌<◌, ℕ, [], ◌∷◌, length, map, Contains, IfOk, OnOk};
ghost use Rattle.cert_judge.specs.Items.{item_of};
ghost use Rattle.certpath_why.specs.Found.{AreSpent, IsFound, IsMarked, Spreads, SpreadsFrom};
ghost use Rattle.certpath_why.specs.Reached.{ArePositions, IsReached, IsFurther};

use crate::found::{Found, certificate_at, is_certificate};
use crate::marks::{is_marked, marked_but, no_marks, put_mark};
use std::alloc::{AllocError, Global};

/// Marks a place, and puts it at the end of the queue, if it was not marked.
fn visit(marks: &mut Vec<bool>, queue: &mut Vec<usize>, place: usize) -> Result<(), AllocError>
    requires { place < length marks.now.items }
    ensures { OnOk result (Spreads (place ∷ []) marks.old.items queue.old.items marks.new.items queue.new.items) }
{
    if is_marked(marks, place) {
        return Ok(());
    }
    put_mark(marks, place);
    queue.push(place)?;
    Ok(())
}

/// Marks some places, and puts those that were not marked at the end of the queue.
fn spread(marks: &mut Vec<bool>, queue: &mut Vec<usize>, places: &[usize]) -> Result<(), AllocError>
    requires { (u : ℕ) → Contains places.now u → u < length marks.now.items }
    ensures { OnOk result (Spreads places.now marks.old.items queue.old.items marks.new.items queue.new.items) }
{
    for place in places {
        visit(marks, queue, *place)?;
    }
    Ok(())
}

/// Marks the certificates whose subject is the issuer of the one at a position. Each name is gone
/// over once: then the first certificate of the name is spent.
fn spread_from(
    marks: &mut Vec<bool>,
    queue: &mut Vec<usize>,
    spent: &mut Vec<bool>,
    found: &Found<'_, '_>,
    place: usize,
) -> Result<(), AllocError>
    requires known { IsFound found.now }
    requires count { length marks.now.items ≡ length found.now.items.now }
    requires spent { AreSpent (map item_of found.now.items.now) spent.now.items marks.now.items }
    ensures spread { OnOk result (SpreadsFrom (map item_of found.now.items.now) place marks.old.items queue.old.items marks.new.items queue.new.items) }
    ensures spent { OnOk result (AreSpent (map item_of found.now.items.now) spent.new.items marks.new.items) }
{
    let Some(certificate) = certificate_at(found.items, place) else {
        return Ok(());
    };
    let places = found.issuers(certificate.issuer);
    let Some(first) = places.first() else {
        return Ok(());
    };
    if is_marked(spent, *first) {
        return Ok(());
    }
    spread(marks, queue, places)?;
    put_mark(spent, *first);
    Ok(())
}

/// Marks of exactly the certificates that are reached. Each is in the queue once, and its issuer's
/// name is looked up then.
fn reached_marks(
    alloc: Global,
    found: &Found<'_, '_>,
    target: usize,
) -> Result<Vec<bool>, AllocError>
    requires known { IsFound found.now }
    ensures { IfOk result (λ marks. (u : ℕ) → IsMarked marks.items u ↔ IsReached (map item_of found.now.items.now) target u) }
{
    let mut marks = no_marks(alloc, found.items.len())?;
    if !is_certificate(found.items, target) {
        return Ok(marks);
    }
    let mut spent = no_marks(alloc, found.items.len())?;
    let mut queue = Vec::new(alloc);
    visit(&mut marks, &mut queue, target)?;
    for done in 0..usize::MAX {
        let waiting = queue.as_slice();
        if done >= waiting.len() {
            return Ok(marks);
        }
        let place = waiting[done];
        spread_from(&mut marks, &mut queue, &mut spent, found, place)?;
    }
    Ok(marks)
}

/// The positions of the certificates that are reached, without the target.
pub(crate) fn further_than(
    alloc: Global,
    found: &Found<'_, '_>,
    target: usize,
) -> Result<Vec<usize>, AllocError>
    requires known { IsFound found.now }
    ensures { IfOk result (λ further. ArePositions (IsFurther (map item_of found.now.items.now) target) further.items) }
{
    let reached = reached_marks(alloc, found, target)?;
    let further = marked_but(alloc, &reached, target)?;
    Ok(further)
}
