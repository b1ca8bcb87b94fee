//! Lists of positions, filled place by place.

ghost use Rattle.std.specs.Prelude.{◌≡◌, ◌↔◌, length, map, All, IsTrue, IfOk, OnOk, []};
ghost use Rattle.cert_graph.specs.Lists.{HasLast, IsPut};

use std::alloc::{AllocError, Global};

fn ends_in(list: &[usize], position: usize) -> bool
    ensures { IsTrue result ↔ HasLast list.now position }
{
    match list.last() {
        Some(last) => *last == position,
        None => false,
    }
}

/// Adds a position at the end of list `place`, unless it is in that list. If there is no such list,
/// nothing is added. The only error is out of memory.
pub fn put(lists: &mut Vec<Vec<usize>>, place: usize, position: usize) -> Result<(), AllocError>
    ensures { OnOk result (IsPut (map (λ l. l.items) lists.old.items) (map (λ l. l.items) lists.new.items) place position) }
{
    if place >= lists.len() {
        return Ok(());
    }
    let list = &mut lists[place];
    if ends_in(list, position) {
        return Ok(());
    }
    list.push(position)?;
    Ok(())
}

/// Returns `number` empty lists. The only error is out of memory.
pub fn empty_lists(alloc: Global, number: usize) -> Result<Vec<Vec<usize>>, AllocError>
    ensures count { IfOk result (λ lists. length lists.items ≡ number) }
    ensures empty { IfOk result (λ lists. All (λ l. l.items ≡ []) lists.items) }
{
    let mut lists = Vec::new(alloc);
    for _ in 0..number {
        lists.push(Vec::new(alloc))?;
    }
    Ok(lists)
}
