//! Equal rows of numbers by one number, that of the first of them: whoever compares it need not go
//! over the rows.

ghost use Rattle.std.specs.Prelude.{◌+◌, ◌<◌, length, IfOk, OnOk};
ghost use Rattle.certpath_why.specs.Firsts.{AreFirsts, AreRowsKnown, IsFirst};

use crate::rows::row_at;
use std::alloc::{AllocError, Global};
use std::collections::BTreeMap;

/// The number of the first row that is equal to the row of a number. Those before it are known.
fn first_of<'r>(
    known: &mut BTreeMap<&'r [usize], usize>,
    rows: &'r [Vec<usize>],
    number: usize,
) -> Result<usize, AllocError>
    requires known { AreRowsKnown rows.now number known.now }
    requires number { number < length rows.now }
    ensures known { OnOk result (AreRowsKnown rows.now (number + 1) known.new) }
    ensures first { IfOk result (IsFirst rows.now number) }
{
    let row = row_at(rows, number);
    if let Some(first) = known.get(row) {
        return Ok(*first);
    }
    known.insert(row, number)?;
    Ok(number)
}

/// For each row the number of the first that is equal to it. It costs a sort of the rows.
pub(crate) fn firsts_of(alloc: Global, rows: &[Vec<usize>]) -> Result<Vec<usize>, AllocError>
    ensures { IfOk result (λ firsts. AreFirsts rows.now firsts.items) }
{
    let mut known = BTreeMap::new(alloc);
    let mut firsts = Vec::with_capacity(alloc, rows.len())?;
    for number in 0..rows.len() {
        let first = first_of(&mut known, rows, number)?;
        firsts.push(first)?;
    }
    Ok(firsts)
}
