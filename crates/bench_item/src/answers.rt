//! Answers on a number of items.

use cert_judge::Vouch;
use certcheck::{Answer, Change, Reach, Table};
use std::alloc::{AllocError, Global};

/// Every key vouches for everything.
pub struct Anyone;

impl Vouch for Anyone {
    ghost use Rattle.cert_judge.specs.Vouching.{vouching_alone};

    ghost vouches_for = { λ v. vouching_alone (λ key item. Unit {0}) };

    fn vouches(&self, _key: &[u8], _item: &[u8]) -> bool {
        true
    }

    fn processes(&self, _item: &[u8], _identifier: &[u8]) -> bool {
        false
    }
}

/// The first ten items, to the first anchor.
pub fn path_of_ten(alloc: Global, count: usize) -> Result<Answer, AllocError> {
    let mut positions = Vec::new(alloc);
    for position in 0..10usize {
        positions.push(position)?;
    }
    let mut steps = Vec::new(alloc);
    for row in 0..9usize {
        let mut step = Vec::with_capacity(alloc, 1)?;
        step.push(Change {
            position: 9 - row,
            reach: Reach::Any,
        })?;
        steps.push(step)?;
    }
    Ok(Answer::Path {
        positions,
        anchor: 0,
        table: Table::Rows {
            width: count,
            steps,
        },
    })
}

/// No path, by a row that reaches nobody.
pub fn no_path(alloc: Global, count: usize) -> Result<Answer, AllocError> {
    let mut row = Vec::with_capacity(alloc, count)?;
    for _ in 0..count {
        row.push(Reach::No)?;
    }
    Ok(Answer::NoPath {
        table: Table::Row(row),
    })
}
