//! How many headers the readers try.

use asn1_core::HeaderCount;
use certpath_typed::read_typed_counted;
use der_tree::{MAX_RECURSION, parse_der_recursive_counted};
use std::alloc::{AllocError, Global};

/// The least and the most headers that a reader is to try.
#[derive(Clone, Copy)]
pub(crate) struct Bounds {
    is_typed: bool,
    least: u64,
    most: u64,
}

/// The bounds of a question `typed,N,M` or `tree,N,M`.
pub(crate) fn bounds_of(question: &str) -> Option<Bounds> {
    let (reader, numbers) = question.split_once(',')?;
    let (least, most) = numbers.split_once(',')?;
    let is_typed = match reader {
        "typed" => true,
        "tree" => false,
        _ => return None,
    };
    Some(Bounds {
        is_typed,
        least: least.parse().ok()?,
        most: most.parse().ok()?,
    })
}

/// Whether the reader keeps to the bounds.
pub(crate) fn is_within(alloc: Global, bounds: &Bounds, item: &[u8]) -> Result<bool, AllocError> {
    let tried = if bounds.is_typed {
        tried_by_types(alloc, item)?
    } else {
        tried_by_trees(alloc, item)
    };
    Ok(bounds.least <= tried && tried <= bounds.most)
}

fn tried_by_types(alloc: Global, item: &[u8]) -> Result<u64, AllocError> {
    let mut count = HeaderCount::new();
    match read_typed_counted(alloc, item, &mut count) {
        Ok(_) => Ok(count.get()),
        Err(_) => Err(AllocError),
    }
}

/// Of refused octets, those that were tried until then.
fn tried_by_trees(alloc: Global, item: &[u8]) -> u64 {
    let mut count = HeaderCount::new();
    let _ = parse_der_recursive_counted(alloc, item, MAX_RECURSION, &mut count);
    count.get()
}
