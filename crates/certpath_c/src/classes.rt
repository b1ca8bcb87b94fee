//! What the items of a file are.

ghost use Rattle.std.specs.Prelude.{IfOk};
ghost use Rattle.certpath_c.specs.Classes.{AreNumbers, ClassesAnswer};
ghost use Rattle.certpath_c.specs.Classing.{IsClassed};

use crate::classing::class_number;
use crate::framing::items_of;
use crate::status::{DONE, OUT_OF_MEMORY, TOO_SMALL};
use crate::writing::put;
use asn1_core::OutOfMemory;
use cert_framing::Items;
use certcheck::read_tree;
use std::alloc::Global;

/// The number of what an item is.
fn number_of(alloc: Global, item: &[u8]) -> Result<u32, OutOfMemory>
    ensures { IfOk result (IsClassed item.now) }
{
    let class = read_tree(alloc, item)?;
    Ok(class_number(&class))
}

/// The number of what each item is.
fn numbers_of(alloc: Global, items: &Items) -> Result<Vec<u32>, OutOfMemory>
    ensures { IfOk result (λ numbers. AreNumbers items.now.items numbers.items) }
{
    let mut numbers = Vec::with_capacity(alloc, items.len())?;
    for k in 0..items.len() {
        let number = number_of(alloc, items.get(k))?;
        numbers.push(number)?;
    }
    Ok(numbers)
}

/// `certpath_classes` of the header.
#[unsafe(no_mangle)]
pub extern "C" fn certpath_classes(
    alloc: Global,
    octets: &[u8],
    limit: u32,
    classes: &mut [u32],
    count: &mut usize,
) -> i32
    ensures { ClassesAnswer octets.now limit classes.old classes.new count.old count.new result }
{
    let Ok(items) = items_of(alloc, octets, limit) else {
        return OUT_OF_MEMORY;
    };
    let Ok(numbers) = numbers_of(alloc, &items) else {
        return OUT_OF_MEMORY;
    };
    *count = numbers.len();
    if put(classes, &numbers) {
        DONE
    } else {
        TOO_SMALL
    }
}
