//! What items are by their shape.

ghost use Rattle.std.specs.Prelude.{◌≡◌, map, option_map, IfOk};
ghost use Rattle.certpath_files.specs.ShapeViews.{kind_view};
ghost use Rattle.certpath_c.specs.Shaping.{is_whole, number_of, shape_number, ShapeAnswer, ShapesAnswer};

use crate::framing::items_of;
use crate::status::{DONE, OUT_OF_MEMORY, TOO_SMALL};
use crate::writing::put;
use cert_framing::Items;
use certpath_files::{Front, Kind, front_of, kind_of};
use std::alloc::{AllocError, Global};

/// Whether octets are one item of a file and nothing after it.
fn is_whole(octets: &[u8]) -> bool
    ensures { result ≡ is_whole octets.now }
{
    match front_of(octets) {
        Front::Whole(size) => size == octets.len(),
        Front::Passed(_, _) => false,
        Front::Stops(_) => false,
    }
}

fn number_of(kind: Option<Kind>) -> u32
    ensures { result ≡ number_of (option_map kind_view kind) }
{
    match kind {
        None => 0,
        Some(Kind::Certificate) => 1,
        Some(Kind::List) => 2,
    }
}

/// The number of what octets are by their shape.
fn shape_number(octets: &[u8]) -> u32
    ensures { result ≡ shape_number octets.now }
{
    if is_whole(octets) {
        number_of(kind_of(octets))
    } else {
        0
    }
}

/// The number of each item's shape.
fn numbers_of(alloc: Global, items: &Items) -> Result<Vec<u32>, AllocError>
    ensures { IfOk result (λ numbers. numbers.items ≡ map shape_number items.now.items) }
{
    let mut numbers = Vec::with_capacity(alloc, items.len())?;
    for k in 0..items.len() {
        numbers.push(shape_number(items.get(k)))?;
    }
    Ok(numbers)
}

/// `certpath_shape` of the header.
#[unsafe(no_mangle)]
pub extern "C" fn certpath_shape(item: &[u8], shape: &mut u32) -> i32
    ensures { ShapeAnswer item.now shape.new result }
{
    *shape = shape_number(item);
    DONE
}

/// `certpath_shapes` of the header.
#[unsafe(no_mangle)]
pub extern "C" fn certpath_shapes(
    alloc: Global,
    octets: &[u8],
    limit: u32,
    shapes: &mut [u32],
    count: &mut usize,
) -> i32
    ensures { ShapesAnswer octets.now limit shapes.old shapes.new count.old count.new result }
{
    let Ok(items) = items_of(alloc, octets, limit) else {
        return OUT_OF_MEMORY;
    };
    let Ok(numbers) = numbers_of(alloc, &items) else {
        return OUT_OF_MEMORY;
    };
    *count = items.len();
    if put(shapes, &numbers) {
        DONE
    } else {
        TOO_SMALL
    }
}
