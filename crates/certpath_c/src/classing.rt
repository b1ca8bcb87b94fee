//! What single items are.

ghost use Rattle.std.specs.Prelude.{◌≡◌};
ghost use Rattle.cert_model.specs.ClassView.{class_view};
ghost use Rattle.certpath_c.specs.Classing.{class_number, ClassAnswer};

use crate::status::{DONE, OUT_OF_MEMORY};
use certcheck::{ItemClass, read_tree};
use std::alloc::Global;

pub(crate) fn class_number(class: &ItemClass<'_>) -> u32
    ensures { result ≡ class_number (class_view class.now) }
{
    match class {
        ItemClass::Other => 0,
        ItemClass::Certificate(_) => 1,
        ItemClass::List(_) => 2,
    }
}

/// `certpath_class` of the header.
#[unsafe(no_mangle)]
pub extern "C" fn certpath_class(alloc: Global, item: &[u8], found: &mut u32) -> i32
    ensures { ClassAnswer item.now found.old found.new result }
{
    let Ok(class) = read_tree(alloc, item) else {
        return OUT_OF_MEMORY;
    };
    *found = class_number(&class);
    DONE
}
