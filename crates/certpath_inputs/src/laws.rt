//! Laws of reading. Each is a function that does nothing: its contract is the law.

ghost use Rattle.std.specs.Prelude.{◌≡◌};

use crate::reading::{MAX_READS, READ_SIZE};

/// An input is read at most 16,777,216 times, and at most 65,536 octets at a time.
pub fn read_bounds()
    ensures reads { MAX_READS ≡ 16777216 }
    ensures size { READ_SIZE ≡ 65536 }
{}
