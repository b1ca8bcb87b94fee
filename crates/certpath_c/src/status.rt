//! The statuses of `include/certpath.h`.

/// The call did what it says.
pub const DONE: i32 = 0;

/// Memory was refused.
pub const OUT_OF_MEMORY: i32 = 1;

/// A buffer is too small.
pub const TOO_SMALL: i32 = 2;

/// The item has no such field.
pub const NO_FIELD: i32 = 3;

/// The octets of a name can't be read.
pub const BAD_NAME: i32 = 4;

/// A moment is no date and time.
pub const BAD_MOMENT: i32 = 5;

/// An answer has a number that stands for nothing, or a table that doesn't have whole rows.
pub const BAD_ANSWER: i32 = 6;

/// A line of a voucher file is neither empty nor two digests.
pub const BAD_LINE: i32 = 7;

/// The item is no certificate.
pub const NOT_CERTIFICATE: i32 = 8;

/// A text is no host.
pub const BAD_HOST: i32 = 9;
