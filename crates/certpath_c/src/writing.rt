//! Writing into the caller's buffers.

ghost use Rattle.std.specs.Prelude.{◌≡◌, ◌++◌, ◌<◌, drop, length, if◌then◌else◌};
ghost use Rattle.certpath_c.specs.Writing.{Puts, PutsBoth};

/// Writes values at the front of a buffer, or nothing if they don't fit.
pub(crate) fn put<T: Copy>(buffer: &mut [T], values: &[T]) -> bool
    ensures { Puts buffer.old buffer.new values.now result }
{
    if values.len() > buffer.len() {
        return false;
    }
    let (front, _) = buffer.split_at_mut(values.len());
    front.copy_from_slice(values);
    true
}

/// Writes both, or neither if one of them doesn't fit.
pub(crate) fn put_both<S: Copy, T: Copy>(
    buffer: &mut [S],
    values: &[S],
    other: &mut [T],
    others: &[T],
) -> bool
    ensures { PutsBoth buffer.old buffer.new values.now other.old other.new others.now result }
{
    if buffer.len() < values.len() {
        return false;
    }
    put(other, others) && put(buffer, values)
}
