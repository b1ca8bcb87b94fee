//! Binary search in a strictly ascending list of positions.

ghost use Rattle.std.specs.Prelude.{◌↔◌, IsTrue, Contains};
ghost use Rattle.std.specs.List.Sorted.{IsStrictlyIncreasing};

/// Returns whether a number is in a list in strictly ascending order. Halves what is left of the
/// list at each step.
pub(crate) fn has(ascending: &[usize], number: usize) -> bool
    requires { IsStrictlyIncreasing ascending.now }
    ensures { IsTrue result ↔ Contains ascending.now number }
{
    let mut low = 0;
    let mut high = ascending.len();
    while low < high {
        let middle = low + (high - low) / 2;
        if ascending[middle] < number {
            low = middle + 1;
        } else {
            high = middle;
        }
    }
    if low >= ascending.len() {
        return false;
    }
    if ascending[low] != number {
        return false;
    }
    true
}
