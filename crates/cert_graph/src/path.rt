//! The count of the certificates of a path that are not self-issued (RFC 5280, 6.1.4, l and m).

ghost use Rattle.std.specs.Prelude.{◌≡◌, ◌+◌, ◌<◌, not, cond};

pub(crate) fn counted_on(self_issued: bool, count: usize) -> usize
    requires { count < usize.MAX }
    ensures { result ≡ count + cond (not self_issued) 1 0 }
{
    if self_issued { count } else { count + 1 }
}
