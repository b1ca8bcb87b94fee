//! Reaches: at which counts of certificates below it an issuer leads to an anchor
//! (RFC 5280, 4.2.1.9).

ghost use Rattle.std.specs.Prelude.{◌≡◌, ℕ, ◌⊎◌, ◌↔◌, cond, IsTrue};
ghost use Rattle.cert_graph.specs.Reach.{Takes, IsAtMost, lesser, less_one, reach_of};

/// How far an issuer leads to an anchor: at which counts of certificates below it it may be in a
/// path. The count is of those between it and the target that are not self-issued.
///
/// `No`: at none. `UpTo(n)`: at each count up to n. `Any`: at each count. In this order.
#[derive(Clone, Copy, PartialEq, Eq, PartialOrd, Ord, Debug)]
pub enum Reach {
    No,
    UpTo(u32),
    Any,
}

impl Reach {
    /// Returns the reach that a path length constraint allows: without one, any count
    /// (RFC 5280, 4.2.1.9).
    pub fn of_limit(limit: Option<u32>) -> Reach
        ensures { result ≡ reach_of limit }
    {
        match limit {
            Some(n) => Reach::UpTo(n),
            None => Reach::Any,
        }
    }

    /// Returns whether the reach takes a count.
    pub fn takes(self, count: usize) -> bool
        ensures { IsTrue result ↔ Takes self count }
    {
        match self {
            Reach::No => false,
            Reach::UpTo(n) => count <= n as usize,
            Reach::Any => true,
        }
    }

    /// Returns whether it is no further than another.
    pub fn is_at_most(self, other: Reach) -> bool
        ensures { IsTrue result ↔ IsAtMost self other }
    {
        match self {
            Reach::No => true,
            Reach::UpTo(n) => match other {
                Reach::No => false,
                Reach::UpTo(m) => n <= m,
                Reach::Any => true,
            },
            Reach::Any => match other {
                Reach::Any => true,
                _ => false,
            },
        }
    }

    /// Returns the lesser of two reaches.
    pub fn lesser(self, other: Reach) -> Reach
        ensures { result ≡ lesser self other }
    {
        match self {
            Reach::No => Reach::No,
            Reach::UpTo(n) => match other {
                Reach::No => Reach::No,
                Reach::UpTo(m) => Reach::UpTo(n.min(m)),
                Reach::Any => Reach::UpTo(n),
            },
            Reach::Any => other,
        }
    }

    /// Returns the greater of two reaches.
    pub fn greater(self, other: Reach) -> Reach
        ensures { (c : ℕ) → Takes result c ↔ (Takes self c ⊎ Takes other c) }
    {
        if self.is_at_most(other) { other } else { self }
    }

    /// Returns what is left of an issuer's reach for a certificate that it issued: all of it if
    /// that certificate is self-issued, else one less (RFC 5280, 6.1.4, l).
    pub fn passed_by(self, self_issued: bool) -> Reach
        ensures { result ≡ cond self_issued self (less_one self) }
    {
        if self_issued {
            return self;
        }
        match self {
            Reach::No => Reach::No,
            Reach::UpTo(0) => Reach::No,
            Reach::UpTo(n) => Reach::UpTo(n - 1),
            Reach::Any => Reach::Any,
        }
    }
}
