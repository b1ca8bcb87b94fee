//! What a caller decides beside what is vouched for: the moment, and whether revocation lists are
//! demanded.

ghost use Rattle.std.specs.Prelude.{◌≡◌};

use jiff::civil::DateTime;

/// By what is judged: the moment, and whether lists are demanded.
///
/// If lists are demanded, a certificate is good only if some list is used under its issuer's name
/// and key, and none of those has its serial number (RFC 5280, 6.3). If not, it is good unless one
/// has it.
#[derive(Clone, Copy, Debug)]
pub struct Policy {
    moment: DateTime,
    demand_lists: bool,
    ghost whole_seconds: { moment.time.subsec_nanosecond ≡ 0 },
}

impl Policy {
    /// A policy of a moment in whole seconds, in UTC, as the times of certificates and lists are
    /// (RFC 5280, 4.1.2.5).
    pub fn new(moment: DateTime, demand_lists: bool) -> Policy
        requires { moment.time.subsec_nanosecond ≡ 0 }
        ensures moment { result.moment ≡ moment }
        ensures demand_lists { result.demand_lists ≡ demand_lists }
    {
        Policy {
            moment,
            demand_lists,
        }
    }

    /// The moment, in UTC.
    pub fn moment(&self) -> DateTime
        ensures { result ≡ self.now.moment }
    {
        self.moment
    }

    /// Whether a certificate needs a list that is used under its issuer's name and key.
    pub fn demands_lists(&self) -> bool
        ensures { result ≡ self.now.demand_lists }
    {
        self.demand_lists
    }
}
