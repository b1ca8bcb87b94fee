//! Arithmetic of times.

ghost use Rattle.std.specs.Prelude.{◌≡◌, ◌+ℤ◌, ◌-ℤ◌};
ghost use Rattle.jiff.specs.Words.{civil_nanos, signed_nanos};
ghost use Rattle.x509_time.specs.Calls.{GivesTimeOf, GivesLater};

use crate::time::ASN1Time;
use jiff::SignedDuration;
use jiff::civil::DateTime;
use std::ops::{Add, Sub};

impl ASN1Time {
    // `new` of the moment moved by the duration.
    fn checked_add(self, duration: SignedDuration) -> Option<ASN1Time>
        ensures { GivesTimeOf (civil_nanos self.time +ℤ signed_nanos duration) result }
    {
        match self
            .to_datetime()
            .to_plain()
            .checked_add_nanos(duration.as_nanos())
        {
            Ok(moment) => Some(ASN1Time::new(DateTime::from_plain(moment))),
            Err(_) => None,
        }
    }

    // How much later this moment is, if it is later.
    pub(crate) fn checked_since(&self, earlier: &ASN1Time) -> Option<SignedDuration>
        ensures { GivesLater (civil_nanos self.now.time) (civil_nanos earlier.now.time) result }
    {
        let time = self.to_datetime();
        let other = earlier.to_datetime();
        if time > other {
            Some(time.duration_since(other))
        } else {
            None
        }
    }
}

/// Adds a duration; the form is chosen as by `new`. `None` if the year isn't from -9999 to 9999.
impl Add<SignedDuration> for ASN1Time {
    ghost use Rattle.std.specs.Prelude.{◌+ℤ◌};
    ghost use Rattle.jiff.specs.Words.{civil_nanos, signed_nanos};
    ghost use Rattle.x509_time.specs.Calls.{GivesTimeOf};

    type Output = Option<ASN1Time>;

    ghost add_gives = { λ t d r. GivesTimeOf (civil_nanos t.time +ℤ signed_nanos d) r };

    fn add(self, duration: SignedDuration) -> Option<ASN1Time> {
        self.checked_add(duration)
    }
}

/// The duration from the second moment to the first; `None` if the first isn't later.
impl Sub for ASN1Time {
    ghost use Rattle.jiff.specs.Words.{civil_nanos};
    ghost use Rattle.x509_time.specs.Calls.{GivesLater};

    type Output = Option<SignedDuration>;

    ghost sub_gives = { λ t s r. GivesLater (civil_nanos t.time) (civil_nanos s.time) r };

    fn sub(self, earlier: ASN1Time) -> Option<SignedDuration> {
        self.checked_since(&earlier)
    }
}
