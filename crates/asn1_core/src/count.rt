//! A count of header attempts, by which the cost of a reader is stated.

ghost use Rattle.std.specs.Prelude.{◌≡◌, ◌+◌, ◌-◌, ◌^◌, ◌<◌, min};

/// How many header attempts were made: each call of a header reader is one, whether it succeeds or
/// not. It counts to 2^128 - 1, so no input that fits memory is too long for it. It takes 16
/// octets.
#[derive(Debug, Drop)]
pub struct HeaderCount {
    raised: u128,
}

impl HeaderCount {
    ghost use Rattle.asn1_core.specs.Counts.{attempts};

    /// Returns a count of 0.
    pub fn new() -> HeaderCount
        ensures { attempts result ≡ 0 }
    {
        HeaderCount { raised: 0 }
    }

    /// Returns the attempts so far, or `u64::MAX` if there were more.
    pub fn get(&self) -> u64
        ensures { result ≡ min (attempts self.now) (2 ^ 64 - 1) }
    {
        if self.raised <= u128::from(u64::MAX) {
            self.raised as u64
        } else {
            u64::MAX
        }
    }

    /// Adds one attempt.
    pub(crate) fn raise(&mut self)
        requires { attempts self.old + 1 < 2 ^ 128 }
        ensures { attempts self.new ≡ attempts self.old + 1 }
    {
        self.raised += 1;
    }
}
