//! Numbers that look drawn, from a seed.

/// A generator of numbers: the finalizer of SplitMix64 (Steele, Lea and Flood, 2014) over a counter.
#[derive(Drop)]
pub(crate) struct Random {
    state: u64,
}

impl Random {
    /// The numbers of a seed.
    pub(crate) fn new(seed: u32) -> Random {
        Random {
            state: u64::from(seed),
        }
    }

    /// The next number.
    pub(crate) fn next(&mut self) -> u64 {
        self.state = self.state.wrapping_add(0x9e37_79b9_7f4a_7c15);
        let mut mixed = self.state;
        mixed = (mixed ^ (mixed >> 30)).wrapping_mul(0xbf58_476d_1ce4_e5b9);
        mixed = (mixed ^ (mixed >> 27)).wrapping_mul(0x94d0_49bb_1331_11eb);
        mixed ^ (mixed >> 31)
    }

    /// The high half of the next number.
    pub(crate) fn number(&mut self) -> u32 {
        (self.next() >> 32) as u32
    }

    /// The next number, brought below a bound; 0 where the bound is 0.
    pub(crate) fn below(&mut self, bound: usize) -> usize {
        let drawn = self.next() >> 33;
        match usize::try_from(drawn) {
            Ok(drawn) => drawn.checked_rem(bound).unwrap_or(0),
            Err(_) => 0,
        }
    }
}
