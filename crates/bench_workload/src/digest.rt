//! A digest of results.

/// FNV-1a over 64 bits (Fowler, Noll and Vo), in words of eight octets, each followed by a shift.
#[derive(Clone, Copy)]
pub(crate) struct Digest {
    value: u64,
}

impl Digest {
    /// Of nothing.
    pub(crate) fn new() -> Digest {
        Digest {
            value: 0xcbf2_9ce4_8422_2325,
        }
    }

    /// So many octets more, and their number: eight at a step, so that the digest takes little of a job's time.
    pub(crate) fn octets(&mut self, octets: &[u8]) {
        for eight in octets.chunks(8) {
            let mut word: u64 = 0;
            for octet in eight {
                word = word.wrapping_mul(256) ^ u64::from(*octet);
            }
            self.number(word);
        }
        self.number(octets.len() as u64);
    }

    /// A truth value more.
    pub(crate) fn flag(&mut self, flag: bool) {
        self.number(u64::from(flag));
    }

    /// A number more.
    pub(crate) fn number(&mut self, number: u64) {
        self.value = (self.value ^ number).wrapping_mul(0x0000_0100_0000_01b3);
        self.value ^= self.value >> 29;
    }

    /// The digest.
    pub(crate) fn value(&self) -> u64 {
        self.value
    }
}
