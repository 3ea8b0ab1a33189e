// Hashers of names. Who writes an ad chooses its names, and must not know which of them meet in a frame's table: so the
// hashes depend on a seed, and their halves are joined by xor, since sums would let the seed drop out of differences.
ghost use Rattle.ad_tree.specs.Hashers.{written};

use std::hash::{BuildHasher, Hasher};

/// With a small multiplier, the first letters of a word would tell little.
const MULTIPLIER: u64 = 6_364_136_223_846_793_005;

/// Makes the hashers of the names of a frame.
#[derive(Clone, Copy)]
pub struct NameHashers {
    pub seed: u64,
}

/// A hasher that begins with a seed, and takes words of 64 bits.
#[derive(Clone, Copy)]
pub struct NameHasher {
    state: u64,
}

impl BuildHasher for NameHashers {
    type Hasher = NameHasher;

    ghost build_hasher = { λ hashers. record { state = hashers.seed } };

    fn build_hasher(&self) -> NameHasher {
        NameHasher { state: self.seed }
    }
}

impl Hasher for NameHasher {
    ghost write = { written };

    ghost finish = { λ hasher. hasher.state };

    fn finish(&self) -> u64 {
        self.state
    }

    #[inline(always)]
    fn write(&mut self, bytes: &[u8]) {
        if let [a, b, c, d, e, f, g, h] = bytes {
            let word = u64::from_le_bytes([*a, *b, *c, *d, *e, *f, *g, *h]);
            let product = u128::from(self.state ^ word) * u128::from(MULTIPLIER);
            self.state = (product % (1 << 64)) as u64 ^ (product >> 64) as u64;
        }
    }
}
