// Numbers of millionths in 64 bits, for the order of the index.
ghost use Rattle.std.specs.Prelude.{◌≡◌, pos};
ghost use Rattle.literal_index.specs.Shortened.{short, shortened};

/// The number 1 in millionths.
pub const ONE: i64 = 1_000_000;

/// How many bits of a number are kept as they are.
const EXACT_BITS: u32 = 62;

/// How many of its last bits a larger number is without.
const LOST_BITS: u32 = 22;

/// A number of millionths in 64 bits. Whole numbers up to 4,611 thousand millions are told apart, and larger ones from those that
/// differ by five or more; and none comes to stand behind one that is greater.
pub fn shortened(millionths: i128) -> i64
    ensures { result ≡ shortened millionths }
{
    if millionths < 0 {
        -1 - short((-1 - millionths) as u128)
    } else {
        short(millionths as u128)
    }
}

// The size of a number, in 63 bits.
fn short(size: u128) -> i64
    ensures { result ≡ pos (short size) }
{
    if size < 1 << EXACT_BITS {
        return size as i64;
    }
    let upper = (size >> LOST_BITS).min((1 << EXACT_BITS) - 1);
    (1 << EXACT_BITS) + upper as i64
}
