// Numbers that stand for texts in the order of the index.
ghost use Rattle.std.specs.Prelude.{◌≡◌};
ghost use Rattle.literal_index.specs.Digests.{number_of_text};

use pool_text::name_digest;

/// A number that isn't negative, which texts share that are equal after folding, and few others do. It takes no memory.
pub fn number_of_text(bytes: &[u8]) -> i64
    ensures { result ≡ number_of_text bytes.now }
{
    (name_digest(bytes) / 2) as i64
}
