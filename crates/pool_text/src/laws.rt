// Laws of the definitions, each on a function that does nothing.
ghost use Rattle.std.specs.Prelude.{◌≡◌, ◌≢◌, ◌++◌, ℕ, decimal, All, Some};
ghost use Rattle.pool_text.specs.Lines.{ended, rest_of, with_feeds};
ghost use Rattle.pool_text.specs.Number.{number_of};

/// The lines of two pieces are those of the first, and then those of its rest with the second piece behind it.
pub fn lines_at_a_cut(first: &[u8], second: &[u8])
    ensures ended { ended (first.now ++ second.now) ≡ ended first.now ++ ended (rest_of first.now ++ second.now) }
    ensures rest { rest_of (first.now ++ second.now) ≡ rest_of (rest_of first.now ++ second.now) }
{}

/// The lines that have ended, each with its line feed, and the rest behind them are the bytes again.
pub fn lines_join_again(bytes: &[u8])
    ensures { with_feeds (ended bytes.now) ++ rest_of bytes.now ≡ bytes.now }
{}

/// No line that has ended holds a line feed, and neither does the rest behind them.
pub fn lines_hold_no_feed(bytes: &[u8])
    ensures lines { All (λ line. All (λ byte. byte ≢ 10) line) (ended bytes.now) }
    ensures rest { All (λ byte. byte ≢ 10) (rest_of bytes.now) }
{}

/// A number below 2^64 is read from its decimal text, and from no other text.
pub fn number_is_its_decimal_text(bytes: &[u8], number: u64)
    ensures reads { number_of (decimal number) ≡ Some number }
    ensures only { number_of bytes.now ≡ Some number → bytes.now ≡ decimal number }
{}
