// What a machine answers to an item.
use pool_text::Text;

/// The answer to an item of an input.
#[derive(Drop)]
pub struct Answer {
    /// What is to be written, all of it or nothing; it may be empty.
    pub text: Text,
    /// How many refusals it is, 0 or 1.
    pub refusals: u64,
}
