// What tests say of a requirement.

/// What the tests of a requirement say of it by the literals of the other side, with no evaluation.
#[derive(Clone, Copy)]
pub enum Verdict {
    /// Some test is decided against, so the requirement isn't true.
    Against,
    /// Each conjunct is a test that is met, so the requirement is true.
    For,
    /// Neither: only an evaluation can tell.
    Open,
}
