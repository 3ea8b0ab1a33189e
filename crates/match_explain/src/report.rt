// What is said of a request, and of each ad.
use pool_text::{Items, Text};

/// Whether a request and an ad match, and if not, what keeps them from it. Conjuncts of a requirement count from 1, and 0
/// stands for a requirement that is absent.
#[derive(Clone, Copy)]
pub enum Verdict {
    /// The requirements of both are true.
    Accepted,
    /// The request declines, first by this conjunct.
    Request(u32),
    /// The request doesn't decline, but the ad does, first by this conjunct.
    Resource(u32),
}

/// A conjunct of the request's requirement: its text, and for how many ads it holds.
#[derive(Drop)]
pub struct Conjunct {
    pub text: Text,
    pub holds: u64,
}

/// The conjuncts of a requirement in order.
pub type Conjuncts = Items<Conjunct>;

/// The verdicts on ads in order.
pub type Verdicts = Items<Verdict>;

/// Why a request matches the ads that it matches.
#[derive(Drop)]
pub struct Report {
    pub conjuncts: Conjuncts,
    pub verdicts: Verdicts,
}
