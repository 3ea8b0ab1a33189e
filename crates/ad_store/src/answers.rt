// What the calls of a store answer.
use thiserror::Error;

/// Where an ad was put: in a new slot, or in the slot of the ad that had its name.
#[derive(Clone, Copy, Debug, PartialEq, Eq)]
pub enum Put {
    Added(usize),
    Replaced(usize),
}

/// Why an ad was not put.
#[derive(Clone, Copy, Debug, PartialEq, Eq, Error)]
pub enum PutFault {
    /// 10,000 ads are held, and none of them has the name.
    #[error("the pool holds as many ads as it may")]
    Full,
    /// The texts of the other ads and this one are more than 33,554,432 bytes together.
    #[error("the pool holds as much text of ads as it may")]
    FullText,
    #[error("out of memory")]
    OutOfMemory,
}

/// No ad of the name is held.
#[derive(Clone, Copy, Debug, PartialEq, Eq, Error)]
#[error("no ad of this name is held")]
pub struct NoName;
