// What a run leaves in memory.
use crate::pool_machine::PoolMachine;
use pool_state::Pool;

/// What a run leaves in memory: its pool, where it had one. To drop it takes the pool apart piece by piece, which is a fifth of the
/// time of a run that only reads 10,000 ads and shows them; a program may leave it to its process.
#[derive(Drop)]
pub struct Left {
    pub(crate) rest: Rest,
}

#[derive(Drop)]
pub(crate) enum Rest {
    /// No pool.
    Nothing,
    /// The pool of a script.
    Script(PoolMachine),
    /// The pool of a workload.
    Workload(Pool),
}
