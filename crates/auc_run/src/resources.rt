//! What rounds are served with.

use std::alloc::Global;

/// What a round is served with, whatever its jobs are: what starts its threads, the memory, and the gate that each job passes.
#[derive_where(Clone, Copy)]
pub(crate) struct Resources<'a, R, G> {
    pub(crate) rt: &'a R,
    pub(crate) alloc: Global,
    pub(crate) gate: &'a G,
}
