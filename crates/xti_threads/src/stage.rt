//! What the parts of a run share.

use std::alloc::Global;
use std::sync::atomic::AtomicBool;
use xti_calls::Xti;
use xti_model::Line;
use xti_replay::Worker;

/// What every call of a run is made with.
#[derive(Drop)]
pub(crate) struct Stage<'a, G, R> {
    pub(crate) rt: &'a R,
    pub(crate) alloc: Global,
    pub(crate) lines: &'a [Line],
    pub(crate) gate: &'a G,
}

/// What every worker's thread is lent.
#[derive(Drop)]
pub(crate) struct Shared<'a, G, R> {
    pub(crate) stage: Stage<'a, G, R>,
    pub(crate) xti: &'a Xti,
    /// Worker 0, which is finished.
    pub(crate) setup: &'a Worker,
    /// Whether a thread was refused.
    pub(crate) lacking: &'a AtomicBool,
}
