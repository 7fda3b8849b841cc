// An up volume.
use crate::pages::WorkingPages;
use faults::Fault;
use std::marker::PhantomData;
use tables::{DirtyOps, Waiting};

#[derive(Drop)]
pub struct Up<K, L, S> {
    pub(crate) log: L,
    pub(crate) store: S,
    pub(crate) pages: WorkingPages,
    pub(crate) waiting: Waiting,
    pub(crate) dirty: DirtyOps,
    pub(crate) first: u32,
    pub(crate) next: u32,
    // well; or the fault that answers every call but stop: a write died, or a mount was refused
    pub(crate) status: Result<(), Fault>,
    pub(crate) kind: PhantomData<K>,
}
