// A down volume: its two ends, and nothing in memory.
use std::marker::PhantomData;

#[derive(Drop)]
pub struct Down<K, L, S> {
    pub(crate) log: L,
    pub(crate) store: S,
    pub(crate) kind: PhantomData<K>,
}
