// A volume, down or up.
use volume::{Down, Up};

#[derive(Drop)]
pub enum AnyVolume<K, L, S> {
    Down(Down<K, L, S>),
    Up(Up<K, L, S>),
}
