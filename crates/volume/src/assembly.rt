// A down volume is put together from its two ends, and taken apart into them.
ghost use Rattle.std.specs.Prelude.{◌≡◌};

use crate::down::Down;
use std::marker::PhantomData;

impl<K, L, S> Down<K, L, S> {
    // A down volume over a log medium and a page store; nothing is read or written.
    pub fn new(log: L, store: S) -> Down<K, L, S>
        ensures log { result.log ≡ log }
        ensures store { result.store ≡ store }
    {
        Down {
            log,
            store,
            kind: PhantomData,
        }
    }

    // Hands back the two ends.
    pub fn into_ends(self) -> (L, S)
        ensures { result ≡ (self.log, self.store) }
    {
        let Down {
            log,
            store,
            kind: _,
        } = self;
        (log, store)
    }
}
