// Mount: a down volume comes up.
ghost use Rattle.std.specs.Prelude.{◌≡◌, length};
ghost use Rattle.tables.specs.DirtyOps.{dirty as dirty_of};
ghost use Rattle.volume.specs.Volumes.{Ends};
ghost use Rattle.volume.specs.Statuses.{halted_by};
ghost use Rattle.volume.specs.Models.{up_over, down_over};
ghost use Rattle.volume.specs.Mounting.{mounted};
ghost use Rattle.volume.specs.Surviving.{MountRecovers};
ghost use Rattle.volume.specs.Recovering.{up_by, up_with, report_of};

use crate::down::Down;
use crate::pages::WorkingPages;
use crate::recovered::{Rebuilt, Recovered};
use crate::up::Up;
use faults::Fault;
use kinds::Kind;
use media::Medium;
use stores::PageStore;
use tables::{DirtyOps, Waiting};

// What an up volume has in memory, and its status: of a refused mount blank pages and no operations.
fn settled(found: Result<Recovered, Fault>) -> (Recovered, Result<(), Fault>)
    ensures { (e : Ends) → up_by e result.0 result.1 ≡ up_with e found }
{
    match found {
        Ok(recovered) => (recovered, Ok(())),
        Err(fault) => {
            let nothing = Recovered {
                rebuilt: Rebuilt {
                    pages: WorkingPages::blank(),
                    dirty: DirtyOps::none(),
                },
                first: 1,
                next: 1,
            };
            (nothing, Err(fault))
        }
    }
}

impl<K: Kind, L: Medium, S: PageStore> Down<K, L, S> {
    // Takes the down volume whole and hands back an up one, and how many records it redid. Both ends are powered on and nothing is
    // written. Refused, the up volume is halted with that fault, its pages are blank and the count is 0.
    pub fn mount(self) -> (Up<K, L, S>, u32)
        ensures up { up_over L.Medium S.PageStore result.0 ≡ mounted K.Kind.meaning (down_over L.Medium S.PageStore self) }
        ensures count { result.1 ≡ length (dirty_of result.0.dirty) }
        ensures recovers { MountRecovers K.Kind.meaning (down_over L.Medium S.PageStore self) }
    {
        let mut down = self;
        down.power_on();
        let (recovered, status) = settled(down.recover());
        let Down { log, store, kind } = down;
        let Recovered {
            rebuilt: Rebuilt { pages, dirty },
            first,
            next,
        } = recovered;
        let redone = dirty.len() as u32;
        let up = Up {
            log,
            store,
            pages,
            waiting: Waiting::none(),
            dirty,
            first,
            next,
            status,
            kind,
        };
        (up, redone)
    }
}

impl<K: Kind, L: Medium, S: PageStore> Up<K, L, S> {
    // The fault with which the volume is halted; none while it is well.
    pub fn fault(&self) -> Option<Fault>
        ensures { report_of result ≡ halted_by self.now.status }
    {
        self.status.err()
    }
}
