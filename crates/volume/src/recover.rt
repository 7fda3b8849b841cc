// Recovery: what a mount reads from the two ends and makes of it.
ghost use Rattle.std.specs.Prelude.{◌≡◌, Some};
ghost use Rattle.volume.specs.Mounting.{mounted, mounted_at};
ghost use Rattle.volume.specs.Models.{down_over};
ghost use Rattle.volume.specs.Recovering.{ends_over, up_with};

use crate::down::Down;
use crate::log_reader::LogReader;
use crate::recovered::{Rebuilt, Recovered};
use crate::store_reader::StoreReader;
use faults::Fault;
use kinds::Kind;
use media::Medium;
use stores::PageStore;
use tables::DirtyOps;

// What the ends give where the log's first number is known: the checks, then redo from the stored pages.
fn recover_from<K: Kind, L: Medium, S: PageStore>(
    log: &LogReader<L>,
    store: &StoreReader<S>,
    first: u32,
) -> Result<Recovered, Fault>
    ensures { up_with (ends_over L.Medium S.PageStore log.now.log.now store.now.store.now) result ≡ mounted_at K.Kind.meaning (ends_over L.Medium S.PageStore log.now.log.now store.now.store.now) (Some first) }
{
    let next = log.end(first);
    log.check_records::<K>(first, next)?;
    let pages = store.pages();
    pages.check_numbers(next)?;
    let mut rebuilt = Rebuilt {
        pages,
        dirty: DirtyOps::none(),
    };
    rebuilt.redo_records::<K, L>(log, first, next)?;
    Ok(Recovered {
        rebuilt,
        first,
        next,
    })
}

impl<K: Kind, L: Medium, S: PageStore> Down<K, L, S> {
    // The working pages, the operations redone and the two numbers that the ends give; or the fault with which the mount is refused.
    pub(crate) fn recover(&self) -> Result<Recovered, Fault>
        ensures { up_with (down_over L.Medium S.PageStore self.now) result ≡ mounted K.Kind.meaning (down_over L.Medium S.PageStore self.now) }
    {
        let (records, images) = self.readers()?;
        let first = records.first_number().ok_or(Fault::BadHeader)?;
        recover_from::<K, L, S>(&records, &images, first)
    }
}
