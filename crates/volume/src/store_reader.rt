// A page store that is not short, to be read.
ghost use Rattle.std.specs.Prelude.{◌≡◌, false};
ghost use Rattle.stores.specs.Stores.{is_short};

use stores::PageStore;

#[derive(Drop)]
pub(crate) struct StoreReader<'a, S: PageStore> {
    pub(crate) store: &'a S,
    ghost long: { is_short (S.PageStore.meaning store.now).state ≡ false },
}
