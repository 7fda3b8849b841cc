// An operation of a kind, as a record has it: a number, a body that the kind accepts, and the sets that the kind gives for it.
ghost use Rattle.std.specs.Prelude.{◌≡◌, ◌<◌, ◌≤◌, length, Ok};

use kinds::Kind;
use logblocks::Record;
use std::marker::PhantomData;

#[derive(Drop)]
pub(crate) struct Operation<'a, K: Kind> {
    pub(crate) record: Record<'a>,
    pub(crate) kind: PhantomData<K>,
    ghost scoped: { K.Kind.meaning.scope record.body.now ≡ Ok (record.reads, record.writes) },
}

// An operation that a volume admits: its record fits into a block, and there is a number behind its own.
#[derive(Drop)]
pub(crate) struct Admitted<'a, K: Kind> {
    pub(crate) operation: Operation<'a, K>,
    ghost fits: { length operation.record.body.now ≤ 232 },
    ghost left: { operation.record.number < 4294967295 },
}
