// The tree kind.
ghost use Rattle.std.specs.Prelude.{refl};
ghost use Rattle.tree.specs.Steps.{tree_meaning};
ghost use Rattle.tree.specs.TreeLaws.{tree-lawful};

use crate::order::KeyOrder;
use crate::step::Step;
use kinds::{Kind, Refusal, sized};
use std::marker::PhantomData;

// Steps on a tree whose keys have the order O.
pub struct TreeKind<O> {
    order: PhantomData<O>,
}

impl<O: KeyOrder> Kind for TreeKind<O> {
    const LIMIT: u32 = 2;

    ghost LIMIT = { 2 };

    ghost meaning = { tree_meaning O.KeyOrder.ordering };

    ghost limit_is = { refl };

    ghost lawful = { tree-lawful O.KeyOrder.ordering O.KeyOrder.ordered };

    fn scope(body: &[u8]) -> Result<(u64, u64), Refusal> {
        Ok(Step::parse(body).ok_or(Refusal::Malformed)?.sets())
    }

    fn effect(body: &[u8], old: &[u8], new: &mut [u8]) -> Result<(), Refusal> {
        let step = Step::parse(body).ok_or(Refusal::Malformed)?;
        sized(step.sets(), old.len(), new.len())?;
        Ok(step.take::<O>(old, new)?)
    }
}
