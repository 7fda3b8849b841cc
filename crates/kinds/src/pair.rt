// A pair of two kinds: the first byte of a body chooses the kind of the rest.
ghost use Rattle.std.specs.Prelude.{refl};
ghost use Rattle.kinds.specs.Pairs.{pair_meaning};
ghost use Rattle.kinds.specs.PairLaws.{pair_lawful};

use crate::kind::Kind;
use crate::refusal::Refusal;
use std::marker::PhantomData;

pub struct Pair<A, B> {
    kinds: PhantomData<(A, B)>,
}

impl<A: Kind, B: Kind> Kind for Pair<A, B> {
    const LIMIT: u32 = 4;

    ghost LIMIT = { 4 };

    ghost meaning = { pair_meaning A.Kind.meaning B.Kind.meaning };

    ghost limit_is = { refl };

    ghost lawful = { pair_lawful A.Kind.meaning B.Kind.meaning A.Kind.lawful B.Kind.lawful };

    fn scope(body: &[u8]) -> Result<(u64, u64), Refusal> {
        match body {
            [1, rest @ ..] => A::scope(rest),
            [2, rest @ ..] => B::scope(rest),
            _ => Err(Refusal::Malformed),
        }
    }

    fn effect(body: &[u8], old: &[u8], new: &mut [u8]) -> Result<(), Refusal> {
        match body {
            [1, rest @ ..] => A::effect(rest, old, new),
            [2, rest @ ..] => B::effect(rest, old, new),
            _ => Err(Refusal::Malformed),
        }
    }
}
