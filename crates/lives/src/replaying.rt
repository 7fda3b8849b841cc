// A life of a volume, made call by call.
ghost use Rattle.std.specs.Prelude.{◌≡◌, ◌<◌, min, List, length, take, drop, slice_index_or};
ghost use Rattle.volume.specs.Models.{down_over};
ghost use Rattle.lives.specs.Replays.{state_over, Replays, Replay};

use crate::answer::Answer;
use crate::any_volume::AnyVolume;
use crate::call::Call;
use crate::playing::play;
use faults::Fault;
use kinds::Kind;
use media::Medium;
use stores::PageStore;
use volume::Down;

// Makes the calls of a list, in order, and writes each answer to its place, as long as there are places.
fn play_all<K: Kind, L: Medium, S: PageStore>(
    volume: AnyVolume<K, L, S>,
    calls: &[Call],
    answers: &mut [Answer],
) -> (AnyVolume<K, L, S>, usize)
    ensures count { result.1 ≡ min (length calls.now) (length answers.old) }
    ensures rest { drop result.1 answers.new ≡ drop result.1 answers.old }
    ensures played { Replays K.Kind.meaning (state_over L.Medium S.PageStore volume) (take result.1 calls.now) (take result.1 answers.new) (state_over L.Medium S.PageStore result.0) }
{
    let n = calls.len().min(answers.len());
    let mut volume = volume;
    // Kept: tried: behind a zip over iter_mut a proof knows nothing of what was written, so the answers are written by index.
    for (i, call) in calls[..n].iter().enumerate() {
        let (next, answer) = play(volume, *call);
        volume = next;
        answers[i] = answer;
    }
    (volume, n)
}

// Formats a volume with a first number, then makes the calls of a list, as many as there are places for answers, and writes each answer to
// its place. Exactly these calls and answers are a life, and the law holds at every point of it. Answers the volume, and how many calls
// were made; or the fault for which the format was refused.
pub fn replay<K: Kind, L: Medium, S: PageStore>(
    volume: Down<K, L, S>,
    first: u32,
    calls: &[Call],
    answers: &mut [Answer],
) -> (AnyVolume<K, L, S>, Result<usize, Fault>)
    ensures { Replay K.Kind.meaning first (down_over L.Medium S.PageStore volume) calls.now answers.old result.1 answers.new (state_over L.Medium S.PageStore result.0) }
{
    let mut volume = volume;
    match volume.format(first) {
        Ok(()) => {
            let (volume, n) = play_all(AnyVolume::Down(volume), calls, answers);
            (volume, Ok(n))
        }
        Err(fault) => (AnyVolume::Down(volume), Err(fault)),
    }
}
