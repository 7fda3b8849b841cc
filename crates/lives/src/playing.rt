// One call of a volume, made and answered.
ghost use Rattle.std.specs.Prelude.{◌≡◌, List};
ghost use Rattle.media.specs.declared.fate.Fate.{Fate};
ghost use Rattle.lives.specs.Books.{Event};
ghost use Rattle.lives.specs.Books.Event.{run, force, flush, trim, stop, mount};
ghost use Rattle.lives.specs.Lives.{Steps};
ghost use Rattle.lives.specs.Answers.{written_as};
ghost use Rattle.lives.specs.Replays.{state_over, down_state, up_state, reported, Plays};

use crate::answer::{Answer, Refused};
use crate::any_volume::AnyVolume;
use crate::call::Call;
use faults::Fault;
use kinds::Kind;
use media::Medium;
use stores::PageStore;
use volume::{Down, Up};

// An answer as it is written down.
fn written(answer: Result<u32, Fault>) -> Answer
    ensures { result ≡ written_as answer }
{
    Ok(u64::from(answer?))
}

// The calls of an up volume that leave it up, each as a call of a life.
fn run<K: Kind, L: Medium, S: PageStore>(
    volume: &mut Up<K, L, S>,
    body: &[u8],
) -> Result<u32, Fault>
    ensures { Steps K.Kind.meaning (up_state L.Medium S.PageStore volume.old) (run body.now (reported result)) (up_state L.Medium S.PageStore volume.new) }
{
    volume.run(body)
}

fn force<K: Kind, L: Medium, S: PageStore>(volume: &mut Up<K, L, S>) -> Result<u32, Fault>
    ensures { (fate : Fate) × Steps K.Kind.meaning (up_state L.Medium S.PageStore volume.old) (force (reported result) fate) (up_state L.Medium S.PageStore volume.new) }
{
    volume.force()
}

fn flush<K: Kind, L: Medium, S: PageStore>(
    volume: &mut Up<K, L, S>,
    page: u32,
) -> Result<u32, Fault>
    ensures { Steps K.Kind.meaning (up_state L.Medium S.PageStore volume.old) (flush page (reported result)) (up_state L.Medium S.PageStore volume.new) }
{
    volume.flush(page)
}

fn trim<K: Kind, L: Medium, S: PageStore>(volume: &mut Up<K, L, S>) -> Result<u32, Fault>
    ensures { Steps K.Kind.meaning (up_state L.Medium S.PageStore volume.old) (trim (reported result)) (up_state L.Medium S.PageStore volume.new) }
{
    volume.trim()
}

// A mount, as a call of a life.
fn mount<K: Kind, L: Medium, S: PageStore>(
    volume: Down<K, L, S>,
) -> (Up<K, L, S>, Result<u32, Fault>)
    ensures { Steps K.Kind.meaning (down_state L.Medium S.PageStore volume) (mount (reported result.1)) (up_state L.Medium S.PageStore result.0) }
{
    let (volume, redone) = volume.mount();
    let answer = volume.fault().map_or(Ok(redone), Err);
    (volume, answer)
}

// A stop, as a call of a life.
fn stop<K: Kind, L: Medium, S: PageStore>(volume: Up<K, L, S>) -> (Down<K, L, S>, u64)
    ensures { Steps K.Kind.meaning (up_state L.Medium S.PageStore volume) (stop result.1) (down_state L.Medium S.PageStore result.0) }
{
    let (volume, dropped) = volume.stop();
    (volume, dropped as u64)
}

// A call of a volume that is up.
fn play_up<K: Kind, L: Medium, S: PageStore>(
    volume: Up<K, L, S>,
    call: Call,
) -> (AnyVolume<K, L, S>, Answer)
    ensures { (new : List Event) × Plays K.Kind.meaning (up_state L.Medium S.PageStore volume) call.entry result.1 new (state_over L.Medium S.PageStore result.0) }
{
    let mut volume = volume;
    let answer = match call {
        Call::Run(body) => run(&mut volume, body),
        Call::Force => force(&mut volume),
        Call::Flush(page) => flush(&mut volume, page),
        Call::Trim => trim(&mut volume),
        Call::Stop => {
            let (volume, dropped) = stop(volume);
            return (AnyVolume::Down(volume), Ok(dropped));
        }
        Call::Mount => return (AnyVolume::Up(volume), Err(Refused::OutOfTurn)),
    };
    (AnyVolume::Up(volume), written(answer))
}

// A call of a volume that is down.
fn play_down<K: Kind, L: Medium, S: PageStore>(
    volume: Down<K, L, S>,
    call: Call,
) -> (AnyVolume<K, L, S>, Answer)
    ensures { (new : List Event) × Plays K.Kind.meaning (down_state L.Medium S.PageStore volume) call.entry result.1 new (state_over L.Medium S.PageStore result.0) }
{
    match call {
        Call::Mount => {
            let (volume, answer) = mount(volume);
            (AnyVolume::Up(volume), written(answer))
        }
        _ => (AnyVolume::Down(volume), Err(Refused::OutOfTurn)),
    }
}

// Makes a call of a volume, and answers it; a call that the volume does not take in its state is out of turn, and nothing is done.
pub fn play<K: Kind, L: Medium, S: PageStore>(
    volume: AnyVolume<K, L, S>,
    call: Call,
) -> (AnyVolume<K, L, S>, Answer)
    ensures { (new : List Event) × Plays K.Kind.meaning (state_over L.Medium S.PageStore volume) call.entry result.1 new (state_over L.Medium S.PageStore result.0) }
{
    match volume {
        AnyVolume::Down(volume) => play_down(volume, call),
        AnyVolume::Up(volume) => play_up(volume, call),
    }
}
