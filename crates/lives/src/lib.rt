// Lives of a volume: what the calls make of it from an accepted format on, and the law that holds at every point of every life. The
// definitions stand in specs/, the proofs in proofs/; `replay` makes the calls of a list and owes the law.
#![tactic(auto)]

mod answer;
mod any_volume;
mod call;
mod law;
mod playing;
mod replaying;

pub use answer::{Answer, Refused};
pub use any_volume::AnyVolume;
pub use call::Call;
pub use law::law_holds;
pub use playing::play;
pub use replaying::replay;
