// A log that has the blocks of a volume's log, to be read.
ghost use Rattle.std.specs.Prelude.{◌≤◌};
ghost use Rattle.media.specs.Media.{block_count};

use media::Medium;

#[derive(Drop)]
pub(crate) struct LogReader<'a, L: Medium> {
    pub(crate) log: &'a L,
    ghost long: { 129 ≤ block_count (L.Medium.model log.now) },
}
