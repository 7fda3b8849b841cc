// Bytes that stand for nothing.
ghost use Rattle.std.specs.Prelude.{◌≡◌};
ghost use Rattle.logblocks.specs.Blocks.{zeros};

// Whether all bytes are zero.
pub fn all_zero(bytes: &[u8]) -> bool
    ensures { result ≡ zeros bytes.now }
{
    bytes.iter().all(|b| *b == 0)
}
