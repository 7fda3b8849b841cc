// Numbers in bytes, low byte first, at a place in a slice. What lies past the slice's end reads as 0 and is not written.
ghost use Rattle.std.specs.Prelude.{◌≡◌, ℕ, ◌-◌, min, length};
ghost use Rattle.sets.specs.Words.{number, bytes_of, part, over};

// A number that takes `width` bytes.
pub trait Number: Copy {
    ghost width: { ℕ };

    ghost value: { Self → ℕ };

    // The number in the bytes from place `at` on.
    fn read_at(bytes: &[u8], at: usize) -> Self
        ensures { value result ≡ number (part at width bytes.now) };

    // Writes the number into the bytes from place `at` on.
    fn write_at(self, bytes: &mut [u8], at: usize)
        ensures { bytes.new ≡ over at (bytes_of width (value self)) bytes.old };
}

impl Number for u32 {
    ghost width = { 4 };

    ghost value = { λ n. n };

    fn read_at(bytes: &[u8], at: usize) -> u32 {
        u32::from_le_bytes(bytes_at(bytes, at))
    }

    fn write_at(self, bytes: &mut [u8], at: usize) {
        put(bytes, at, &u32::to_le_bytes(self));
    }
}

impl Number for u64 {
    ghost width = { 8 };

    ghost value = { λ n. n };

    fn read_at(bytes: &[u8], at: usize) -> u64 {
        u64::from_le_bytes(bytes_at(bytes, at))
    }

    fn write_at(self, bytes: &mut [u8], at: usize) {
        put(bytes, at, &u64::to_le_bytes(self));
    }
}

// How many of the k bytes from place `at` on lie in a slice of `len` bytes.
fn room(len: usize, at: usize, k: usize) -> usize
    ensures { result ≡ min k (len - at) }
{
    k.min(len.saturating_sub(at))
}

// The N bytes from place `at` on, with zeros for those past the slice's end.
fn bytes_at<const N: usize>(bytes: &[u8], at: usize) -> [u8; N]
    ensures { number result ≡ number (part at N bytes.now) }
{
    let from = at.min(bytes.len());
    let n = room(bytes.len(), at, N);
    let mut word = [0u8; N];
    let whole = &mut word[..];
    whole[0..n].copy_from_slice(&bytes[from..from + n]);
    word
}

// Writes a word's bytes from place `at` on.
fn put(bytes: &mut [u8], at: usize, word: &[u8])
    ensures { bytes.new ≡ over at word.now bytes.old }
{
    let from = at.min(bytes.len());
    let n = room(bytes.len(), at, word.len());
    bytes[from..from + n].copy_from_slice(&word[0..n]);
}
