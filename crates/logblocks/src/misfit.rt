// Why nothing is written into a block.
#[derive(Clone, Copy, Debug, PartialEq, Eq)]
pub enum Misfit {
    // The block has not 256 bytes.
    BlockLength,
    // A record's body is above 232 bytes.
    BodyLength,
    // A header would name 0 as its first number.
    FirstZero,
}
