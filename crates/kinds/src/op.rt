// An operation on whole pages.
#[derive(Clone, Copy, PartialEq, Eq, Debug)]
pub enum Op<'a> {
    // The bytes are the part of the body that holds them.
    Patch {
        page: u8,
        offset: u8,
        bytes: &'a [u8],
    },
    Fill {
        page: u8,
        byte: u8,
    },
    Copy {
        from: u8,
        to: u8,
        count: u8,
    },
    Swap {
        a: u8,
        b: u8,
    },
}
