// Values of registers, and bytes of memory.

/// The value of a register or of an argument.
#[derive(Clone, Copy, Debug, PartialEq, Eq)]
pub enum Value {
    Number(i128),
    /// The null pointer (C99 6.3.2.3p3).
    Null,
    /// A pointer so many bytes from the start of a block. It may lie outside the block.
    Pointer { block: u64, offset: i128 },
    /// A pointer of which nothing is known, read out of bytes that aren't those of one pointer.
    Wild,
}

/// A byte of memory (C99 6.2.6.1).
#[derive(Clone, Copy, Debug, PartialEq, Eq)]
pub enum Byte {
    /// It has no value yet.
    Blank,
    Number(u8),
    /// The k-th byte of a pointer.
    Part { block: u64, offset: i128, k: u8 },
}
