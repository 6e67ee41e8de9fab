// Integer types by width and sign (C99 6.2.5).

/// An integer type of the target (C99 6.2.5): its width in bits (1, 8, 16, 32 or 64) and whether it is signed.
/// `_Bool` is the unsigned type of 1 bit.
#[derive(Clone, Copy, Debug, PartialEq, Eq)]
pub struct IntType {
    pub bits: u8,
    pub signed: bool,
}

impl IntType {
    /// The type `int`.
    pub const INT: IntType = IntType {
        bits: 32,
        signed: true,
    };
}
