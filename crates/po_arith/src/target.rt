// The targets that programs are compiled for.

/// What a program is compiled for: the sizes, ranges and alignments of its types (C99 6.2.5, 6.2.6.2).
#[derive(Clone, Copy, Debug, PartialEq, Eq)]
pub enum Target {
    /// char of 8 bits and signed, short of 16, int of 32, long, long long and pointers of 64; little-endian two's
    /// complement.
    L64,
}
