// Predicates: what has to hold at a node.
use po_base::RegNo;

/// What a place stands on: a register of the frame, or an argument at the function's entry, counted from 0.
#[derive(Clone, Copy, Debug, PartialEq, Eq, PartialOrd, Ord, Hash)]
pub enum Atom {
    Reg(RegNo),
    Param(u32),
}

/// Every value of the atom moved by a number of `lo..hi`, or without an atom every number of `lo..hi`.
#[derive(Clone, Copy, Debug)]
pub struct Place {
    pub atom: Option<Atom>,
    pub lo: i128,
    pub hi: i128,
}

/// The operator of an overflow predicate (C99 6.5p5).
#[derive(Clone, Copy, Debug, PartialEq, Eq, Hash)]
pub enum Over {
    /// C99 6.5.6p5.
    Add,
    /// C99 6.5.6p6.
    Sub,
    /// C99 6.5.5p4.
    Mul,
    /// C99 6.5.5p6: the quotient of the least number by -1 leaves the type.
    Div,
    /// C99 6.5.5p6: as for `Div`, of whose quotient the remainder is told.
    Rem,
    /// C99 6.5.7p4: a left shift of a number that isn't negative.
    Shl,
    /// C99 6.5.3.3p3.
    Neg,
}

/// Why a node is never to be reached.
#[derive(Clone, Copy, Debug, PartialEq, Eq, Hash)]
pub enum Why {
    /// The function's body is outside the language that is read.
    Unread,
    /// The closing brace of a function that returns a value (C99 6.9.1p12).
    End,
    /// The called function has no body in the project.
    Extern,
}

/// By what an obligation is closed.
#[derive(Clone, Copy, Debug, PartialEq, Eq, Hash)]
pub enum Rule {
    /// No run reaches the node.
    Dead,
    /// The ranges of the values.
    Range,
    /// The few values that there are.
    Values,
    /// The register has a value.
    Set,
    /// The blocks that a pointer may point into.
    Base,
    /// The string literals that a pointer may point into.
    Literal,
}

/// A predicate on the values at a node. It holds where it holds for every choice of its places; each place's `lo` is
/// at most its `hi`. The fields `p` and `q` are pointers, all other places numbers.
#[derive(Clone, Copy, Debug)]
pub enum Pred {
    /// The pointer isn't null (C99 6.5.3.2p4).
    NotNull {
        p: Place,
    },
    /// The pointer's block is alive (C99 6.2.4p2).
    Live {
        p: Place,
    },
    /// The bytes from `factor` times `lo` up to `factor` times `hi` behind the pointer lie in its block, of which one
    /// past the last is a place too (C99 6.5.6p8).
    Span {
        p: Place,
        factor: i64,
        lo: Place,
        hi: Place,
    },
    /// No byte from `factor` times `lo` up to, not including, `factor` times `hi` behind the pointer is
    /// uninitialised (C99 6.2.4p5, 6.7.8p10).
    Filled {
        p: Place,
        factor: i64,
        lo: Place,
        hi: Place,
    },
    /// The register has a value (C99 6.3.2.1p2).
    RegSet {
        v: RegNo,
    },
    /// The pointer's block may be written to (C99 6.4.5p6, 6.7.3p5).
    Writable {
        p: Place,
    },
    /// The value isn't 0 (C99 6.5.5p5).
    Nonzero {
        x: Place,
    },
    /// The result of `a op b` fits the signed type of this width, 32 or 64 (C99 6.5p5). `b` is missing for `Neg` alone.
    NoOver {
        op: Over,
        bits: u8,
        a: Place,
        b: Option<Place>,
    },
    /// The value lies in `lo..hi` (C99 6.3.1.3p3, 6.5.7p3).
    IntIn {
        x: Place,
        lo: i128,
        hi: i128,
    },
    /// The pointer is a multiple of `a` bytes from the start of a block that is aligned to `a` (C99 6.3.2.3p7).
    Aligned {
        p: Place,
        a: u64,
    },
    /// Both pointers point into one block (C99 6.5.6p9, 6.5.8p5).
    SameBlock {
        p: Place,
        q: Place,
    },
    /// The pointer is the start of a block that was allocated and not freed (C99 7.20.3.2p2).
    HeapStart {
        p: Place,
    },
    /// A string stands at the pointer (C99 7.1.1p1).
    Terminated {
        p: Place,
    },
    /// `n` bytes from the one pointer on and `n` bytes from the other have no byte in common (C99 7.21.2.1p2).
    Apart {
        p: Place,
        q: Place,
        n: Place,
    },
    /// The string at `q`, with its zero byte, fits behind `p` (C99 7.21.2.3p2).
    RoomFor {
        p: Place,
        q: Place,
    },
    /// The node is never reached.
    Never {
        why: Why,
    },
}
