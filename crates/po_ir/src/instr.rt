// Instructions.
use po_arith::IntType;
use po_base::{FunNo, GlobalNo, LibNo, List, NodeNo, Op, Opnd, RegNo, SlotNo, StrNo, Text, UnOp};

/// The type of a register or of an access: an integer type, or a pointer.
#[derive(Clone, Copy, Debug, PartialEq, Eq)]
pub enum Ty {
    Int(IntType),
    Ptr,
}

/// How memory is read or written: as a value of this type, in so many bytes, at an address that the alignment divides.
#[derive(Clone, Copy, Debug, PartialEq, Eq)]
pub struct Access {
    pub ty: Ty,
    /// In bytes.
    pub size: u64,
    /// In bytes, at least 1.
    pub align: u64,
}

/// A variable of a function: one that is held in a register, or one that is held in memory.
#[derive(Clone, Copy, Debug, PartialEq, Eq)]
pub enum Local {
    Reg(RegNo),
    Slot(SlotNo),
}

/// What a call names.
#[derive(Debug, Drop)]
pub enum Callee {
    /// A function of the project.
    Fun(FunNo),
    /// A function of this name. In a unit every call names its function so; in a project no file defines it.
    Extern(Text),
}

/// Why a node is never to be reached.
#[derive(Clone, Copy, Debug, PartialEq, Eq)]
pub enum Reason {
    /// It stands for a function whose body isn't read.
    Unread,
    /// It is the end of a function that has to return a value (C99 6.9.1p12).
    End,
}

/// The instruction of a node. Where nothing else is said, the next node follows.
#[derive(Debug, Drop)]
pub enum Instr {
    /// `to` gets the number; 0 in a pointer register is the null pointer (C99 6.3.2.3p3).
    Const {
        to: RegNo,
        value: i128,
    },
    /// `to` gets the value of `from` (C99 6.5.16.1).
    Copy {
        to: RegNo,
        from: RegNo,
    },
    /// `to` gets the result of `a op b`, computed in the type `ty` (C99 6.5.5 to 6.5.12).
    Bin {
        to: RegNo,
        op: Op,
        ty: Ty,
        a: Opnd,
        b: Opnd,
    },
    /// `to` gets the result of `op a`, computed in the type `ty` (C99 6.5.3.3).
    Un {
        to: RegNo,
        op: UnOp,
        ty: IntType,
        a: Opnd,
    },
    /// `to` gets `from`, converted to the type `ty`; a pointer's new type has this alignment, in bytes (C99 6.3).
    Conv {
        to: RegNo,
        from: Opnd,
        ty: Ty,
        align: u64,
    },
    /// `to` gets a pointer to the start of the slot (C99 6.5.3.2).
    AddrSlot {
        to: RegNo,
        slot: SlotNo,
    },
    /// `to` gets a pointer to the start of the global (C99 6.5.3.2).
    AddrGlobal {
        to: RegNo,
        global: GlobalNo,
    },
    /// `to` gets a pointer to the start of the literal (C99 6.4.5).
    AddrStr {
        to: RegNo,
        text: StrNo,
    },
    /// `to` gets `base`, moved by `index` times `factor` bytes (C99 6.5.6p8).
    PtrAdd {
        to: RegNo,
        base: Opnd,
        index: Opnd,
        factor: i64,
    },
    /// `to` gets the distance of the two pointers in items of `size` bytes (C99 6.5.6p9).
    PtrDiff {
        to: RegNo,
        a: Opnd,
        b: Opnd,
        size: u64,
    },
    /// `to` gets what stands in memory there (C99 6.3.2.1p2).
    Load {
        to: RegNo,
        at: Opnd,
        access: Access,
    },
    /// The value is written to memory there (C99 6.5.16).
    Store {
        at: Opnd,
        value: Opnd,
        access: Access,
    },
    /// `size` bytes are copied, all at once, between places that the alignment divides (C99 6.5.16.1).
    CopyBytes {
        to: Opnd,
        from: Opnd,
        size: u64,
        align: u64,
    },
    /// The first `size` bytes of the slot become 0 (C99 6.7.8p21).
    Fill {
        slot: SlotNo,
        size: u64,
    },
    /// The variable comes to be, without a value (C99 6.2.4p5).
    Enter {
        what: Local,
    },
    /// The slot's variable ends (C99 6.2.4p5).
    Leave {
        slot: SlotNo,
    },
    /// The callee runs on the arguments, and `to` gets what it returns (C99 6.5.2.2).
    Call {
        to: Option<RegNo>,
        callee: Callee,
        args: List<Opnd>,
        /// The places of the arguments that a format of `printf` reads by `%s`.
        strings: List<u32>,
    },
    /// The same of a function of the C library.
    Lib {
        to: Option<RegNo>,
        lib: LibNo,
        args: List<Opnd>,
        /// The places of the arguments that a format of `printf` reads by `%s`.
        strings: List<u32>,
    },
    /// `yes` follows where `a op b`, a comparison in the type `ty`, holds, and otherwise `no` (C99 6.8.4).
    If {
        op: Op,
        ty: Ty,
        a: Opnd,
        b: Opnd,
        yes: NodeNo,
        no: NodeNo,
    },
    /// The named node follows (C99 6.8.6).
    Jump {
        next: NodeNo,
    },
    /// The function ends, with a value or without one (C99 6.8.6.4).
    Return {
        value: Option<Opnd>,
    },
    /// Nothing follows.
    Never {
        reason: Reason,
    },
}
