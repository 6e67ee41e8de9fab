// The types of C (C99 6.2.5).
ghost use Rattle.std.specs.Prelude.{◌≡◌, IfOk};

use crate::shared::Shared;
use po_arith::IntType;
use po_base::{List, Memory};

/// A type of C (C99 6.2.5) without its qualifiers.
pub enum CType {
    Void,
    Int(IntType),
    Ptr(Shared<CType>),
    /// An array, and how many elements it has where that is known.
    Array(Shared<CType>, Option<u64>),
    /// The struct of this number.
    Struct(u32),
    /// A function: its result, its parameters, and whether it takes further arguments.
    Fun(Shared<CType>, Shared<List<CType>>, bool),
}

impl Drop for CType {
    fn drop(mut self) {
        loop {
            match self {
                CType::Void => return,
                CType::Int(_) => return,
                CType::Struct(_) => return,
                CType::Ptr(to) => match to.into_inner() {
                    Some(inner) => self = inner,
                    None => return,
                },
                CType::Array(to, _) => match to.into_inner() {
                    Some(inner) => self = inner,
                    None => return,
                },
                CType::Fun(to, params, _) => {
                    drop(params);
                    match to.into_inner() {
                        Some(inner) => self = inner,
                        None => return,
                    }
                }
            }
        }
    }
}

impl CType {
    /// The same type once more, in constant time. `Memory` where a count of owners is full.
    pub fn share(&self) -> Result<CType, Memory>
        ensures { IfOk result (λ t. t ≡ self.now) }
    {
        match self {
            CType::Void => Ok(CType::Void),
            CType::Int(t) => Ok(CType::Int(*t)),
            CType::Struct(n) => Ok(CType::Struct(*n)),
            CType::Ptr(to) => Ok(CType::Ptr(to.share()?)),
            CType::Array(element, n) => Ok(CType::Array(element.share()?, *n)),
            CType::Fun(to, params, more) => Ok(CType::Fun(to.share()?, params.share()?, *more)),
        }
    }
}
