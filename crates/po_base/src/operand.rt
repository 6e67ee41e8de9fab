// Operands of instructions.
use crate::numbers::RegNo;

/// An operand of an instruction: the value of a register, or a number.
#[derive(Clone, Copy, Debug, PartialEq, Eq, Hash)]
pub enum Opnd {
    Reg(RegNo),
    Num(i128),
}
