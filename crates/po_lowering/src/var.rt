// Where variables are kept.
use po_base::{GlobalNo, RegNo, SlotNo};

/// Where a variable that a name names is kept.
#[derive(Clone, Copy, Debug, PartialEq, Eq)]
pub enum Var {
    Reg(RegNo),
    Slot(SlotNo),
    Global(GlobalNo),
}
