// The numbers at which intervals end.
use po_base::OrdList;

/// The numbers at which intervals of a function end: at the heads of its loops only the coarse ones, and
/// elsewhere also all of -65,536..65,536.
#[derive(Drop)]
pub struct Thresholds {
    pub coarse: OrdList<i128>,
}
