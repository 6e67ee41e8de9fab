// What is known of a register.
ghost use Rattle.std.specs.Prelude.{◌≡◌, IfOk};

use po_arith::Interval;
use po_base::Memory;
use po_bases::Bases;
use po_interval::Members;

/// What is known of a register.
///
/// Lists in it are shared, so that a value is copied without asking for memory.
#[derive(Debug, Drop, PartialEq, Eq)]
pub struct AValue {
    /// It surely has a value.
    pub set: bool,
    /// Its value surely isn't 0 or null.
    pub nonzero: bool,
    /// Its value lies there; unbounded for a pointer.
    pub range: Interval,
    /// Its value is one of these; any for a pointer.
    pub members: Members,
    /// Its value is the argument of this number plus a number of this interval, of which at least one end is there.
    pub rel: Option<(u32, Interval)>,
    /// Where its value points; unknown for an integer.
    pub bases: Bases,
}

impl AValue {
    /// The same value once more, in constant time and without asking for memory. `Memory` where the count of
    /// a list's owners is full.
    pub fn share(&self) -> Result<AValue, Memory>
        ensures { IfOk result (λ value. value ≡ self.now) }
    {
        Ok(AValue {
            set: self.set,
            nonzero: self.nonzero,
            range: self.range,
            members: self.members.share()?,
            rel: self.rel,
            bases: self.bases.share()?,
        })
    }
}
