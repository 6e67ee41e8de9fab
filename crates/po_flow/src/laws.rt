// Laws of least closed tables.
ghost use Rattle.std.specs.Prelude.{◌≡◌, List};
ghost use Rattle.po_flow.specs.Least.{IsLeast};

use crate::flow::Flow;

/// A flow has one least closed table. It does nothing.
pub fn least_table_is_one<F: Flow>(flow: &F)
    ensures { (t u : List F.State) → IsLeast (F.meaning flow.now) (F.proper flow.now) t → IsLeast (F.meaning flow.now) (F.proper flow.now) u → t ≡ u }
{
    let _flow = flow;
}
