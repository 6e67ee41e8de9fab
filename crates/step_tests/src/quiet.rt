ghost use Rattle.std.specs.Prelude.{[]};
ghost use Rattle.step_tests.specs.Bare.{signatures};

use po_base::{LibNo, List, Memory, Opnd};
use po_gen::Library;
use po_ir::Ty;
use po_meaning::Ending;
use po_memory::{Memory2, Value};
use po_pred::Pred;
use po_step::Outcomes;
use std::alloc::Global;

/// A library of one function, which nothing calls.
pub(crate) struct Quiet;

impl Library for Quiet {
    ghost meaning = { λ it lib args strings. [] };

    fn required(
        &self,
        alloc: Global,
        _lib: LibNo,
        _args: &[Opnd],
        _strings: &[u32],
    ) -> Result<List<Pred>, Memory> {
        Ok(List::new(alloc))
    }
}

impl Outcomes for Quiet {
    ghost signatures = { λ it. signatures };

    ghost outcomes = { λ it lib values before ending after. ⊥ };

    fn parameters(&self, _lib: LibNo) -> &[Ty] {
        &[]
    }

    fn outcome(
        &self,
        _alloc: Global,
        _lib: LibNo,
        _args: &[Value],
        _m: &mut Memory2,
    ) -> Result<Ending, Memory> {
        Err(Memory)
    }
}
