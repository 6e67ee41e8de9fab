ghost use Rattle.std.specs.Prelude.{◌≡◌, IfOk};
ghost use Rattle.meaning_tests.specs.Freeing.{start_asked, starts_asked};

use po_base::{LibNo, List, Memory, Opnd};
use po_gen::Library;
use po_pred::{Atom, Place, Pred};
use std::alloc::Global;

/// A library whose functions take starts of heap blocks.
pub(crate) struct Freeing;

fn start(operand: &Opnd) -> Pred
    ensures { result ≡ start_asked operand.now }
{
    match *operand {
        Opnd::Reg(register) => Pred::HeapStart {
            p: Place {
                atom: Some(Atom::Reg(register)),
                lo: 0,
                hi: 0,
            },
        },
        Opnd::Num(n) => Pred::HeapStart {
            p: Place {
                atom: None,
                lo: n,
                hi: n,
            },
        },
    }
}

impl Library for Freeing {
    ghost meaning = { λ it. starts_asked };

    fn required(
        &self,
        alloc: Global,
        _lib: LibNo,
        args: &[Opnd],
        _strings: &[u32],
    ) -> Result<List<Pred>, Memory> {
        let mut list = List::new(alloc);
        for operand in args {
            list.push(start(operand))?;
        }
        Ok(list)
    }
}
