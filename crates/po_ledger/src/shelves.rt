// Tables that a ledger keeps, by file.
ghost use Rattle.std.specs.Prelude.{◌≡◌, ◌<◌, [], length, replicate, slice_get, slice_set, Some, IfOk};

use crate::per_function::PerFunction;
use po_base::{FileNo, Memory};
use std::alloc::Global;
use std::mem;

/// A place for each file, for the tables of its functions.
pub(crate) fn empty_shelves<T: Drop>(
    alloc: Global,
    files: u32,
) -> Result<Vec<PerFunction<T>>, Memory>
    ensures { IfOk result (λ shelves. shelves.items ≡ replicate files []) }
{
    let mut shelves = Vec::new(alloc);
    for made in 0..files {
        match shelves.push(PerFunction::new(alloc)) {
            Ok(()) => {}
            Err(_) => return Err(Memory),
        }
    }
    Ok(shelves)
}

/// Puts tables to a file's place, and hands out those that were there.
pub(crate) fn swap_shelf<T: Drop>(
    shelves: &mut Vec<PerFunction<T>>,
    file: FileNo,
    tables: PerFunction<T>,
) -> PerFunction<T>
    requires { file.0 < length shelves.old.items }
    ensures after { shelves.new.items ≡ slice_set shelves.old.items file.0 tables }
    ensures before { slice_get shelves.old.items file.0 ≡ Some result }
{
    mem::replace(&mut shelves[file.0 as usize], tables)
}

/// Lets go of the tables at a file's place.
pub(crate) fn clear_shelf<T: Drop>(shelves: &mut Vec<PerFunction<T>>, file: FileNo)
    requires { file.0 < length shelves.old.items }
    ensures { shelves.new.items ≡ slice_set shelves.old.items file.0 [] }
{
    shelves[file.0 as usize].clear();
}
