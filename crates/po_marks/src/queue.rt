// What waits in a file, and whether a worker holds it.
ghost use Rattle.std.specs.Prelude.{◌≡◌, ◌<◌, [], false, length, replicate, slice_get, slice_set, Some, IfOk, OnOk, OnErr};
ghost use Rattle.po_core.specs.declared.obl.Obl.{Obl};
ghost use Rattle.po_marks.specs.Waiting.{free, is_ready, lengthened};
ghost use Rattle.po_marks.specs.declared.queue.Queue.{Queue};

use po_base::{FileNo, List, Memory};
use po_core::Obl;
use std::alloc::Global;
use std::mem;

/// What waits in a file: what was put back, and what became known since; and whether a worker holds the file.
#[derive(Drop)]
pub struct Queue<P> {
    pub(crate) back: List<Obl<P>>,
    pub(crate) fresh: List<Obl<P>>,
    pub(crate) is_held: bool,
}

/// The queue of a file in which nothing waits. It takes no memory.
pub(crate) fn empty_queue<P>(alloc: Global, is_held: bool) -> Queue<P>
    ensures { result ≡ record { back = []; fresh = []; is_held = is_held } }
{
    Queue {
        back: List::new(alloc),
        fresh: List::new(alloc),
        is_held,
    }
}

/// A queue for each file, in which nothing waits and which nobody holds.
pub(crate) fn empty_queues<P: Copy>(alloc: Global, files: u32) -> Result<Vec<Queue<P>>, Memory>
    ensures { IfOk result (λ queues. queues.items ≡ replicate files (record { back = []; fresh = []; is_held = false })) }
{
    let mut queues = Vec::new(alloc);
    for made in 0..files {
        match queues.push(empty_queue(alloc, false)) {
            Ok(()) => {}
            Err(_) => return Err(Memory),
        }
    }
    Ok(queues)
}

/// Whether a file can be taken: nobody holds it, and something waits in it.
pub(crate) fn is_ready<P: Copy>(queue: &Queue<P>) -> bool
    ensures { result ≡ is_ready queue.now }
{
    !queue.is_held && (!queue.back.is_empty() || !queue.fresh.is_empty())
}

/// A file's queue, in constant time.
pub(crate) fn queue_at<P: Copy>(queues: &Vec<Queue<P>>, file: FileNo) -> &Queue<P>
    requires { file.0 < length queues.now.items }
    ensures { slice_get queues.now.items file.0 ≡ Some result.now }
{
    &queues[file.0 as usize]
}

/// Puts an item to the end of a queue. After `Memory` nothing has changed.
fn push<P: Copy>(queue: &mut Queue<P>, o: Obl<P>) -> Result<(), Memory>
    ensures ok { OnOk result (queue.new ≡ lengthened queue.old o) }
    ensures err { OnErr result (queue.new ≡ queue.old) }
{
    queue.fresh.push(o)
}

/// Puts an item to the end of a file's queue, in constant time on the average. After `Memory` nothing has changed.
pub(crate) fn push_fresh<P: Copy>(
    queues: &mut Vec<Queue<P>>,
    file: FileNo,
    o: Obl<P>,
) -> Result<(), Memory>
    requires { file.0 < length queues.old.items }
    ensures ok { OnOk result ((q : Queue P) → slice_get queues.old.items file.0 ≡ Some q → queues.new.items ≡ slice_set queues.old.items file.0 (lengthened q o)) }
    ensures err { OnErr result (queues.new.items ≡ queues.old.items) }
{
    push(&mut queues[file.0 as usize], o)
}

/// Takes the last item out of a queue again, in constant time.
fn pop<P: Copy>(queue: &mut Queue<P>)
    ensures { (q : Queue P) (o : Obl P) → queue.old ≡ lengthened q o → queue.new ≡ q }
{
    let _last = queue.fresh.pop();
}

/// Takes the last item out of a file's queue again, in constant time.
pub(crate) fn pop_fresh<P: Copy>(queues: &mut Vec<Queue<P>>, file: FileNo)
    requires { file.0 < length queues.old.items }
    ensures { (q : Queue P) (o : Obl P) → slice_get queues.old.items file.0 ≡ Some (lengthened q o) → queues.new.items ≡ slice_set queues.old.items file.0 q }
{
    pop(&mut queues[file.0 as usize])
}

/// Puts a queue to a file's place, and hands out the one that was there.
pub(crate) fn swap_queue<P: Copy>(
    queues: &mut Vec<Queue<P>>,
    file: FileNo,
    queue: Queue<P>,
) -> Queue<P>
    requires { file.0 < length queues.old.items }
    ensures after { queues.new.items ≡ slice_set queues.old.items file.0 queue }
    ensures before { slice_get queues.old.items file.0 ≡ Some result }
{
    mem::replace(&mut queues[file.0 as usize], queue)
}

/// Makes a queue that of a file that nobody holds.
fn free<P: Copy>(queue: &mut Queue<P>)
    ensures { queue.new ≡ free queue.old }
{
    queue.is_held = false;
}

/// Makes a file one that nobody holds, in constant time.
pub(crate) fn free_queue<P: Copy>(queues: &mut Vec<Queue<P>>, file: FileNo)
    requires { file.0 < length queues.old.items }
    ensures { (q : Queue P) → slice_get queues.old.items file.0 ≡ Some q → queues.new.items ≡ slice_set queues.old.items file.0 (free q) }
{
    free(&mut queues[file.0 as usize]);
}

/// Puts items back into a queue, in which nothing was put back before, and makes it that of a file that nobody holds.
fn refill<P: Copy>(queue: &mut Queue<P>, items: List<Obl<P>>)
    ensures { queue.new ≡ record { back = items; fresh = queue.old.fresh; is_held = false } }
{
    queue.back = items;
    queue.is_held = false;
}

/// Puts items back into a file's queue, in which nothing was put back before, and makes the file one that nobody holds. It takes no
/// memory, and constant time.
pub(crate) fn put_to_back<P: Copy>(queues: &mut Vec<Queue<P>>, file: FileNo, items: List<Obl<P>>)
    requires { file.0 < length queues.old.items }
    ensures { (q : Queue P) → slice_get queues.old.items file.0 ≡ Some q → queues.new.items ≡ slice_set queues.old.items file.0 (record { back = items; fresh = q.fresh; is_held = false }) }
{
    refill(&mut queues[file.0 as usize], items);
}
