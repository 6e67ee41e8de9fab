// The known obligations with their marks, with what waits in each file and which files can be taken.
ghost use Rattle.std.specs.Prelude.{◌≡◌, ◌<◌, ◌≤◌, ◌+◌, [], ◌∷◌, List, false, length, replicate, MatchOption, IfOk};
ghost use Rattle.po_base.specs.declared.numbers.FileNo.{FileNo};
ghost use Rattle.po_marks.specs.Waiting.{waiting_count};

use crate::entries::Entries;
use crate::line::{Line, empty_line};
use crate::queue::{Queue, empty_queues};
use indexmap::IndexMap;
use po_base::{FileNo, Memory};
use po_core::{Mark, Obl};
use std::alloc::Global;
use std::hash::Hash;
use std::marker::Model;

/// The known obligations with their marks, in the order in which they became known, what waits in each file, and which files can
/// be taken.
#[derive(Drop)]
pub struct Marks<P: Copy + Eq + Hash, N: Copy> {
    pub(crate) known: IndexMap<Obl<P>, Mark<P, N>>,
    pub(crate) queues: Vec<Queue<P>>,
    pub(crate) line: Line,
    pub(crate) untaken: usize,
}

impl<P: Copy + Eq + Hash, N: Copy> Model for Marks<P, N> {
    ghost use Rattle.std.specs.Prelude.{◌≡◌, ◌≤◌, length};
    ghost use Rattle.std.specs.VecDeque.{deque_capacity};
    ghost use Rattle.po_marks.specs.Waiting.{Marking, waiting_count};

    ghost Value = { Marking P N };

    ghost view = { λ m. record { items = m.known.entries; queues = m.queues.items; line = m.line.items } };

    ghost invariant = { λ m. (m.untaken ≡ waiting_count m.queues.items) × (length m.queues.items ≤ deque_capacity m.line) };
}

impl<P: Copy + Eq + Hash, N: Copy> Marks<P, N> {
    /// Nothing is known, of so many files.
    pub(crate) fn new(alloc: Global, files: u32) -> Result<Marks<P, N>, Memory>
        ensures items { IfOk result (λ m. m.items ≡ []) }
        ensures queues { IfOk result (λ m. m.queues ≡ replicate files (record { back = []; fresh = []; is_held = false })) }
        ensures line { IfOk result (λ m. m.line ≡ []) }
    {
        Ok(Marks {
            known: IndexMap::new(alloc),
            queues: empty_queues(alloc, files)?,
            line: empty_line(alloc, files)?,
            untaken: 0,
        })
    }

    /// The known obligations with their marks, in constant time.
    pub fn known(&self) -> &Entries<P, N>
        ensures { result.now.entries ≡ self.now.items }
    {
        &self.known
    }

    /// How many obligations wait in the files, in constant time.
    pub fn waiting_count(&self) -> usize
        ensures { result ≡ waiting_count self.now.queues }
    {
        self.untaken
    }

    /// The file that can be taken for the longest time, where one can be, in constant time.
    pub fn first_in_line(&self) -> Option<FileNo>
        ensures { MatchOption result (self.now.line ≡ []) (λ file. (rest : List FileNo) × (self.now.line ≡ file ∷ rest)) }
    {
        if self.line.is_empty() {
            return None;
        }
        Some(self.line[0])
    }
}

/// A count with more to it, of obligations that are known.
pub(crate) fn counted(count: usize, more: usize, known: usize) -> usize
    requires { count + more ≤ known }
    ensures { result ≡ count + more }
{
    let _most = known;
    count + more
}
