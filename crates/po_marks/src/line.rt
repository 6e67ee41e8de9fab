// The line of the files that can be taken.
ghost use Rattle.std.specs.Prelude.{◌≡◌, ◌<◌, ◌++◌, [], ◌∷◌, List, Bool, true, false, IfOk, length};
ghost use Rattle.std.specs.VecDeque.{deque_len, deque_capacity};
ghost use Rattle.po_base.specs.declared.numbers.FileNo.{FileNo};
ghost use Rattle.po_marks.specs.Waiting.{line_up};

use po_base::{FileNo, Memory};
use std::alloc::Global;
use std::collections::VecDeque;

/// The files that can be taken, in the order in which they became so.
pub(crate) type Line = VecDeque<FileNo>;

/// Nothing stands in line, and there is room for each of so many files.
pub(crate) fn empty_line(alloc: Global, files: u32) -> Result<Line, Memory>
    ensures items { IfOk result (λ line. line.items ≡ []) }
    ensures room { IfOk result (λ line. deque_capacity line ≡ files) }
{
    Ok(VecDeque::with_capacity(alloc, files as usize)?)
}

/// Puts a file at the end of the line, where it can be taken now and couldn't before. It takes no memory, and constant time.
pub(crate) fn line_up(line: &mut Line, file: FileNo, before: bool, now: bool)
    requires { before ≡ false → now ≡ true → length line.old.items < deque_capacity line.old }
    ensures items { line.new.items ≡ line_up before now file line.old.items }
    ensures room { deque_capacity line.new ≡ deque_capacity line.old }
{
    if !before && now {
        line.push_back_reserved(file);
    }
}

/// Takes a file out of the line again that was put at its end, in constant time.
pub(crate) fn leave_line(line: &mut Line, before: bool, now: bool)
    ensures items { (file : FileNo) (l : List FileNo) → line.old.items ≡ line_up before now file l → line.new.items ≡ l }
    ensures room { deque_capacity line.new ≡ deque_capacity line.old }
{
    if !before && now {
        let _last = line.pop_back();
    }
}

/// Takes the first file out of the line, in constant time.
pub(crate) fn leave_front(line: &mut Line)
    ensures items { (file : FileNo) (l : List FileNo) → line.old.items ≡ file ∷ l → line.new.items ≡ l }
    ensures room { deque_capacity line.new ≡ deque_capacity line.old }
{
    let _first = line.pop_front();
}
