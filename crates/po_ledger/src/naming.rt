// The trait by which a lock's type says of which book its ledger is.
ghost use Rattle.po_core.specs.Book.{Book};

use std::marker::Brand;

/// Which book a ledger is of. A lock tells nothing of what it guards but what its type says, so the book is
/// named by a type. It has no value: a program passes `Brand`, and the proof of that call says which book it is.
pub trait Naming<P, N, T> {
    ghost book: { Book P N T };
}

impl<P, N, T> Naming<P, N, T> for Brand {
    ghost use Rattle.po_ledger.specs.Empty.{no_book};

    ghost book = { no_book };
}
