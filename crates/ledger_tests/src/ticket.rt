ghost use Rattle.std.specs.Prelude.{◌≡◌, ◌<◌, [], length, slice_set, true, IfOk};
ghost use Rattle.po_core.specs.declared.obl.Obl.{Obl};
ghost use Rattle.po_ledger.specs.Calls.{IsItemAt, Judges};

use po_base::{FileNo, List, Memory};
use po_core::{Obl, Rulebook, Verdict};
use po_ledger::Naming;
use std::alloc::Global;
use std::marker::{Model, PhantomData};

/// The work that a worker holds of a ledger of plain lists: a file, the obligations that were taken with it, and which of them are
/// settled. It keeps no tables.
#[derive(Drop)]
pub struct ListTicket<R: Rulebook, J: Naming<R::Pred, R::Rule, R::Table>> {
    pub(crate) worker: u8,
    pub(crate) file: FileNo,
    pub(crate) hand: List<(Obl<R::Pred>, bool)>,
    pub(crate) named: PhantomData<J>,
}

impl<R: Rulebook, J: Naming<R::Pred, R::Rule, R::Table>> Model for ListTicket<R, J> {
    ghost use Rattle.std.specs.Prelude.{[]};
    ghost use Rattle.po_ledger.specs.View.{TicketView, IsTicket};

    ghost Value = { TicketView R.Pred R.Table };

    ghost view = { λ t. record { worker = t.worker; file = t.file; hand = t.hand; tables = [] } };

    ghost invariant = { λ t. IsTicket J.book t.hand [] };
}

impl<R: Rulebook, J: Naming<R::Pred, R::Rule, R::Table>> ListTicket<R, J> {
    /// The worker to whom the ticket was handed out.
    pub fn worker(&self) -> u8
        ensures { result ≡ self.now.worker }
    {
        self.worker
    }

    /// The file that it holds.
    pub fn file(&self) -> FileNo
        ensures { result ≡ self.now.file }
    {
        self.file
    }

    /// How many obligations are in its hand.
    pub fn len(&self) -> usize
        ensures { result ≡ length self.now.hand }
    {
        self.hand.len()
    }

    /// The obligation at a place of its hand.
    pub fn item(&self, k: usize) -> &Obl<R::Pred>
        requires { k < length self.now.hand }
        ensures { IsItemAt self.now k result.now }
    {
        let entry = &self.hand.as_slice()[k];
        &entry.0
    }

    /// No tables are at hand. It does nothing.
    pub(crate) fn keeps_no_tables(&self)
        ensures { self.now.tables ≡ [] }
    {
        let _file = self.file;
    }

    /// Writes down that the item at a place is settled.
    pub(crate) fn mark_settled(&mut self, k: usize)
        requires { k < length self.old.hand }
        ensures { (o : Obl R.Pred) × IsItemAt self.old k o × (self.new ≡ record self.old { hand = slice_set self.old.hand k (o, true) }) }
    {
        let obl = self.hand.as_slice()[k].0;
        self.hand.set(k, (obl, true));
    }

    /// The verdict of the obligation at a place of its hand, from a table that is made for it alone.
    pub fn verdict(
        &self,
        alloc: Global,
        book: &R,
        k: usize,
    ) -> Result<Verdict<R::Pred, R::Rule>, Memory>
        requires same_book { R.meaning book.now ≡ J.book }
        requires within { k < length self.now.hand }
        ensures { IfOk result (Judges J.book self.now k) }
    {
        let _file = self.file;
        let obl = *self.item(k);
        let table = book.table(alloc, obl.fun)?;
        book.verdict(alloc, &obl, &table)
    }
}
