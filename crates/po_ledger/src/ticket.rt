// The work that a worker holds.
ghost use Rattle.std.specs.Prelude.{◌≡◌, ◌<◌, length, slice_set, true, IfOk, Some, slice_get};
ghost use Rattle.po_core.specs.declared.obl.Obl.{Obl};
ghost use Rattle.po_ledger.specs.Calls.{IsItemAt, KeepsTicket, Judges};
ghost use Rattle.po_ledger.specs.Made.{AddsTable, HasTable};
ghost use Rattle.po_ledger.specs.View.{AreTables};

use crate::naming::Naming;
use crate::per_function::PerFunction;
use po_base::{FileNo, FunNo, List, Memory};
use po_core::{Obl, Rulebook, Verdict};
use std::alloc::Global;
use std::marker::{Model, PhantomData};

/// The work that a worker holds: a file, the obligations that were taken with it, which of them are settled,
/// and the tables of functions that were made so far. It can't be copied.
#[derive(Drop)]
pub struct Ticket<R: Rulebook, J: Naming<R::Pred, R::Rule, R::Table>> {
    pub(crate) worker: u8,
    pub(crate) file: FileNo,
    pub(crate) hand: List<(Obl<R::Pred>, bool)>,
    pub(crate) tables: PerFunction<R::Table>,
    pub(crate) named: PhantomData<J>,
}

impl<R: Rulebook, J: Naming<R::Pred, R::Rule, R::Table>> Model for Ticket<R, J> {
    ghost use Rattle.po_ledger.specs.View.{TicketView, IsTicket};

    ghost Value = { TicketView R.Pred R.Table };

    ghost view = { λ t. record { worker = t.worker; file = t.file; hand = t.hand; tables = t.tables } };

    ghost invariant = { λ t. IsTicket J.book t.hand t.tables };
}

impl<R: Rulebook, J: Naming<R::Pred, R::Rule, R::Table>> Ticket<R, J> {
    /// The worker to whom the ticket was handed out.
    pub fn worker(&self) -> u8
        ensures { result ≡ self.now.worker }
    {
        self.worker
    }

    /// The file that it holds.
    pub fn file(&self) -> FileNo
        ensures { result ≡ self.now.file }
    {
        self.file
    }

    /// How many obligations are in its hand.
    pub fn len(&self) -> usize
        ensures { result ≡ length self.now.hand }
    {
        self.hand.len()
    }

    /// The obligation at a place of its hand, in constant time.
    pub fn item(&self, k: usize) -> &Obl<R::Pred>
        requires { k < length self.now.hand }
        ensures { IsItemAt self.now k result.now }
    {
        let entry = &self.hand.as_slice()[k];
        &entry.0
    }

    /// The obligations of its hand, and which of them are settled.
    pub(crate) fn hand(&self) -> &[(Obl<R::Pred>, bool)]
        ensures { result.now ≡ self.now.hand }
    {
        self.hand.as_slice()
    }

    /// The tables that were made so far, each that of its function.
    pub(crate) fn into_tables(self) -> PerFunction<R::Table>
        ensures right { AreTables J.book result }
        ensures all { result ≡ self.tables }
    {
        let Ticket { tables, .. } = self;
        tables
    }

    /// Writes down that the item at a place is settled.
    pub(crate) fn mark_settled(&mut self, k: usize)
        requires { k < length self.old.hand }
        ensures { (o : Obl R.Pred) × IsItemAt self.old k o × (self.new ≡ record self.old { hand = slice_set self.old.hand k (o, true) }) }
    {
        let obl = self.hand.as_slice()[k].0;
        self.hand.set(k, (obl, true));
    }

    /// The verdict of the obligation at a place of its hand. The table of the obligation's function is made where
    /// the ticket doesn't have it yet, and only there, and stays with the ticket; nothing else of the ticket changes.
    /// Beside the making of a table it takes constant time on the average.
    pub fn verdict(
        &mut self,
        alloc: Global,
        book: &R,
        k: usize,
    ) -> Result<Verdict<R::Pred, R::Rule>, Memory>
        requires same_book { R.meaning book.now ≡ J.book }
        requires within { k < length self.old.hand }
        ensures value { IfOk result (Judges J.book self.old k) }
        ensures same { KeepsTicket self.old self.new }
        ensures tables { (o : Obl R.Pred) → IsItemAt self.old k o → AddsTable o.fun self.old.tables self.new.tables }
    {
        let obl = *self.item(k);
        let at = table_place(alloc, book, &mut self.tables, obl.fun)?;
        verdict_at(alloc, book, &obl, &self.tables, at)
    }
}

/// The place of a function's table among some tables, where it is made if it isn't there.
fn table_place<R: Rulebook>(
    alloc: Global,
    book: &R,
    tables: &mut PerFunction<R::Table>,
    f: FunNo,
) -> Result<usize, Memory>
    requires there { f.0 < (R.meaning book.now).functions }
    requires right { AreTables (R.meaning book.now) tables.old }
    ensures right { AreTables (R.meaning book.now) tables.new }
    ensures found { IfOk result (λ at. (table : R.Table) × (slice_get tables.new at ≡ Some (f, table))) }
    ensures adds { AddsTable f tables.old tables.new }
{
    match tables.place(f) {
        Some(at) => Ok(at),
        None => make_table(alloc, book, tables, f),
    }
}

/// Makes a function's table, where it has none, and tells its place.
fn make_table<R: Rulebook>(
    alloc: Global,
    book: &R,
    tables: &mut PerFunction<R::Table>,
    f: FunNo,
) -> Result<usize, Memory>
    requires there { f.0 < (R.meaning book.now).functions }
    requires right { AreTables (R.meaning book.now) tables.old }
    requires none { ¬ HasTable tables.old f }
    ensures right { AreTables (R.meaning book.now) tables.new }
    ensures found { IfOk result (λ at. (table : R.Table) × (slice_get tables.new at ≡ Some (f, table))) }
    ensures adds { AddsTable f tables.old tables.new }
{
    let table = book.table(alloc, f)?;
    let at = tables.len();
    tables.put(f, table)?;
    Ok(at)
}

/// A verdict that is read from the table at a place.
fn verdict_at<R: Rulebook>(
    alloc: Global,
    book: &R,
    obl: &Obl<R::Pred>,
    tables: &PerFunction<R::Table>,
    at: usize,
) -> Result<Verdict<R::Pred, R::Rule>, Memory>
    requires right { AreTables (R.meaning book.now) tables.now }
    requires found { (table : R.Table) × (slice_get tables.now at ≡ Some (obl.now.fun, table)) }
    ensures { IfOk result (λ v. v ≡ (R.meaning book.now).verdict_of obl.now) }
{
    book.verdict(alloc, obl, tables.value(at))
}
