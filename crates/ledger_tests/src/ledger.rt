ghost use Rattle.std.specs.Prelude.{◌≡◌, ◌↔◌, ◌<◌, ◌+◌, ◌++◌, [], List, length, slice_set, IsTrue, IfOk, IfSome, IfNone, OnErr, OnOk};
ghost use Rattle.std.specs.List.{Contains};
ghost use Rattle.ledger_tests.specs.Answers.{Answers, AnswersTables};
ghost use Rattle.po_base.specs.declared.numbers.FileNo.{FileNo};
ghost use Rattle.po_core.specs.Core.{CanTake, IsHeld, IsLegal, IsQuiet};
ghost use Rattle.po_core.specs.Least.{IsLeastReport};
ghost use Rattle.po_core.specs.declared.event.Event.TheVariants.{Ask, Give, PutBack};
ghost use Rattle.po_core.specs.declared.event.Mark.{Mark};
ghost use Rattle.po_core.specs.declared.obl.Obl.{Obl};
ghost use Rattle.po_ledger.specs.Answers.{Reports};
ghost use Rattle.po_ledger.specs.Calls.{CanGive, CanPost, CanSettle, Does, HandsOut, IsNew, PostsItem, SettlesItem};
ghost use Rattle.po_ledger.specs.Parts.{AddsEach, AddsItem, supports_of};
ghost use Rattle.po_ledger.specs.Shelves.{HandsTables};
ghost use Rattle.po_ledger.specs.View.{IsLedger};

use crate::counting::{held_count, is_some_left, untaken_count};
use crate::hands::{any_held, free_hand, is_held, no_hands, set_hand};
use crate::known::{Marks, add_supports, first_marks, is_same_pred};
use crate::log::{Log, append, into_events, make_room, no_events, take_room};
use crate::remarking::{remark, settle_mark};
use crate::reporting::{ascending_assumptions, ascending_lines};
use crate::ticket::ListTicket;
use crate::untaken::{all_open, takeable, untaken_of};
use po_base::{FileNo, FunNo, Memory, NodeNo};
use po_core::{
    Event, Hand, Journal, Mark, Obl, Report, Rulebook, Verdict, legal_lists_are_orderly,
    quiet_lists_are_least,
};
use po_ledger::{Naming, ReportFail};
use std::alloc::Global;
use std::marker::{Model, PhantomData};

/// What a ledger of plain lists answers a worker that asks for work.
#[derive(Drop)]
pub enum ListNext<R: Rulebook, J: Naming<R::Pred, R::Rule, R::Table>> {
    /// The file that it takes, with all that is untaken in it.
    Ticket(ListTicket<R, J>),
    /// Some file is held, and nothing can be taken until more is posted or put back.
    Wait,
    /// No file is held and nothing is untaken: all is done.
    Done,
}

/// A ledger of plain lists: each known obligation with its mark, in the order in which they became known, who holds each file, what is
/// assumed, and the journal. It finds all it looks for by a walk, keeps no table, and asks for a function's calls at each post.
#[derive(Drop)]
pub struct ListLedger<'r, R: Rulebook, J: Naming<R::Pred, R::Rule, R::Table>> {
    book: &'r R,
    marks: Marks<R::Pred, R::Rule>,
    hands: Vec<Option<Hand<R::Pred>>>,
    assumed: Vec<(FunNo, R::Pred)>,
    journal: Log<R::Pred, R::Rule>,
    named: PhantomData<J>,
}

impl<'r, R: Rulebook, J: Naming<R::Pred, R::Rule, R::Table>> Model for ListLedger<'r, R, J> {
    ghost use Rattle.std.specs.Prelude.{[], replicate};
    ghost use Rattle.po_ledger.specs.View.{LedgerView, view_of, IsKept};

    ghost Value = { LedgerView R.Pred R.Rule R.Table };

    ghost view = { λ l. view_of l.marks.items l.hands.items l.assumed.items l.journal.items l.journal.spare (replicate J.book.files []) };

    ghost invariant = { λ l. IsKept J.book (R.meaning l.book.now) (view_of l.marks.items l.hands.items l.assumed.items l.journal.items l.journal.spare (replicate J.book.files [])) (replicate J.book.files []) };
}

impl<'r, R: Rulebook, J: Naming<R::Pred, R::Rule, R::Table>> ListLedger<'r, R, J> {
    /// A ledger over a rulebook in which the functions' own obligations are known and untaken.
    pub fn new(alloc: Global, book: &'r R) -> Result<ListLedger<'r, R, J>, Memory>
        requires { R.meaning book.now ≡ J.book }
        ensures { IfOk result (IsNew J.book) }
    {
        let marks = first_marks(alloc, book)?;
        let hands = no_hands(alloc, book.files())?;
        Ok(ListLedger {
            book,
            marks,
            hands,
            assumed: Vec::new(alloc),
            journal: no_events(alloc),
            named: PhantomData,
        })
    }

    /// The rulebook.
    pub fn book(&self) -> &'r R
        ensures { R.meaning result.now ≡ J.book }
    {
        self.book
    }

    /// What every ledger keeps: its journal is legal from the start and replays to its state, and there is room
    /// for the events by which all that is held can be settled and given back. It does nothing.
    pub fn keeps_its_facts(&self)
        ensures { IsLedger J.book self.now }
    {
        let _book = self.book;
    }

    /// Each known obligation with how far it has come, in the order in which they became known.
    pub fn known(&self) -> &[(Obl<R::Pred>, Mark<R::Pred, R::Rule>)]
        ensures { result.now ≡ self.now.state.marks }
    {
        self.marks.as_slice()
    }

    /// Whether a file is held.
    pub fn held(&self, file: FileNo) -> bool
        ensures { IsTrue result ↔ IsHeld self.now.state file }
    {
        is_held(self.hands.as_slice(), file)
    }

    /// Hands the journal out.
    pub fn close(self) -> Journal<R::Pred, R::Rule>
        ensures { result ≡ self.entry.journal }
    {
        let ListLedger { journal, .. } = self;
        into_events(journal)
    }

    /// Gives a worker all that is untaken in some file, which it holds from then on; or says that it has to wait,
    /// as some file is held and no other has untaken obligations; or that all is done. After `Memory` nothing has
    /// changed.
    pub fn take(&mut self, alloc: Global, worker: u8) -> Result<ListNext<R, J>, Memory>
        ensures ok { IfOk result (Answers J.book worker self.old self.new) }
        ensures err { OnErr result (self.new ≡ self.old) }
        ensures tables { IfOk result (AnswersTables self.old self.new) }
    {
        match self.find_file() {
            Some(file) => {
                let ticket = self.take_file(alloc, worker, file)?;
                Ok(ListNext::Ticket(ticket))
            }
            None => {
                if self.some_held() {
                    self.ask(worker, false)?;
                    return Ok(ListNext::Wait);
                }
                self.ask(worker, true)?;
                Ok(ListNext::Done)
            }
        }
    }

    /// A file that can be taken, where there is one.
    fn find_file(&self) -> Option<FileNo>
        ensures some { IfSome result (CanTake J.book self.now.state) }
        ensures none { IfNone result ((file : FileNo) → ¬ CanTake J.book self.now.state file) }
    {
        legal_lists_are_orderly(self.book);
        takeable(self.book, self.marks.as_slice(), self.hands.as_slice())
    }

    /// Whether some file is held.
    fn some_held(&self) -> bool
        ensures { IsTrue result ↔ ((file : FileNo) × IsHeld self.now.state file) }
    {
        any_held(self.hands.as_slice())
    }

    /// Whether all is done: no file is held and nothing is untaken.
    pub fn quiet(&self) -> bool
        ensures { IsTrue result ↔ IsQuiet self.now.state }
    {
        if self.some_held() {
            return false;
        }
        match self.find_file() {
            Some(_) => false,
            None => true,
        }
    }

    /// The least report of the rulebook, where all is done. `NotQuiet` comes where it isn't, with the number of files
    /// that are held and of obligations that are untaken.
    pub fn report(&self, alloc: Global) -> Result<Report<R::Pred, R::Rule>, ReportFail>
        ensures { Reports J.book R.Pred.cmp self.now.state result }
    {
        let held = held_count(self.hands.as_slice(), self.book.files());
        let untaken = untaken_count(self.marks.as_slice());
        if is_some_left(held, untaken) {
            return Err(ReportFail::NotQuiet { held, untaken });
        }
        Ok(self.least_report(alloc)?)
    }

    /// The least report, of a ledger that is quiet.
    fn least_report(&self, alloc: Global) -> Result<Report<R::Pred, R::Rule>, Memory>
        requires { IsQuiet self.now.state }
        ensures { IfOk result (IsLeastReport R.Pred.cmp J.book) }
    {
        quiet_lists_are_least(self.book);
        legal_lists_are_orderly(self.book);
        let lines = ascending_lines(alloc, self.book, self.marks.as_slice())?;
        let assumptions = ascending_assumptions(alloc, self.book, self.assumed.as_slice())?;
        Ok(Report { lines, assumptions })
    }

    /// Takes a file that can be taken.
    fn take_file(
        &mut self,
        alloc: Global,
        worker: u8,
        file: FileNo,
    ) -> Result<ListTicket<R, J>, Memory>
        requires { CanTake J.book self.old.state file }
        ensures ok { IfOk result (HandsOut J.book worker self.old self.new) }
        ensures tables { IfOk result (HandsTables self.old self.new) }
        ensures err { OnErr result (self.new ≡ self.old) }
    {
        legal_lists_are_orderly(self.book);
        let items = untaken_of(alloc, self.book, self.marks.as_slice(), file)?;
        let hand = all_open(alloc, items.as_slice())?;
        make_room(&mut self.journal, items.len(), 3)?;
        remark(
            self.book,
            &mut self.marks,
            items.as_slice(),
            false,
            Mark::Taken,
        );
        append(&mut self.journal, Event::Take { worker, file });
        set_hand(&mut self.hands, file, Some(Hand { worker, items }));
        Ok(ListTicket {
            worker,
            file,
            hand,
            named: PhantomData,
        })
    }

    /// Puts into the journal that a worker asked for work and there was none.
    fn ask(&mut self, worker: u8, done: bool) -> Result<(), Memory>
        requires { IsLegal J.book self.old.state (Ask worker done) }
        ensures ok { OnOk result (Does J.book (Ask worker done) self.old self.new) }
        ensures err { OnErr result (self.new ≡ self.old) }
        ensures tables { self.new.tables ≡ self.old.tables }
    {
        make_room(&mut self.journal, 0, 1)?;
        append(&mut self.journal, Event::Ask { worker, done });
        Ok(())
    }

    /// Assumes the predicate `q` of the function of an item of a ticket, whose verdict delegates to it: each call
    /// of the function has its supporting obligation afterwards, and those that are new are untaken. After
    /// `Memory` nothing has changed.
    pub fn post(
        &mut self,
        alloc: Global,
        t: &mut ListTicket<R, J>,
        k: usize,
        q: &R::Pred,
    ) -> Result<(), Memory>
        requires within { k < length t.old.hand }
        requires can { CanPost J.book self.old.state t.old k q.now }
        ensures ok { OnOk result (PostsItem J.book k q.now t.old self.old self.new) }
        ensures err { OnErr result (self.new ≡ self.old) }
        ensures ticket { t.new ≡ t.old }
        ensures tables { self.new.tables ≡ self.old.tables }
    {
        legal_lists_are_orderly(self.book);
        let obl = *t.item(k);
        let file = t.file();
        let pred = *q;
        let sites = self.book.call_sites(alloc, obl.fun)?;
        let known = self.marks.as_slice().len();
        match extend(
            self.book,
            &mut self.marks,
            &mut self.assumed,
            &mut self.journal,
            sites.as_slice(),
            obl.fun,
            pred,
        ) {
            Ok(()) => {
                append(&mut self.journal, Event::Post { file, obl, pred });
                Ok(())
            }
            Err(Memory) => {
                self.marks.truncate(known);
                Err(Memory)
            }
        }
    }

    /// Settles an item of a ticket with its verdict; where that delegates, the predicate is assumed already. It
    /// takes no memory.
    pub fn settle(&mut self, t: &mut ListTicket<R, J>, k: usize, v: Verdict<R::Pred, R::Rule>)
        requires within { k < length t.old.hand }
        requires can { CanSettle J.book self.old.state t.old k v }
        ensures { SettlesItem J.book k v t.old t.new self.old self.new }
    {
        legal_lists_are_orderly(self.book);
        let obl = *t.item(k);
        let file = t.file();
        settle_mark(self.book, &mut self.marks, obl, v);
        append(
            &mut self.journal,
            Event::Settle {
                file,
                obl,
                verdict: v,
            },
        );
        t.mark_settled(k);
    }

    /// Gives a file free of which all is settled. It takes no memory.
    pub fn give(&mut self, t: ListTicket<R, J>)
        requires { CanGive self.old.state t }
        ensures does { Does J.book (Give t.worker t.file) self.old self.new }
        ensures tables { self.new.tables ≡ slice_set self.old.tables t.file.0 t.tables }
    {
        legal_lists_are_orderly(self.book);
        let worker = t.worker();
        let file = t.file();
        t.keeps_no_tables();
        set_hand(&mut self.hands, file, None);
        append(&mut self.journal, Event::Give { worker, file });
    }

    /// Makes a file free, whoever holds it: what isn't settled of its hand is untaken again. It takes no memory.
    pub fn put_back(&mut self, file: FileNo)
        requires { IsHeld self.old.state file }
        ensures does { Does J.book (PutBack file) self.old self.new }
        ensures tables { self.new.tables ≡ slice_set self.old.tables file.0 [] }
    {
        legal_lists_are_orderly(self.book);
        let Hand { items, .. } = free_hand(&mut self.hands, file);
        remark(
            self.book,
            &mut self.marks,
            items.as_slice(),
            true,
            Mark::Untaken,
        );
        append(&mut self.journal, Event::PutBack { file });
    }
}

/// Whether a predicate of a function is assumed. Time: the number of assumptions.
fn is_assumed<R: Rulebook>(book: &R, assumed: &[(FunNo, R::Pred)], f: FunNo, q: R::Pred) -> bool
    ensures { IsTrue result ↔ Contains assumed.now (f, q) }
{
    for pair in assumed {
        if is_pair(book, pair, f, q) {
            return true;
        }
    }
    false
}

/// Whether an assumption is that of a predicate of a function.
fn is_pair<R: Rulebook>(book: &R, pair: &(FunNo, R::Pred), f: FunNo, q: R::Pred) -> bool
    ensures { IsTrue result ↔ (pair.now ≡ (f, q)) }
{
    if pair.0 == f {
        return is_same_pred(book, pair.1, q);
    }
    false
}

/// Assumes a predicate of a function, unless it is assumed. After `Memory` nothing has changed.
fn assume<R: Rulebook>(
    book: &R,
    assumed: &mut Vec<(FunNo, R::Pred)>,
    f: FunNo,
    q: R::Pred,
) -> Result<(), Memory>
    ensures ok { OnOk result (AddsItem assumed.old.items assumed.new.items (f, q)) }
    ensures err { OnErr result (assumed.new.items ≡ assumed.old.items) }
{
    if is_assumed(book, assumed.as_slice(), f, q) {
        return Ok(());
    }
    match assumed.push((f, q)) {
        Ok(()) => Ok(()),
        Err(_) => Err(Memory),
    }
}

/// What a post adds: the assumption, the obligations at the call sites, and room for one more event. After `Memory`
/// some obligations may have been added; all else is as it was.
fn extend<R: Rulebook>(
    book: &R,
    marks: &mut Marks<R::Pred, R::Rule>,
    assumed: &mut Vec<(FunNo, R::Pred)>,
    journal: &mut Log<R::Pred, R::Rule>,
    sites: &[(FunNo, NodeNo)],
    f: FunNo,
    q: R::Pred,
) -> Result<(), Memory>
    ensures marks { OnOk result (AddsEach (supports_of q sites.now) marks.old.items marks.new.items) }
    ensures assumed { OnOk result (AddsItem assumed.old.items assumed.new.items (f, q)) }
    ensures journal { journal.new.items ≡ journal.old.items }
    ensures room { OnOk result (journal.new.spare ≡ journal.old.spare + 1) }
    ensures no_room { OnErr result (journal.new.spare ≡ journal.old.spare) }
    ensures marks_front { (more : List (Obl R.Pred × Mark R.Pred R.Rule)) × (marks.new.items ≡ marks.old.items ++ more) }
    ensures nothing_assumed { OnErr result (assumed.new.items ≡ assumed.old.items) }
{
    add_supports(book, marks, sites, q)?;
    make_room(journal, 0, 1)?;
    match assume(book, assumed, f, q) {
        Ok(()) => Ok(()),
        Err(Memory) => {
            take_room(journal);
            Err(Memory)
        }
    }
}
