// The ledger that workers share.
ghost use Rattle.std.specs.Prelude.{◌≡◌, ◌↔◌, ◌<◌, [], Bool, length, slice_set, IsTrue, IfOk, IfSome, IfNone, OnErr, OnOk};
ghost use Rattle.po_base.specs.declared.numbers.FileNo.{FileNo};
ghost use Rattle.po_core.specs.Core.{CanTake, IsHeld, IsInHand, IsKnown, IsLegal, IsQuiet, IsUntaken};
ghost use Rattle.po_core.specs.Least.{IsLeastReport};
ghost use Rattle.po_core.specs.declared.event.Event.TheVariants.{Ask, Give, PutBack};
ghost use Rattle.po_core.specs.declared.obl.Obl.{Obl};
ghost use Rattle.po_ledger.specs.Answers.{Answers, Reports, TakesFirst};
ghost use Rattle.po_ledger.specs.Calls.{CanGive, CanPost, CanSettle, Counts, Does, IsNew, PostsItem, SettlesItem};
ghost use Rattle.po_ledger.specs.Shelves.{AnswersTables};
ghost use Rattle.po_ledger.specs.View.{Fits, IsLedger};

use crate::assumed::{Assumptions, assume};
use crate::call_sites::CallSites;
use crate::fitting::is_hand_of;
use crate::hands::{free_hand, hand_at, is_held, no_hands, one_more, set_hand};
use crate::log::{Log, append, into_events, make_room, no_events, take_room};
use crate::naming::Naming;
use crate::next::{Next, ReportFail};
use crate::per_function::PerFunction;
use crate::report::{ascending_assumptions, ascending_lines, is_some_left};
use crate::shelves::{clear_shelf, empty_shelves, swap_shelf};
use crate::ticket::Ticket;
use indexmap::IndexSet;
use po_base::{FileNo, Memory};
use po_core::{
    Event, Hand, Journal, Report, Rulebook, Verdict, legal_lists_are_orderly, quiet_lists_are_least,
};
use po_marks::{Drawn, Entries, Marks, draw, first_marks, free, put_back, room_to_draw, settle};
use std::alloc::Global;
use std::marker::{Model, PhantomData};

/// What workers share: which obligations are known and how far each has come, who holds which file, what is
/// assumed, and the journal of all events.
///
/// Each call that changes a ledger is one legal event and appends just it to the journal, so the journal is
/// legal from the start and replays to the ledger's state, whoever called in which order.
///
/// Each known obligation is found by a hash of it, and those that are untaken wait in a queue of their file. The times below are
/// those on the average over many calls.
#[derive(Drop)]
pub struct Ledger<'r, R: Rulebook, J: Naming<R::Pred, R::Rule, R::Table>> {
    book: &'r R,
    marks: Marks<R::Pred, R::Rule>,
    hands: Vec<Option<Hand<R::Pred>>>,
    held: u32,
    assumed: Assumptions<R::Pred>,
    call_sites: CallSites,
    shelves: Vec<PerFunction<R::Table>>,
    journal: Log<R::Pred, R::Rule>,
    named: PhantomData<J>,
}

impl<'r, R: Rulebook, J: Naming<R::Pred, R::Rule, R::Table>> Model for Ledger<'r, R, J> {
    ghost use Rattle.po_ledger.specs.Calls.{Counts};
    ghost use Rattle.po_ledger.specs.Parts.{AreCallSites, HandAt};
    ghost use Rattle.po_ledger.specs.Queued.{IsQueued};
    ghost use Rattle.po_ledger.specs.View.{LedgerView, view_of, IsKept};

    ghost Value = { LedgerView R.Pred R.Rule R.Table };

    ghost view = { λ l. view_of l.marks.items l.hands.items l.assumed.keys l.journal.items l.journal.spare l.shelves.items };

    ghost invariant = { λ l. IsKept J.book (R.meaning l.book.now) (view_of l.marks.items l.hands.items l.assumed.keys l.journal.items l.journal.spare l.shelves.items) l.shelves.items × IsQueued J.book l.marks l.hands.items × Counts (HandAt l.hands.items) l.held × AreCallSites (R.meaning l.book.now) l.call_sites };
}

impl<'r, R: Rulebook, J: Naming<R::Pred, R::Rule, R::Table>> Ledger<'r, R, J> {
    /// A ledger over a rulebook in which the functions' own obligations are known and untaken. Time: the number of files,
    /// and that of the obligations times its logarithm.
    pub fn new(alloc: Global, book: &'r R) -> Result<Ledger<'r, R, J>, Memory>
        requires { R.meaning book.now ≡ J.book }
        ensures { IfOk result (IsNew J.book) }
    {
        let marks = first_marks(alloc, book)?;
        let hands = no_hands(alloc, book.files())?;
        let shelves = empty_shelves(alloc, book.files())?;
        Ok(Ledger {
            book,
            marks,
            hands,
            held: 0,
            assumed: IndexSet::new(alloc),
            call_sites: PerFunction::new(alloc),
            shelves,
            journal: no_events(alloc),
            named: PhantomData,
        })
    }

    /// The rulebook, in constant time.
    pub fn book(&self) -> &'r R
        ensures { R.meaning result.now ≡ J.book }
    {
        self.book
    }

    /// What every ledger keeps: its journal is legal from the start and replays to its state, and there is room
    /// for the events by which all that is held can be settled and given back. It does nothing.
    pub fn keeps_its_facts(&self)
        ensures { IsLedger J.book self.now }
    {
        let _book = self.book;
    }

    /// What every ledger keeps of its hands: a file that is held is one of the rulebook's, and each obligation of a hand is
    /// known. It does nothing.
    pub fn keeps_its_hands(&self)
        ensures held_there { (file : FileNo) → IsHeld self.now.state file → file.0 < J.book.files }
        ensures items_known { (file : FileNo) (o : Obl R.Pred) → IsInHand self.now.state file o → IsKnown self.now.state o }
    {
        legal_lists_are_orderly(self.book);
    }

    /// Each known obligation with how far it has come, in the order in which they became known. It takes no memory, and constant time.
    pub fn known(&self) -> &Entries<R::Pred, R::Rule>
        ensures { result.now.entries ≡ self.now.state.marks }
    {
        self.marks.known()
    }

    /// Whether a file is held, in constant time.
    pub fn held(&self, file: FileNo) -> bool
        ensures { IsTrue result ↔ IsHeld self.now.state file }
    {
        is_held(self.hands.as_slice(), file)
    }

    /// Whether a ticket is still good: its worker holds its file in this ledger, and the ledger's hand, with what is
    /// settled, is the ticket's. It takes no memory. Time: the number of the ticket's obligations.
    pub fn fits(&self, t: &Ticket<R, J>) -> bool
        ensures { IsTrue result ↔ Fits self.now.state t.now }
    {
        match hand_at(self.hands.as_slice(), t.file()) {
            Some(hand) => is_hand_of(self.book, self.marks.known(), hand, t.worker(), t.hand()),
            None => false,
        }
    }

    /// Hands the journal out, without a copy. It takes no memory, and constant time beside letting go of the rest.
    pub fn close(self) -> Journal<R::Pred, R::Rule>
        ensures { result ≡ self.entry.journal }
    {
        let Ledger { journal, .. } = self;
        into_events(journal)
    }

    /// Gives a worker all that is untaken in some file, which it holds from then on; or says that it has to wait,
    /// as some file is held and no other has untaken obligations; or that all is done. The file is the one that could be
    /// taken for the longest time. After `Memory` nothing has changed. Time: the number of the obligations that it hands out,
    /// and else constant.
    pub fn take(&mut self, alloc: Global, worker: u8) -> Result<Next<R, J>, Memory>
        ensures ok { IfOk result (Answers J.book worker self.old self.new) }
        ensures err { OnErr result (self.new ≡ self.old) }
        ensures tables { IfOk result (AnswersTables self.old self.new) }
    {
        let first = self.take_first(alloc, worker)?;
        match first {
            Some(ticket) => Ok(Next::Ticket(ticket)),
            None => {
                if self.some_held() {
                    self.ask(worker, false)?;
                    return Ok(Next::Wait);
                }
                self.ask(worker, true)?;
                Ok(Next::Done)
            }
        }
    }

    /// The file that could be taken for the longest time, where one can be, in constant time.
    fn first_in_line(&self) -> Option<FileNo>
        ensures some { IfSome result (CanTake J.book self.now.state) }
        ensures none { IfNone result ((file : FileNo) → ¬ CanTake J.book self.now.state file) }
    {
        legal_lists_are_orderly(self.book);
        self.marks.first_in_line()
    }

    /// Whether some file is held, in constant time.
    fn some_held(&self) -> bool
        ensures { IsTrue result ↔ ((file : FileNo) × IsHeld self.now.state file) }
    {
        self.held > 0
    }

    /// Whether all is done: no file is held and nothing is untaken. It takes no memory, and constant time.
    pub fn quiet(&self) -> bool
        ensures { IsTrue result ↔ IsQuiet self.now.state }
    {
        if self.some_held() {
            return false;
        }
        match self.first_in_line() {
            Some(_) => false,
            None => true,
        }
    }

    /// The least report of the rulebook, where all is done. `NotQuiet` comes where it isn't, with the number of files
    /// that are held and of obligations that are untaken. The ledger stays as it is; its lists are copied for the
    /// report alone. Time: that of sorting the known obligations and the assumptions, or constant where it isn't quiet.
    pub fn report(&self, alloc: Global) -> Result<Report<R::Pred, R::Rule>, ReportFail>
        ensures { Reports J.book R.Pred.cmp self.now.state result }
    {
        let held = self.held;
        let untaken = self.untaken_count();
        if is_some_left(held, untaken) {
            return Err(ReportFail::NotQuiet { held, untaken });
        }
        Ok(self.least_report(alloc)?)
    }

    /// How many obligations are untaken, in constant time.
    fn untaken_count(&self) -> u64
        ensures { Counts (IsUntaken self.now.state) result }
    {
        legal_lists_are_orderly(self.book);
        self.marks.waiting_count() as u64
    }

    /// The least report, of a ledger that is quiet.
    fn least_report(&self, alloc: Global) -> Result<Report<R::Pred, R::Rule>, Memory>
        requires { IsQuiet self.now.state }
        ensures { IfOk result (IsLeastReport R.Pred.cmp J.book) }
    {
        quiet_lists_are_least(self.book);
        legal_lists_are_orderly(self.book);
        let lines = ascending_lines(alloc, self.book, self.marks.known())?;
        let assumptions = ascending_assumptions(alloc, self.book, self.assumed.as_slice())?;
        Ok(Report { lines, assumptions })
    }

    /// Takes the file that could be taken for the longest time, where one can be.
    fn take_first(&mut self, alloc: Global, worker: u8) -> Result<Option<Ticket<R, J>>, Memory>
        ensures ok { IfOk result (TakesFirst J.book worker self.old self.new) }
        ensures err { OnErr result (self.new ≡ self.old) }
    {
        legal_lists_are_orderly(self.book);
        let Some(file) = self.marks.first_in_line() else {
            return Ok(None);
        };
        let (count, mut drawn) = room_to_draw(alloc, &self.marks, file)?;
        make_room(&mut self.journal, count, 3)?;
        draw(alloc, self.book, &mut self.marks, file, &mut drawn);
        let Drawn { items, hand } = drawn;
        let items = items.into_list();
        append(&mut self.journal, Event::Take { worker, file });
        set_hand(&mut self.hands, file, Some(Hand { worker, items }));
        self.held = one_more(self.held, self.book.files());
        let tables = swap_shelf(&mut self.shelves, file, PerFunction::new(alloc));
        Ok(Some(Ticket {
            worker,
            file,
            hand: hand.into_list(),
            tables,
            named: PhantomData,
        }))
    }

    /// Puts into the journal that a worker asked for work and there was none.
    fn ask(&mut self, worker: u8, done: bool) -> Result<(), Memory>
        requires { IsLegal J.book self.old.state (Ask worker done) }
        ensures ok { OnOk result (Does J.book (Ask worker done) self.old self.new) }
        ensures err { OnErr result (self.new ≡ self.old) }
        ensures tables { self.new.tables ≡ self.old.tables }
    {
        make_room(&mut self.journal, 0, 1)?;
        append(&mut self.journal, Event::Ask { worker, done });
        Ok(())
    }

    /// Assumes the predicate `q` of the function of an item of a ticket, whose verdict delegates to it: each call
    /// of the function has its supporting obligation afterwards, and those that are new are untaken. After
    /// `Memory` nothing has changed. Time: constant where the predicate was assumed before, and else the number of the calls.
    /// The rulebook is asked for a function's calls once.
    pub fn post(
        &mut self,
        alloc: Global,
        t: &mut Ticket<R, J>,
        k: usize,
        q: &R::Pred,
    ) -> Result<(), Memory>
        requires within { k < length t.old.hand }
        requires can { CanPost J.book self.old.state t.old k q.now }
        ensures ok { OnOk result (PostsItem J.book k q.now t.old self.old self.new) }
        ensures err { OnErr result (self.new ≡ self.old) }
        ensures ticket { t.new ≡ t.old }
        ensures tables { self.new.tables ≡ self.old.tables }
    {
        legal_lists_are_orderly(self.book);
        let obl = *t.item(k);
        let file = t.file();
        let pred = *q;
        make_room(&mut self.journal, 0, 1)?;
        match assume(
            alloc,
            self.book,
            &mut self.marks,
            &mut self.assumed,
            &mut self.call_sites,
            obl.fun,
            pred,
        ) {
            Ok(()) => {
                append(&mut self.journal, Event::Post { file, obl, pred });
                Ok(())
            }
            Err(Memory) => {
                take_room(&mut self.journal);
                Err(Memory)
            }
        }
    }

    /// Settles an item of a ticket with its verdict; where that delegates, the predicate is assumed already. It
    /// takes no memory, and constant time.
    pub fn settle(&mut self, t: &mut Ticket<R, J>, k: usize, v: Verdict<R::Pred, R::Rule>)
        requires within { k < length t.old.hand }
        requires can { CanSettle J.book self.old.state t.old k v }
        ensures { SettlesItem J.book k v t.old t.new self.old self.new }
    {
        legal_lists_are_orderly(self.book);
        let obl = *t.item(k);
        let file = t.file();
        settle(self.book, &mut self.marks, obl, v);
        append(
            &mut self.journal,
            Event::Settle {
                file,
                obl,
                verdict: v,
            },
        );
        t.mark_settled(k);
    }

    /// Gives a file free of which all is settled. The ledger keeps the ticket's tables for the next that takes the
    /// file. It takes no memory, and constant time beside letting go what the file's place held.
    pub fn give(&mut self, t: Ticket<R, J>)
        requires { CanGive self.old.state t }
        ensures does { Does J.book (Give t.worker t.file) self.old self.new }
        ensures tables { self.new.tables ≡ slice_set self.old.tables t.file.0 t.tables }
    {
        legal_lists_are_orderly(self.book);
        let worker = t.worker();
        let file = t.file();
        let tables = t.into_tables();
        set_hand(&mut self.hands, file, None);
        self.held -= 1;
        free(self.book, &mut self.marks, file);
        let _before = swap_shelf(&mut self.shelves, file, tables);
        append(&mut self.journal, Event::Give { worker, file });
    }

    /// Makes a file free, whoever holds it: what isn't settled of its hand is untaken again, and no tables are kept for it. A
    /// ticket of the file doesn't fit from then on, at least until its worker holds the file again. It takes no memory. Time: the
    /// number of the obligations of the hand that held it, beside letting go of tables.
    pub fn put_back(&mut self, file: FileNo)
        requires { IsHeld self.old.state file }
        ensures does { Does J.book (PutBack file) self.old self.new }
        ensures tables { self.new.tables ≡ slice_set self.old.tables file.0 [] }
    {
        legal_lists_are_orderly(self.book);
        let Hand { items, .. } = free_hand(&mut self.hands, file);
        self.held -= 1;
        put_back(self.book, &mut self.marks, file, items);
        clear_shelf(&mut self.shelves, file);
        append(&mut self.journal, Event::PutBack { file });
    }
}
