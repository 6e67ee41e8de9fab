// The registers of a draft, and its temporaries by type.
ghost use Rattle.std.specs.Prelude.{◌≡◌, ◌≢◌, ◌<◌, ◌↔◌, ◌++◌, ◌∷◌, [], length, slice_get, IsTrue, IfOk, OnOk, MatchOption};
ghost use Rattle.std.specs.Option.{option_map};
ghost use Rattle.po_lowering.specs.Temporaries.{temporary};
ghost use Rattle.po_draft.specs.Kinds.{IsMissing, HasNone, IsKindAt, HasFree, HasFreeAt, IsUsed, KeepsTaken, AreKept, KeepsAdded, KeepsNoted, IsFreedAt, AreUnused};
ghost use Rattle.po_draft.specs.Held.{TakesHeld};

use crate::vectors::push;
use po_base::{List, Memory, RegNo};
use po_ir::{Reg, Ty, counted};
use std::alloc::Global;
use std::marker::Model;

/// The temporaries of one type.
#[derive(Drop)]
struct Kind {
    ty: Ty,
    /// Their numbers, the least first.
    numbers: List<u32>,
    /// How many of them the present full expression has taken: the first ones.
    used: usize,
}

/// The registers of a graph that is being made, and the temporaries among them that the present full expression has taken. The temporaries are
/// also kept by their types, so that the least one that is free is found at once.
#[derive(Drop)]
pub(crate) struct Registers {
    regs: List<Reg>,
    taken: Vec<u32>,
    kinds: Vec<Kind>,
}

impl Model for Registers {
    ghost use Rattle.po_draft.specs.Held.{Held};

    ghost Value = { Held };

    ghost use Rattle.po_draft.specs.Kinds.{AreKept};

    ghost view = { λ r. record { regs = r.regs; taken = r.taken.items } };

    ghost invariant = { λ r. AreKept r.regs r.taken.items r.kinds.items };
}

fn is_of(kind: &Kind, ty: Ty) -> bool
    ensures { IsTrue result ↔ (kind.now.ty ≡ ty) }
{
    kind.ty == ty
}

/// Where the temporaries of a type are kept.
fn find(kinds: &[Kind], ty: Ty) -> Option<usize>
    ensures { MatchOption result (IsMissing kinds.now ty) (λ k. IsKindAt kinds.now k ty) }
{
    for k in 0..kinds.len() {
        if is_of(&kinds[k], ty) {
            return Some(k);
        }
    }
    None
}

/// Where the temporaries of a type are kept, if one of them is free.
fn find_free(kinds: &[Kind], ty: Ty) -> Option<usize>
    ensures { MatchOption result (HasNone kinds.now ty) (λ k. HasFree kinds.now k ty) }
{
    if let Some(k) = find(kinds, ty) {
        if kinds[k].used < kinds[k].numbers.len() {
            return Some(k);
        }
    }
    None
}

/// Counts a register behind all others as a temporary of a type.
fn note(alloc: Global, kinds: &mut Vec<Kind>, ty: Ty, number: u32) -> Result<(), Memory>
    ensures { OnOk result (KeepsNoted ty number kinds.old.items kinds.new.items) }
{
    if let Some(k) = find(kinds.as_slice(), ty) {
        kinds[k].numbers.push(number)?;
        return Ok(());
    }
    let mut numbers = List::new(alloc);
    numbers.push(number)?;
    let kind = Kind {
        ty,
        numbers,
        used: 0,
    };
    push(kinds, kind)?;
    Ok(())
}

/// Whether a register is a temporary: one without a name that is no parameter.
fn is_temporary(reg: &Reg) -> bool
    ensures { IsTrue result ↔ (reg.now ≡ temporary reg.now.ty) }
{
    reg.name.is_none() && !reg.param
}

/// Puts a temporary behind all registers.
fn add_temporary(
    alloc: Global,
    regs: &mut List<Reg>,
    kinds: &mut Vec<Kind>,
    reg: Reg,
) -> Result<(), Memory>
    requires { reg ≡ temporary reg.ty }
    ensures regs { OnOk result (regs.new ≡ regs.old ++ reg ∷ []) }
    ensures kept { OnOk result (KeepsAdded regs.old regs.new kinds.old.items kinds.new.items) }
{
    note(alloc, kinds, reg.ty, counted(regs.len())?)?;
    regs.push(reg)?;
    Ok(())
}

/// Puts a register behind all others.
fn add(alloc: Global, regs: &mut List<Reg>, kinds: &mut Vec<Kind>, reg: Reg) -> Result<(), Memory>
    ensures regs { OnOk result (regs.new ≡ regs.old ++ reg ∷ []) }
    ensures kept { OnOk result (KeepsAdded regs.old regs.new kinds.old.items kinds.new.items) }
{
    if is_temporary(&reg) {
        return add_temporary(alloc, regs, kinds, reg);
    }
    regs.push(reg)?;
    Ok(())
}

/// Takes the least temporary that is free among those that are kept at a place.
fn use_at(taken: &mut Vec<u32>, kinds: &mut Vec<Kind>, k: usize) -> Result<RegNo, Memory>
    requires { HasFreeAt kinds.old.items k }
    ensures used { IfOk result (λ r. IsUsed k r.0 taken.old.items kinds.old.items taken.new.items kinds.new.items) }
    ensures kept { KeepsTaken taken.old.items kinds.old.items taken.new.items kinds.new.items }
{
    let used = kinds[k].used;
    let number = kinds[k].numbers.as_slice()[used];
    push(taken, number)?;
    kinds[k].used = used + 1;
    Ok(RegNo(number))
}

/// Makes a temporary and takes it.
fn take_new(
    alloc: Global,
    regs: &mut List<Reg>,
    taken: &mut Vec<u32>,
    kinds: &mut Vec<Kind>,
    ty: Ty,
) -> Result<RegNo, Memory>
    requires none { HasNone kinds.old.items ty }
    requires kept { AreKept regs.old taken.old.items kinds.old.items }
    ensures takes { IfOk result (λ r. TakesHeld ty (record { regs = regs.old; taken = taken.old.items }) r.0 (record { regs = regs.new; taken = taken.new.items })) }
    ensures kept { OnOk result (AreKept regs.new taken.new.items kinds.new.items) }
{
    let temporary = Reg {
        name: None,
        ty,
        param: false,
    };
    add_temporary(alloc, regs, kinds, temporary)?;
    match find_free(kinds.as_slice(), ty) {
        Some(k) => Ok(use_at(taken, kinds, k)?),
        None => unreachable!(),
    }
}

/// Lets go of all registers.
fn give_up(alloc: Global, regs: &mut List<Reg>, taken: &mut Vec<u32>, kinds: &mut Vec<Kind>)
    ensures { AreKept regs.new taken.new.items kinds.new.items }
{
    *regs = List::new(alloc);
    taken.clear();
    kinds.clear();
}

/// Frees what was taken of one type.
fn free_at(kinds: &mut Vec<Kind>, k: usize)
    requires { k < length kinds.old.items }
    ensures { IsFreedAt k kinds.old.items kinds.new.items }
{
    kinds[k].used = 0;
}

/// Frees all that were taken.
fn free_all(kinds: &mut Vec<Kind>)
    ensures { AreUnused kinds.old.items kinds.new.items }
{
    let mut k = 0;
    while k < kinds.len() {
        free_at(kinds, k);
        k += 1;
    }
}

impl Registers {
    /// No registers. It takes no memory yet.
    pub(crate) fn new(alloc: Global) -> Registers
        ensures { (result.regs ≡ []) × (result.taken ≡ []) }
    {
        Registers {
            regs: List::new(alloc),
            taken: Vec::new(alloc),
            kinds: Vec::new(alloc),
        }
    }

    /// Puts a register behind all others, in constant time. After `Memory` there are no registers.
    pub(crate) fn add(&mut self, alloc: Global, reg: Reg) -> Result<(), Memory>
        ensures { OnOk result (self.new ≡ record self.old { regs = self.old.regs ++ reg ∷ [] }) }
    {
        match add(alloc, &mut self.regs, &mut self.kinds, reg) {
            Ok(()) => Ok(()),
            Err(_) => {
                give_up(alloc, &mut self.regs, &mut self.taken, &mut self.kinds);
                Err(Memory)
            }
        }
    }

    /// Takes the least temporary of the type that isn't taken, and a new one where there is none, in constant time. After `Memory` where a new
    /// one was wanted there are no registers.
    pub(crate) fn take(&mut self, alloc: Global, ty: Ty) -> Result<RegNo, Memory>
        ensures { IfOk result (λ r. TakesHeld ty self.old r.0 self.new) }
    {
        if let Some(k) = find_free(self.kinds.as_slice(), ty) {
            return Ok(use_at(&mut self.taken, &mut self.kinds, k)?);
        }
        match take_new(alloc, &mut self.regs, &mut self.taken, &mut self.kinds, ty) {
            Ok(r) => Ok(r),
            Err(_) => {
                give_up(alloc, &mut self.regs, &mut self.taken, &mut self.kinds);
                Err(Memory)
            }
        }
    }

    /// Frees all that were taken, in time linear in the number of the temporaries' types.
    pub(crate) fn free(&mut self)
        ensures { self.new ≡ record self.old { taken = [] } }
    {
        self.taken.clear();
        free_all(&mut self.kinds);
    }

    /// The type of a register, in constant time.
    pub(crate) fn type_of(&self, r: RegNo) -> Option<Ty>
        ensures { result ≡ option_map (λ x. x.ty) (slice_get self.now.regs r.0) }
    {
        match self.regs.get(r.0 as usize) {
            Some(reg) => Some(reg.ty),
            None => None,
        }
    }

    /// The registers alone.
    pub(crate) fn into_list(self) -> List<Reg>
        ensures { result ≡ self.regs }
    {
        self.regs
    }
}
