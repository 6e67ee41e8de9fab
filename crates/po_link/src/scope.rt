// What the names and numbers of a file mean in the project.
ghost use Rattle.std.specs.Prelude.{◌≡◌, ◌+◌, ◌++◌, ◌∷◌, [], ℕ, List, None, cond, bytes_eq, find, position, option_map, unwrap_or, slice_get, IfOk, OnOk};
ghost use Rattle.std.specs.Option.{option_or};
ghost use Rattle.std.specs.Ordering.{nat_cmp};
ghost use Rattle.std.specs.BTreeMap as tree;
ghost use Rattle.po_symbols.specs.Names.{named};
ghost use Rattle.po_link.specs.Joined.{Naming, is_named, is_declared, is_lib, renamed_callee};
ghost use Rattle.std.specs.List.{list_any};
ghost use Rattle.po_base.specs.declared.numbers.FunNo.{FunNo as FunNoOf};
ghost use Rattle.po_ir.specs.declared.project.CTypeText.{CTypeText as CTypeTextOf};
ghost use Rattle.po_ir.specs.declared.unit.LibUse.{LibUse as LibUseOf};
ghost use Rattle.po_ir.specs.declared.instr.Callee.TheVariants.{Extern};
ghost use Rattle.po_link.specs.Scoped.{flat, AreScoped, seen_by, scoped_function, scoped_lib, IsScope};

use crate::seen::{Seen, following};
use po_base::{FunNo, GlobalNo, LibNo, Memory, StrNo, Text};
use po_ir::{CTypeText, Callee, Function, LibUse, Unit};
use po_symbols::{Named, note, note_name};
use std::alloc::Global;
use std::collections::BTreeMap;

/// What the names and numbers of a file mean in the project.
#[derive(Drop)]
pub(crate) struct Scope<'a> {
    /// The functions that calls name.
    functions: Named<u32>,
    /// The functions that stand for library functions, by the numbers of these.
    libs: BTreeMap<u32, Option<u32>>,
    /// The numbers of the file's globals, in their order.
    globals: &'a [u32],
    /// The number of the file's first literal.
    texts: u32,
}

impl<'a> Scope<'a> {
    /// What a call of the name calls.
    fn named(&self, name: Text) -> Callee
        ensures { (names : Naming) → IsScope self.now names → result ≡ renamed_callee names (Extern name) }
    {
        match self.functions.get(&name) {
            Some(number) => Callee::Fun(FunNo(*number)),
            None => Callee::Extern(name),
        }
    }

    /// What a call calls.
    pub(crate) fn callee(&self, callee: Callee) -> Callee
        ensures { (names : Naming) → IsScope self.now names → result ≡ renamed_callee names callee }
    {
        match callee {
            Callee::Extern(name) => self.named(name),
            Callee::Fun(function) => Callee::Fun(function),
        }
    }

    /// The function that stands for a library function, where a file defines one.
    pub(crate) fn lib(&self, lib: LibNo) -> Option<FunNo>
        ensures { (names : Naming) → IsScope self.now names → option_map (λ (f : FunNoOf). f.0) result ≡ names.lib lib.0 }
    {
        match self.libs.get(&lib.0) {
            Some(Some(number)) => Some(FunNo(*number)),
            _ => None,
        }
    }

    /// The number in the project of a global of the file.
    pub(crate) fn global(&self, global: GlobalNo) -> GlobalNo
        ensures { (names : Naming) → IsScope self.now names → result.0 ≡ names.global global.0 }
    {
        match self.globals.get(global.0 as usize) {
            Some(number) => GlobalNo(*number),
            None => global,
        }
    }

    /// The number in the project of a literal of the file.
    pub(crate) fn text(&self, text: StrNo) -> Result<StrNo, Memory>
        ensures { (names : Naming) → IsScope self.now names → IfOk result (λ number. number.0 ≡ names.text text.0) }
    {
        match self.texts.checked_add(text.0) {
            Some(number) => Ok(StrNo(number)),
            None => Err(Memory),
        }
    }
}

/// Notes the file's own functions, whose numbers start at `first`: of one name the first.
fn note_own(names: &mut Named<u32>, first: u32, functions: &[Function]) -> Result<(), Memory>
    requires { (q : List ℕ) → named names.old q ≡ None }
    ensures { OnOk result ((q : List ℕ) → named names.new q ≡ option_map (λ place. first + place) (position (is_named q) functions.now)) }
{
    let mut number = first;
    for function in functions {
        note_name(names, &function.name, number)?;
        number = following(number)?;
    }
    Ok(())
}

/// Notes the function that other files let this one see under a name that it declares.
fn note_declared(names: &mut Named<u32>, seen: &Seen, name: &Text) -> Result<(), Memory>
    ensures { OnOk result ((q : List ℕ) → named names.new q ≡ option_or (named names.old q) (cond (bytes_eq name.now q) (named seen.now.numbers q) None)) }
{
    match seen.numbers.get(name) {
        Some(number) => note_name(names, name, *number),
        None => Ok(()),
    }
}

fn note_all_declared(
    names: &mut Named<u32>,
    seen: &Seen,
    declared: &[(Text, CTypeText)],
) -> Result<(), Memory>
    ensures { OnOk result ((q : List ℕ) → named names.new q ≡ option_or (named names.old q) (cond (list_any (λ (d : List ℕ × CTypeTextOf). bytes_eq d.0 q) declared.now) (named seen.now.numbers q) None)) }
{
    for pair in declared {
        note_declared(names, seen, &pair.0)?;
    }
    Ok(())
}

fn scope_functions(
    alloc: Global,
    seen: &Seen,
    first: u32,
    unit: &Unit,
) -> Result<Named<u32>, Memory>
    ensures { IfOk result (λ names. (q : List ℕ) → named names q ≡ scoped_function seen.now first unit.now q) }
{
    let mut names = BTreeMap::new(alloc);
    note_own(&mut names, first, unit.functions.as_slice())?;
    note_all_declared(&mut names, seen, unit.declared.as_slice())?;
    Ok(names)
}

fn note_used(
    libs: &mut BTreeMap<u32, Option<u32>>,
    seen: &Seen,
    used: &LibUse,
) -> Result<(), Memory>
    ensures { (before : List LibUseOf) → AreScoped seen.now before libs.old → OnOk result (AreScoped seen.now (before ++ used.now ∷ []) libs.new) }
{
    note(libs, used.lib.0, seen.numbers.get(&used.name).copied())
}

fn scope_libs(
    alloc: Global,
    seen: &Seen,
    used: &[LibUse],
) -> Result<BTreeMap<u32, Option<u32>>, Memory>
    ensures { IfOk result (λ libs. AreScoped seen.now used.now libs) }
{
    let mut libs = BTreeMap::new(alloc);
    for one in used {
        note_used(&mut libs, seen, one)?;
    }
    Ok(libs)
}

/// The scope of a file whose globals have these numbers, and whose functions and literals are numbered from `first` and
/// `texts` on.
pub(crate) fn scope_of<'a>(
    alloc: Global,
    seen: &Seen,
    globals: &'a [u32],
    first: u32,
    texts: u32,
    unit: &Unit,
) -> Result<Scope<'a>, Memory>
    ensures { IfOk result (λ scope. ((q : List ℕ) → named scope.functions q ≡ scoped_function seen.now first unit.now q) × ((lib : ℕ) → flat (tree.get nat_cmp scope.libs lib) ≡ scoped_lib seen.now unit.now lib) × (scope.globals.now ≡ globals.now) × (scope.texts ≡ texts)) }
{
    Ok(Scope {
        functions: scope_functions(alloc, seen, first, unit)?,
        libs: scope_libs(alloc, seen, unit.libs.as_slice())?,
        globals,
        texts,
    })
}
