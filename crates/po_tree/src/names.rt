// The names in force whose kind the grammar asks for, with scopes that open and close (C99 6.2.1).
ghost use Rattle.std.specs.Prelude.{ℕ, ◌≡◌, ◌↔◌, ◌⊎◌, [], ◌∷◌, ◌++◌, map, IsTrue, Contains, IfOk, OnOk, OnErr, MatchBool, Some};
ghost use Rattle.po_tree.specs.Declarations.{IsTypedef};
ghost use Rattle.po_tree.specs.InForce.{outer_of, IsAscending, OpensScope, Closes};
ghost use Rattle.po_tree.specs.Scope.{AreBehind, AreBehindWords, head_of, HidesTypes, AddsTypes, AddsTags, HasWord};
ghost use Rattle.po_tree.specs.NameSets.{Adds};
ghost use Rattle.po_tree.specs.Gathering.{AddsSpecs, Opens, in_members, IsTypedefWord};

use crate::declaration::{Decl, Init};
use crate::expression::{Declarator, Exp, Member, Specifier};
use crate::function::FunTree;
use po_base::{List, Memory, OrdList, Text};
use std::alloc::Global;
use std::marker::Model;

/// The names in force at a place whose kind the grammar asks for: the typedef names that nothing hides, and the tags of structs and
/// enumerations. Contracts also see what stood where each scope that is open there began.
#[derive(Drop)]
pub struct Names {
    typedefs: OrdList<Text>,
    tags: OrdList<Text>,
    /// What has changed, so that it can be undone where a scope ends.
    changes: List<Change>,
}

/// A change of the names.
#[derive(Drop)]
enum Change {
    /// A scope began.
    Opened,
    /// A typedef name was hidden.
    Hidden(Text),
    /// A typedef name was declared.
    Declared(Text),
    /// A tag was declared.
    Tagged(Text),
}

impl Model for Names {
    ghost use Rattle.po_tree.specs.InForce.{InForce, in_force_code, outer_of, IsAscending};

    ghost Value = { InForce };

    ghost coded = { in_force_code };

    ghost view = { λ n. record { typedefs = n.typedefs; tags = n.tags; outer = outer_of n.changes n.typedefs n.tags } };

    ghost invariant = { λ n. IsAscending n.typedefs };
}

/// What specifiers declare.
#[derive(Drop)]
struct Declared {
    enumerators: OrdList<Text>,
    tags: OrdList<Text>,
}

/// Whether a name is in a set.
fn has(set: &OrdList<Text>, name: &Text) -> bool
    ensures { IsTrue result ↔ Contains set.now name.now }
{
    set.has(name)
}

/// Puts a name into a set.
fn add(set: &mut OrdList<Text>, name: &Text) -> Result<(), Memory>
    ensures adds { IfOk result (λ _. Adds (λ x. name.now ≡ x) set.old set.new) }
    ensures ascending { IfOk result (λ _. IsAscending set.new) }
{
    let _ = set.insert(name.share()?)?;
    Ok(())
}

/// Puts a tag, where it is written, into a set.
fn add_tag(set: &mut OrdList<Text>, tag: &Option<Text>) -> Result<(), Memory>
    ensures { IfOk result (λ _. Adds (λ x. tag.now ≡ Some x) set.old set.new) }
{
    match tag {
        Some(name) => add(set, name),
        None => Ok(()),
    }
}

/// Puts the names of enumerators into a set.
fn add_items(set: &mut OrdList<Text>, items: &[(Text, Option<Exp>)]) -> Result<(), Memory>
    ensures { IfOk result (λ _. Adds (Contains (map (λ item. item.0) items.now)) set.old set.new) }
{
    for item in items {
        add(set, &item.0)?;
    }
    Ok(())
}

/// Puts specifiers behind those that wait.
fn wait<'a>(waiting: &mut List<&'a Specifier>, specs: &'a [Specifier]) -> Result<(), Memory>
    ensures { IfOk result (λ _. map (λ s. s.now) waiting.new ≡ map (λ s. s.now) waiting.old ++ specs.now) }
{
    for spec in specs {
        waiting.push(spec)?;
    }
    Ok(())
}

/// Puts the specifiers of members behind those that wait.
fn wait_members<'a>(waiting: &mut List<&'a Specifier>, members: &'a [Member]) -> Result<(), Memory>
    ensures { IfOk result (λ _. map (λ s. s.now) waiting.new ≡ map (λ s. s.now) waiting.old ++ in_members members.now) }
{
    for member in members {
        wait(waiting, member.specs.as_slice())?;
    }
    Ok(())
}

/// Gathers what one specifier declares by itself, and lets those of its body wait.
fn gather_one<'a>(
    spec: &'a Specifier,
    waiting: &mut List<&'a Specifier>,
    found: &mut Declared,
) -> Result<(), Memory>
    ensures { IfOk result (λ _. Opens spec.now (map (λ s. s.now) waiting.old) (map (λ s. s.now) waiting.new) found.old found.new) }
{
    match spec {
        Specifier::Word(_) => Ok(()),
        Specifier::Named(_) => Ok(()),
        Specifier::Struct(tag, members) => {
            add_tag(&mut found.tags, tag)?;
            match members {
                Some(members) => wait_members(waiting, members.as_slice()),
                None => Ok(()),
            }
        }
        Specifier::Enum(tag, items, _) => {
            add_tag(&mut found.tags, tag)?;
            match items {
                Some(items) => add_items(&mut found.enumerators, items.as_slice()),
                None => Ok(()),
            }
        }
    }
}

/// Gathers what specifiers declare, in their bodies too, however deep these are nested.
fn gather(alloc: Global, specs: &[Specifier], found: &mut Declared) -> Result<(), Memory>
    ensures { IfOk result (λ _. AddsSpecs specs.now found.old found.new) }
{
    let mut waiting = List::new(alloc);
    wait(&mut waiting, specs)?;
    while let Some(spec) = waiting.pop() {
        gather_one(spec, &mut waiting, found)?;
    }
    Ok(())
}

/// The words of declarators.
fn words(alloc: Global, parts: &[(Declarator, Option<Init>)]) -> Result<OrdList<Text>, Memory>
    ensures { IfOk result (λ words. Adds (HasWord parts.now) [] words) }
{
    let mut words = OrdList::new(alloc);
    for part in parts {
        add_tag(&mut words, &part.0.name)?;
    }
    Ok(words)
}

/// Whether a specifier is the word `typedef`.
fn is_typedef_word(spec: &Specifier) -> bool
    ensures { IsTrue result ↔ IsTypedefWord spec.now }
{
    match spec {
        Specifier::Word(text) => text.bytes() == b"typedef".as_slice(),
        Specifier::Named(_) => false,
        Specifier::Struct(_, _) => false,
        Specifier::Enum(_, _, _) => false,
    }
}

/// Whether specifiers say that the words are typedef names.
fn is_typedef(specs: &[Specifier]) -> bool
    ensures { IsTrue result ↔ IsTypedef specs.now }
{
    for spec in specs {
        if is_typedef_word(spec) {
            return true;
        }
    }
    false
}

/// Hides names.
fn hide_all(names: &mut Names, hidden: &OrdList<Text>) -> Result<(), Memory>
    ensures { IfOk result (λ _. HidesTypes (Contains hidden.now) names.old names.new) }
{
    for name in hidden.iter() {
        names.hide(name)?;
    }
    Ok(())
}

/// Declares typedef names.
fn declare_types(names: &mut Names, types: &OrdList<Text>) -> Result<(), Memory>
    ensures { IfOk result (λ _. AddsTypes (Contains types.now) names.old names.new) }
{
    for name in types.iter() {
        names.declare_type(name)?;
    }
    Ok(())
}

/// Declares tags.
fn declare_tags(names: &mut Names, tags: &OrdList<Text>) -> Result<(), Memory>
    ensures { IfOk result (λ _. AddsTags (Contains tags.now) names.old names.new) }
{
    for name in tags.iter() {
        names.declare_tag(name)?;
    }
    Ok(())
}

/// Declares the words of declarators, as typedef names or as others.
fn declare_words(names: &mut Names, types: bool, words: &OrdList<Text>) -> Result<(), Memory>
    ensures { IfOk result (λ _. MatchBool types (AddsTypes (Contains words.now) names.old names.new) (HidesTypes (Contains words.now) names.old names.new)) }
{
    if types {
        return declare_types(names, words);
    }
    hide_all(names, words)
}

/// Declares what specifiers declare, and the words of the declarators behind them.
fn declare_all(
    names: &mut Names,
    alloc: Global,
    specs: &[Specifier],
    words: &OrdList<Text>,
) -> Result<(), Memory>
    ensures { IfOk result (λ _. AreBehindWords names.old specs.now words.now names.new) }
{
    let mut found = Declared {
        enumerators: OrdList::new(alloc),
        tags: OrdList::new(alloc),
    };
    gather(alloc, specs, &mut found)?;
    hide_all(names, &found.enumerators)?;
    declare_words(names, is_typedef(specs), words)?;
    declare_tags(names, &found.tags)
}

/// Undoes changes back to where the innermost scope began.
fn undo(
    changes: &mut List<Change>,
    typedefs: &mut OrdList<Text>,
    tags: &mut OrdList<Text>,
) -> Result<(), Memory>
    ensures ascending { IsAscending typedefs.old → IsAscending typedefs.new }
    ensures closed { IfOk result (λ _. (outer_of changes.old typedefs.old tags.old ≡ [] → ⊥) → outer_of changes.old typedefs.old tags.old ≡ record { typedefs = typedefs.new; tags = tags.new } ∷ outer_of changes.new typedefs.new tags.new) }
{
    while let Some(change) = changes.pop() {
        match change {
            Change::Opened => return Ok(()),
            Change::Hidden(name) => {
                let _ = typedefs.insert(name)?;
            }
            Change::Declared(name) => {
                let _ = typedefs.remove(&name);
            }
            Change::Tagged(name) => {
                let _ = tags.remove(&name);
            }
        }
    }
    Ok(())
}

/// A copy of a set.
fn copied(alloc: Global, names: &OrdList<Text>) -> Result<OrdList<Text>, Memory>
    ensures same { IfOk result (λ copy. Adds (Contains names.now) [] copy) }
    ensures ascending { IfOk result (λ copy. IsAscending copy) }
{
    let mut copy = OrdList::new(alloc);
    for name in names.iter() {
        add(&mut copy, name)?;
    }
    Ok(copy)
}

impl Names {
    /// No names, and no scope but the file's.
    pub fn new(alloc: Global) -> Names
        ensures { (result.typedefs ≡ []) × (result.tags ≡ []) × (result.outer ≡ []) }
    {
        Names {
            typedefs: OrdList::new(alloc),
            tags: OrdList::new(alloc),
            changes: List::new(alloc),
        }
    }

    /// Whether a name is a typedef name here. Time in the logarithm of their number.
    pub fn is_type(&self, name: &Text) -> bool
        ensures { IsTrue result ↔ Contains self.now.typedefs name.now }
    {
        has(&self.typedefs, name)
    }

    /// Whether a name is a tag here. Time in the logarithm of their number.
    pub fn is_tag(&self, name: &Text) -> bool
        ensures { IsTrue result ↔ Contains self.now.tags name.now }
    {
        has(&self.tags, name)
    }

    /// Hides a typedef name, as a declared word of another kind does; where it is none, nothing changes. After `Memory` nothing has
    /// changed. Time in the logarithm of the names.
    pub fn hide(&mut self, name: &Text) -> Result<(), Memory>
        ensures ok { IfOk result (λ _. HidesTypes (λ x. name.now ≡ x) self.old self.new) }
        ensures err { OnErr result (self.new ≡ self.old) }
    {
        if !has(&self.typedefs, name) {
            return Ok(());
        }
        self.changes.push(Change::Hidden(name.share()?))?;
        let _ = self.typedefs.remove(name);
        Ok(())
    }

    /// Declares a typedef name. After `Memory` the names are to be given up. Time in the logarithm of the names.
    pub fn declare_type(&mut self, name: &Text) -> Result<(), Memory>
        ensures { IfOk result (λ _. AddsTypes (λ x. name.now ≡ x) self.old self.new) }
    {
        if has(&self.typedefs, name) {
            return Ok(());
        }
        self.changes.push(Change::Declared(name.share()?))?;
        let _ = self.typedefs.insert(name.share()?)?;
        Ok(())
    }

    /// Declares a tag. After `Memory` the names are to be given up. Time in the logarithm of the names.
    pub fn declare_tag(&mut self, name: &Text) -> Result<(), Memory>
        ensures { IfOk result (λ _. AddsTags (λ x. name.now ≡ x) self.old self.new) }
    {
        if has(&self.tags, name) {
            return Ok(());
        }
        self.changes.push(Change::Tagged(name.share()?))?;
        let _ = self.tags.insert(name.share()?)?;
        Ok(())
    }

    /// Opens a scope, at whose end the names are again those of now. After `Memory` nothing has changed.
    pub fn open_scope(&mut self) -> Result<(), Memory>
        ensures ok { OnOk result (OpensScope self.old self.new) }
        ensures err { OnErr result (self.new ≡ self.old) }
    {
        self.changes.push(Change::Opened)
    }

    /// Closes the innermost scope: the names are those where it began. After `Memory` the names are to be given up. Time is linear in what
    /// was declared in the scope, but for a logarithm.
    pub fn close_scope(&mut self) -> Result<(), Memory>
        requires { self.old.outer ≡ [] → ⊥ }
        ensures { IfOk result (λ _. Closes self.old self.new) }
    {
        undo(&mut self.changes, &mut self.typedefs, &mut self.tags)
    }

    /// Makes these the names behind a declaration: its typedef names and its tags are added, and the enumerators and other words that it
    /// declares hide typedef names. Names of parameters and of members don't count. After `Memory` the names are to be given up.
    ///
    /// Time is linear in the declaration, but for a logarithm; the stack doesn't grow with the nesting of struct bodies.
    pub fn declare(&mut self, alloc: Global, d: &Decl) -> Result<(), Memory>
        ensures { IfOk result (λ _. AreBehind self.old d.now self.new × (self.new.outer ≡ self.old.outer)) }
    {
        let words = words(alloc, d.parts.as_slice())?;
        declare_all(self, alloc, d.specs.as_slice(), &words)
    }

    /// Makes these the names behind a definition: those behind the declaration that its head is. What its parameters and its body declare
    /// doesn't count. After `Memory` the names are to be given up. Time as for `declare`.
    pub fn declare_definition(&mut self, alloc: Global, g: &FunTree) -> Result<(), Memory>
        ensures { IfOk result (λ _. AreBehind self.old (head_of g.now) self.new × (self.new.outer ≡ self.old.outer)) }
    {
        let mut words = OrdList::new(alloc);
        add_tag(&mut words, &g.declarator.name)?;
        declare_all(self, alloc, g.specs.as_slice(), &words)
    }

    /// The names behind a declaration, with no scope open but the file's. Time is linear in these names and in the declaration, but for a
    /// logarithm.
    pub fn after(&self, alloc: Global, d: &Decl) -> Result<Names, Memory>
        ensures { IfOk result (λ behind. AreBehind self.now d.now behind × (behind.outer ≡ [])) }
    {
        let mut behind = Names {
            typedefs: copied(alloc, &self.typedefs)?,
            tags: copied(alloc, &self.tags)?,
            changes: List::new(alloc),
        };
        behind.declare(alloc, d)?;
        Ok(behind)
    }
}
