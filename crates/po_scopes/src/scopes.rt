// The scopes that are open inside the file's.
ghost use Rattle.std.specs.Prelude.{◌≡◌, ◌≢◌, [], ◌∷◌, ◌++◌, None, OnOk, OnErr, MatchOption, drop};
ghost use Rattle.std.specs.Option.{option_map, is_some};
ghost use Rattle.po_typed.specs.Scopes.{no_block, word_in, word_here, tag_in, tag_here, within_innermost};
ghost use Rattle.po_scopes.specs.Meanings.{as_local, as_tag};
ghost use Rattle.po_scopes.specs.Standing.{blocks_of, as_block, and_word, and_tag};

use crate::meaning::{Local, Tag};
use po_base::{Memory, Text};
use po_types::Table;
use std::alloc::Global;
use std::marker::Model;

/// What was declared in one scope.
#[derive(Drop)]
struct Scope {
    words: Table<Local>,
    tags: Table<Tag>,
}

/// The scopes that are open inside the file's: those of parameters and of blocks. Contracts see them as the list of what was declared in
/// each, the innermost first.
#[derive(Drop)]
pub struct Scopes {
    scopes: Vec<Scope>,
}

impl Model for Scopes {
    ghost use Rattle.std.specs.Prelude.{List};
    ghost use Rattle.po_typed.specs.Scopes.{Block};
    ghost use Rattle.po_types.specs.contracts.ctype.CType as t;
    ghost use Rattle.std.specs.Coded.{codes};

    ghost Value = { List Block };

    ghost coded = { Prim.hlevel (codes, t.the_row.coded) };

    ghost use Rattle.po_scopes.specs.Standing.{blocks_of};

    ghost view = { λ s. blocks_of s.scopes.items };
}

/// What the innermost scope that has it says of a word.
fn word<'a>(scopes: &'a [Scope], name: &Text) -> Option<&'a Local>
    ensures { option_map (λ l. as_local l.now) result ≡ word_in (blocks_of scopes.now) name.now }
{
    let mut left = scopes.len();
    while left > 0 {
        left -= 1;
        match scopes[left].words.find(name) {
            Some(local) => return Some(local),
            None => {}
        }
    }
    None
}

/// What the innermost scope that has it says of a tag.
fn tag(scopes: &[Scope], name: &Text) -> Option<Tag>
    ensures { option_map as_tag result ≡ tag_in (blocks_of scopes.now) name.now }
{
    let mut left = scopes.len();
    while left > 0 {
        left -= 1;
        match scopes[left].tags.find(name) {
            Some(tag) => return Some(*tag),
            None => {}
        }
    }
    None
}

/// Takes the last scope away.
fn last_taken(scopes: &mut Vec<Scope>) -> Option<Scope>
    ensures { MatchOption result ((scopes.old.items ≡ []) × (scopes.new.items ≡ [])) (λ last. scopes.old.items ≡ scopes.new.items ++ last ∷ []) }
{
    scopes.pop()
}

impl Scopes {
    /// No scope but the file's.
    pub fn new(alloc: Global) -> Scopes
        ensures { result ≡ [] }
    {
        Scopes {
            scopes: Vec::new(alloc),
        }
    }

    /// Opens a scope inside the others.
    pub fn open(&mut self, alloc: Global) -> Result<(), Memory>
        ensures ok { OnOk result (self.new ≡ no_block ∷ self.old) }
        ensures err { OnErr result (self.new ≡ self.old) }
    {
        let scope = Scope {
            words: Table::new(alloc),
            tags: Table::new(alloc),
        };
        match self.scopes.push(scope) {
            Ok(()) => Ok(()),
            Err(_) => Err(Memory),
        }
    }

    /// Closes the innermost scope, where there is one. What was declared in it is given up.
    pub fn close(&mut self)
        ensures { self.new ≡ drop 1 self.old }
    {
        let _ = last_taken(&mut self.scopes);
    }

    /// What the innermost scope that has it says of a word. Each scope is looked at in constant time on the average.
    pub fn word(&self, name: &Text) -> Option<&Local>
        ensures { option_map (λ l. as_local l.now) result ≡ word_in self.now name.now }
    {
        word(self.scopes.as_slice(), name)
    }

    /// What the innermost scope that has it says of a tag. Each scope is looked at in constant time on the average.
    pub fn tag(&self, name: &Text) -> Option<Tag>
        ensures { option_map as_tag result ≡ tag_in self.now name.now }
    {
        tag(self.scopes.as_slice(), name)
    }

    /// Whether the innermost scope has a word, in constant time on the average.
    pub fn has_word_here(&self, name: &Text) -> bool
        ensures { result ≡ is_some (word_here self.now name.now) }
    {
        match self.scopes.last() {
            None => false,
            Some(scope) => match scope.words.find(name) {
                None => false,
                Some(_) => true,
            },
        }
    }

    /// Whether the innermost scope has a tag, in constant time on the average.
    pub fn has_tag_here(&self, name: &Text) -> bool
        ensures { result ≡ is_some (tag_here self.now name.now) }
    {
        match self.scopes.last() {
            None => false,
            Some(scope) => match scope.tags.find(name) {
                None => false,
                Some(_) => true,
            },
        }
    }

    /// Declares a word in the innermost scope, in constant time on the average.
    pub fn declare(&mut self, name: Text, local: Local) -> Result<(), Memory>
        requires inside { self.old ≢ [] }
        requires new { word_here self.old name ≡ None }
        ensures ok { OnOk result (self.new ≡ within_innermost (and_word name (as_local local)) self.old) }
        ensures err { OnErr result (self.new ≡ self.old) }
    {
        let last = self.scopes.len() - 1;
        self.scopes[last].words.add(name, local)
    }

    /// Declares a tag in the innermost scope, in constant time on the average.
    pub fn declare_tag(&mut self, name: Text, tag: Tag) -> Result<(), Memory>
        requires inside { self.old ≢ [] }
        requires new { tag_here self.old name ≡ None }
        ensures ok { OnOk result (self.new ≡ within_innermost (and_tag name (as_tag tag)) self.old) }
        ensures err { OnErr result (self.new ≡ self.old) }
    {
        let last = self.scopes.len() - 1;
        self.scopes[last].tags.add(name, tag)
    }
}
