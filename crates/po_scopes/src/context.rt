// What identifiers and tags mean at a place (C99 6.2.1, 6.2.3).
ghost use Rattle.std.specs.Prelude.{◌≡◌, [], get_or};
ghost use Rattle.std.specs.Option.{option_map, option_copied};
ghost use Rattle.po_types.specs.Tables.{found};
ghost use Rattle.po_typed.specs.Scopes as typed;
ghost use Rattle.po_typed.specs.Scopes.{type_name, constant, struct_tag};
ghost use Rattle.po_scopes.specs.Meanings.{as_meaning, as_local, as_tag};
ghost use Rattle.po_scopes.specs.Standing.{in_force, global_meaning, file_words, file_tags};

use crate::meaning::{Local, Meaning, Tag};
use crate::scopes::Scopes;
use po_arith::Target;
use po_base::{GlobalNo, Text};
use po_types::{CType, Env, Layout};
use std::marker::Model;

/// What is in force at a place: the environment of the file, and the scopes that are open inside. It is made in constant time wherever
/// it is needed; contracts see it as what words, tags and numbers of structs mean there.
#[derive(Drop)]
pub struct Context<'a> {
    env: &'a Env,
    scopes: &'a Scopes,
}

impl<'a> Model for Context<'a> {
    ghost use Rattle.po_typed.specs.Scopes.{Context};
    ghost use Rattle.po_types.specs.contracts.ctype.CType as t;
    ghost use Rattle.std.specs.Coded.{codes};

    ghost Value = { Context };

    ghost coded = { Prim.hlevel (codes, t.the_row.coded) };

    ghost use Rattle.po_scopes.specs.Standing.{in_force};

    ghost view = { λ c. in_force c.env.now c.scopes.now };
}

/// What an identifier means that was declared in a scope inside the file's.
fn of_local(local: &Local) -> Meaning<'_>
    ensures { as_meaning result ≡ as_local local.now }
{
    match local {
        Local::Object(storage, t) => Meaning::Local(*storage, t),
        Local::Constant(value) => Meaning::Constant(*value),
    }
}

/// An object of the file, or a function.
fn of_global(entry: &(CType, Option<GlobalNo>)) -> Meaning<'_>
    ensures { as_meaning result ≡ global_meaning entry.now }
{
    match entry.1 {
        None => Meaning::Function(&entry.0),
        Some(n) => Meaning::Global(&entry.0, n),
    }
}

/// A typedef name.
fn of_typedef(entry: &(CType, bool)) -> Meaning<'_>
    ensures { as_meaning result ≡ type_name entry.now.0 entry.now.1 }
{
    Meaning::TypeName(&entry.0, entry.1)
}

/// An enumerator.
fn of_constant(value: &i128) -> Meaning<'static>
    ensures { as_meaning result ≡ constant value.now }
{
    Meaning::Constant(*value)
}

/// What the file's scope says of a word.
fn file_word<'a>(env: &'a Env, name: &Text) -> Option<Meaning<'a>>
    ensures { option_map as_meaning result ≡ found (file_words env.now) name.now }
{
    match env.globals.find(name) {
        Some(entry) => return Some(of_global(entry)),
        None => {}
    }
    match env.typedefs.find(name) {
        Some(entry) => return Some(of_typedef(entry)),
        None => {}
    }
    match env.constants.find(name) {
        Some(value) => Some(of_constant(value)),
        None => None,
    }
}

/// The tag of a struct.
fn of_struct(n: &u32) -> Tag
    ensures { as_tag result ≡ struct_tag n.now }
{
    Tag::Struct(*n)
}

/// What the file's scope says of a tag.
fn file_tag(env: &Env, name: &Text) -> Option<Tag>
    ensures { option_map as_tag result ≡ found (file_tags env.now) name.now }
{
    match env.tags.find(name) {
        Some(n) => return Some(of_struct(n)),
        None => {}
    }
    if env.enums.has(name) {
        return Some(Tag::Enum);
    }
    None
}

impl<'a> Context<'a> {
    /// What is in force where these scopes are open inside the file's.
    pub fn new(env: &'a Env, scopes: &'a Scopes) -> Context<'a>
        ensures { result ≡ in_force env.now scopes.now }
    {
        Context { env, scopes }
    }

    /// The target.
    pub fn target(&self) -> Target
        ensures { result ≡ self.now.target }
    {
        self.env.target
    }

    /// The layouts of the structs by their numbers.
    pub fn structs(&self) -> &'a [Option<Layout>]
        ensures { result.now ≡ self.now.structs }
    {
        self.env.structs.as_slice()
    }

    /// The type of a member of the struct of a number, in constant time on the average.
    pub fn member(&self, n: u32, name: &Text) -> Option<&'a CType>
        ensures { option_copied result ≡ found (get_or self.now.members n []) name.now }
    {
        match self.env.members.get(n as usize) {
            None => None,
            Some(members) => members.find(name),
        }
    }

    /// What an identifier means here, if it means something (C99 6.2.1p4). The scopes that are open, and then the file's, are looked at one after the
    /// other, each in constant time on the average.
    pub fn meaning(&self, name: &Text) -> Option<Meaning<'a>>
        ensures { option_map as_meaning result ≡ typed.meaning self.now name.now }
    {
        match self.scopes.word(name) {
            Some(local) => Some(of_local(local)),
            None => file_word(self.env, name),
        }
    }

    /// What a tag stands for here, if it stands for something. Time as for `meaning`.
    pub fn tag_meaning(&self, name: &Text) -> Option<Tag>
        ensures { option_map as_tag result ≡ typed.tag_meaning self.now name.now }
    {
        match self.scopes.tag(name) {
            Some(tag) => Some(tag),
            None => file_tag(self.env, name),
        }
    }
}
