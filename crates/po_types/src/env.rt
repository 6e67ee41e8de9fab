// Environments: what the declarations so far say.
ghost use Rattle.std.specs.Prelude.{◌≡◌};
ghost use Rattle.po_types.specs.Environments.{no_declarations};
ghost use Rattle.po_types.specs.Nesting.{IsWellFounded};

use crate::ctype::CType;
use crate::layout::Layout;
use crate::table::Table;
use po_arith::Target;
use po_base::{GlobalNo, List, OrdList, Text};
use std::alloc::Global;

/// What the declarations so far say: the environment of a piece of a file.
#[derive(Drop)]
pub struct Env {
    pub target: Target,
    /// The objects and functions of the file, each with its type; an object with its number among the file's objects.
    pub globals: Table<(CType, Option<GlobalNo>)>,
    /// How many objects there are so far, those inside functions among them.
    pub objects: u32,
    /// How many string literals became objects so far.
    pub texts: u32,
    /// The layouts of the structs by their numbers. An incomplete struct has none.
    pub structs: List<Option<Layout>>,
    /// The members of the structs by their numbers, in order.
    pub members: List<Table<CType>>,
    /// The tags of structs that are in force at file level.
    pub tags: Table<u32>,
    /// The typedef names, each with its type and whether that is const.
    pub typedefs: Table<(CType, bool)>,
    /// The enumerators, each with its value.
    pub constants: Table<i128>,
    /// The tags of the structs by their numbers, also where they aren't in force any more.
    pub names: List<Option<Text>>,
    /// The tags of enumerations.
    pub enums: OrdList<Text>,
    /// The objects that have an initialiser.
    pub initialised: OrdList<Text>,
}

impl Env {
    /// The environment of a file before its first piece.
    pub fn new(alloc: Global, target: Target) -> Env
        ensures nothing { result ≡ no_declarations target }
        ensures founded { IsWellFounded result }
    {
        Env {
            target,
            globals: Table::new(alloc),
            objects: 0,
            texts: 0,
            structs: List::new(alloc),
            members: List::new(alloc),
            tags: Table::new(alloc),
            typedefs: Table::new(alloc),
            constants: Table::new(alloc),
            names: List::new(alloc),
            enums: OrdList::new(alloc),
            initialised: OrdList::new(alloc),
        }
    }
}
