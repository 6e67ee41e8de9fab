// Where the reader of a declaration stands.

use po_base::List;
use po_decl_steps::{Focus, Level};
use po_tree::Decl;

/// Where the reader stands.
#[derive(Drop)]
pub struct State {
    /// The open levels around the innermost, the outermost first.
    pub below: List<Level>,
    /// The innermost level.
    pub level: Level,
    pub focus: Focus,
    /// The place of the next token.
    pub at: u32,
    /// How many lists of parameters are open, each of which has a scope of its own.
    pub lists: u32,
}

/// What a step comes to.
#[derive(Drop)]
pub enum Step {
    /// It goes on from here.
    Next(State),
    /// The declaration is whole; the place behind its semicolon.
    Whole(Decl, u32),
    /// No declaration goes on from here.
    Stuck,
}
