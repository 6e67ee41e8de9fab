// The pieces of tokens: declarations and definitions.
ghost use Rattle.std.specs.Prelude.{ℕ, ◌≡◌, ◌<◌, ◌≤◌, ◌+◌, ◌^◌, ◌∷◌, [], length, IfOk, IfErr, List as Items};
ghost use Rattle.po_base.specs.declared.token.Token.{Token as Placed};
ghost use Rattle.po_lex.specs.Brackets.{state_of};
ghost use Rattle.po_lex.specs.Pieces.{ArePieces, Divided};
ghost use Rattle.po_lex.specs.Shapes.{IsCaused};
ghost use Rattle.po_lex.specs.declared.shape.ShapeFail.TheVariants.{Memory as NoMemory};
ghost use Rattle.po_lex.specs.declared.shape.Piece.{Piece as Range};

use crate::nesting::{Nesting, mark};
use po_base::{List, Memory, Tokens};
use std::alloc::Global;
use thiserror::Error;

/// A declaration or a definition among the kept tokens of a file.
#[derive(Clone, Copy, Debug, PartialEq, Eq)]
pub struct Piece {
    /// The place of its first token.
    pub from: u32,
    /// The place behind its last token.
    pub to: u32,
    /// Whether it ends with the `}` of a body.
    pub body: bool,
}

/// Why tokens have no pieces.
#[derive(Clone, Copy, Debug, PartialEq, Eq, Error)]
pub enum ShapeFail {
    /// Brackets don't match, or tokens are left over; the line is one of the file.
    #[error("brackets don't match, or tokens are left over, on line {line}")]
    Shape { line: u32 },
    /// Memory was wanting.
    #[error("out of memory")]
    Memory,
}

impl From<Memory> for ShapeFail {
    ghost from_gives = { λ _ e. e ≡ NoMemory };

    fn from(_error: Memory) -> ShapeFail {
        ShapeFail::Memory
    }
}

/// The pieces of the kept tokens of a file, fewer than 2^32: each ends at a `;` outside brackets, or at the `}` outside
/// others of a `{` that stands first in the piece or follows a `)`. Time is linear in the tokens, memory in the pieces
/// and in the depth of brackets.
///
/// # Errors
///
/// [`ShapeFail::Shape`] exactly where the tokens have no pieces: with the line of the first closing bracket that doesn't
/// match the innermost open one, or finds none open; else with the line of the innermost bracket that is open at the
/// end; else with the line of the first token that is left over.
pub fn pieces(alloc: Global, tokens: &Tokens) -> Result<List<Piece>, ShapeFail>
    requires { length tokens.now.list < 2 ^ 32 }
    ensures pieces { IfOk result (λ pieces. ArePieces tokens.now.list pieces) }
    ensures fail { IfErr result (λ fail. IsCaused tokens.now.list fail) }
{
    let list = tokens.list.as_slice();
    let mut pieces = List::new(alloc);
    let mut nesting = Nesting::new(alloc);
    let mut from = 0;
    for at in 0..list.len() {
        let token = &list[at];
        let ends = nesting.ends(token);
        if !nesting.step(token)? {
            return Err(ShapeFail::Shape {
                line: token.own_line,
            });
        }
        if ends {
            pieces.push(Piece {
                from: from as u32,
                to: at as u32 + 1,
                body: mark(token) == b'}',
            })?;
            nesting = Nesting::new(alloc);
            from = at + 1;
            continue;
        }
    }
    if let Some(open) = nesting.open.pop() {
        return Err(ShapeFail::Shape { line: open.line });
    }
    if from < list.len() {
        return Err(ShapeFail::Shape {
            line: list[from].own_line,
        });
    }
    Ok(pieces)
}
