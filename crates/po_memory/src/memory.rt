// All blocks that were ever made.
ghost use Rattle.std.specs.Prelude.{◌≡◌, ◌++◌, IfOk, OnErr, [], ◌∷◌, length};

use crate::block::Block;
use po_base::{List, Memory};

/// All blocks that were ever made. A block's number is its place, so no number is used again.
#[derive(Debug, Drop)]
pub struct Memory2 {
    pub blocks: List<Block>,
}

/// Puts a new block behind those that are there, and gives its number. After `Memory` the blocks are as before. In
/// constant time on the average of many.
pub fn alloc_block(m: &mut Memory2, b: Block) -> Result<u64, Memory>
    ensures number { IfOk result (λ n. n ≡ length m.old.blocks) }
    ensures blocks { IfOk result (λ n. m.new.blocks ≡ m.old.blocks ++ b ∷ []) }
    ensures unchanged { OnErr result (m.new.blocks ≡ m.old.blocks) }
{
    let number = m.blocks.len();
    m.blocks.push(b)?;
    Ok(number as u64)
}
