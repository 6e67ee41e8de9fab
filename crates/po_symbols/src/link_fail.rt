// Causes for which files can't be joined.
ghost use Rattle.std.specs.Prelude.{◌≡◌};
ghost use Rattle.po_symbols.specs.declared.link_fail.LinkFail.TheVariants.{Memory as NoMemory};

use po_base::{FileNo, Memory, Text};
use thiserror::Error;

/// Why files can't be joined to a project.
#[derive(Debug, Drop, Error)]
pub enum LinkFail {
    /// Two files give bodies for one external name.
    #[error("two files define one external name")]
    TwoBodies { name: Text, a: FileNo, b: FileNo },
    /// Two files declare one external name with types that differ.
    #[error("two files declare one external name with different types")]
    Clash { name: Text, a: FileNo, b: FileNo },
    /// The sum of nodes times registers passes 2^24, or else the functions pass 65,535: the sum, or their number.
    #[error("too large")]
    TooLarge { count: u64 },
    /// Memory was wanting.
    #[error("out of memory")]
    Memory,
}

impl From<Memory> for LinkFail {
    ghost from_gives = { λ _ e. e ≡ NoMemory };

    fn from(_error: Memory) -> LinkFail {
        LinkFail::Memory
    }
}
