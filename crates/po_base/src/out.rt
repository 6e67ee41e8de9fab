// Texts that are being written.
ghost use Rattle.std.specs.Prelude.{◌≡◌, ◌++◌, [], OnOk};
ghost use Rattle.std.specs.Fmt.{decimal, signed_decimal};

use crate::memory::Memory;
use std::alloc::Global;
use std::marker::Model;

/// A text that is being written, which contracts see as the bytes so far.
#[derive(Drop)]
pub struct Out {
    alloc: Global,
    bytes: Vec<u8>,
}

impl Model for Out {
    ghost use Rattle.std.specs.Prelude.{List, ℕ};

    ghost Value = { List ℕ };

    ghost view = { λ o. o.bytes.items };
}

impl Out {
    /// No bytes yet.
    pub fn new(alloc: Global) -> Out
        ensures { result ≡ [] }
    {
        Out {
            alloc,
            bytes: Vec::new(alloc),
        }
    }

    /// The bytes, without a copy.
    pub fn into_bytes(self) -> Vec<u8>
        ensures { result.items ≡ self }
    {
        let Out { bytes, .. } = self;
        bytes
    }

    /// The bytes so far.
    pub fn bytes(&self) -> &[u8]
        ensures { result.now ≡ self.now }
    {
        self.bytes.as_slice()
    }

    /// Adds bytes at the end. After `Memory` the text is good for nothing.
    pub fn add(&mut self, bytes: &[u8]) -> Result<(), Memory>
        ensures { OnOk result (self.new ≡ self.old ++ bytes.now) }
    {
        self.bytes.extend_from_slice(bytes)?;
        Ok(())
    }

    /// Adds a number in decimal.
    pub fn add_number(&mut self, number: u32) -> Result<(), Memory>
        ensures { OnOk result (self.new ≡ self.old ++ decimal number) }
    {
        let text = number.to_string(self.alloc)?;
        self.add(text.as_bytes())
    }

    /// Adds a count in decimal.
    pub fn add_count(&mut self, count: usize) -> Result<(), Memory>
        ensures { OnOk result (self.new ≡ self.old ++ decimal count) }
    {
        let text = count.to_string(self.alloc)?;
        self.add(text.as_bytes())
    }

    /// Adds a whole number in decimal, with `-` where it is negative.
    pub fn add_whole(&mut self, number: i128) -> Result<(), Memory>
        ensures { OnOk result (self.new ≡ self.old ++ signed_decimal number) }
    {
        let text = number.to_string(self.alloc)?;
        self.add(text.as_bytes())
    }
}
