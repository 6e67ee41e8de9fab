// A sink in memory, for tests.
ghost use Rattle.std.specs.Prelude.{ℕ, ◌≡◌, ◌<◌, ◌≤◌, ◌+◌, ◌-◌, ◌↔◌, ◌⊎◌, min, [], ◌++◌, length, take, IfOk, IfErr, IsErr, OnErr, Contains, Some};
ghost use Rattle.po_io.specs.Count.{risen, Rose};
ghost use Rattle.po_io.specs.Writing.{Adds};
ghost use Rattle.po_io.specs.Basin.{Basin};

use crate::count::{is_listed, rise};
use crate::failed::Failed;
use crate::sink::Sink;
use po_base::{List, Memory};
use std::alloc::Global;
use std::marker::Model;

/// A sink in memory, with faults that a test can choose. It tells everything.
#[derive(Drop)]
pub struct MemSink {
    bytes: Vec<u8>,
    room: usize,
    most: usize,
    fail: List<u64>,
    calls: u64,
    faults: u64,
}

impl Model for MemSink {
    ghost use Rattle.std.specs.Prelude.{◌<◌, ◌≤◌, ◌+◌};
    ghost use Rattle.std.specs.Vec.{vec_len, vec_capacity};
    ghost use Rattle.po_io.specs.Basin.{Basin};

    ghost Value = { Basin };

    ghost view = { λ s. record { written = s.bytes.items; room = s.room; most = s.most; fail = s.fail; calls = s.calls; faults = s.faults } };

    ghost invariant = { λ s. (vec_len s.bytes + s.room ≤ vec_capacity s.bytes) × (0 < s.most) };
}

impl MemSink {
    /// A sink that makes room for `room` bytes at once, and takes at most `most` bytes a call. Calls of `write`
    /// are counted from 1: those whose numbers are in `fail` fail.
    pub fn new(alloc: Global, room: usize, most: usize, fail: List<u64>) -> Result<MemSink, Memory>
        requires { 0 < most }
        ensures { IfOk result (λ sink. sink ≡ record { written = []; room = room; most = most; fail = fail; calls = 0; faults = 0 }) }
    {
        let bytes = Vec::with_capacity(alloc, room)?;
        Ok(MemSink {
            bytes,
            room,
            most,
            fail,
            calls: 0,
            faults: 0,
        })
    }

    /// The bytes that were written, in order.
    pub fn bytes(&self) -> &[u8]
        ensures { result.now ≡ self.now.written }
    {
        self.bytes.as_slice()
    }
}

impl Sink for MemSink {
    ghost written = { λ s. Some s.written };

    ghost faults = { λ s. s.faults };

    /// Takes as many bytes as one call may and as there is room for, without memory. It fails where the call's
    /// number is one that is to fail, and where the piece isn't empty and no room is left.
    fn write(&mut self, bytes: &[u8]) -> Result<usize, Failed>
        ensures bound { IfOk result (λ n. n ≤ length bytes.now) }
        ensures some { IfOk result (λ n. 0 < length bytes.now → 0 < n) }
        ensures written { IfOk result (λ n. Adds (Some self.old.written) (Some self.new.written) (take n bytes.now)) }
        ensures same { OnErr result (Some self.new.written ≡ Some self.old.written) }
        ensures failed { OnErr result (Rose self.old.faults self.new.faults) }
        ensures counts { self.old.faults ≤ self.new.faults }
        ensures takes { IfOk result (λ n. n ≡ min (length bytes.now) (min self.old.most self.old.room)) }
        ensures fails { IsErr result ↔ (Contains self.old.fail (risen self.old.calls) ⊎ ((0 < length bytes.now) × (self.old.room ≡ 0))) }
        ensures after_ok { IfOk result (λ n. self.new ≡ record self.old { written = self.old.written ++ take n bytes.now; room = self.old.room - n; calls = risen self.old.calls }) }
        ensures after_err { OnErr result (self.new ≡ record self.old { calls = risen self.old.calls; faults = risen self.old.faults }) }
    {
        self.calls = rise(self.calls);
        if is_listed(self.fail.as_slice(), self.calls) {
            self.faults = rise(self.faults);
            return Err(Failed);
        }
        let count = bytes.len().min(self.most).min(self.room);
        if count == 0 && !bytes.is_empty() {
            self.faults = rise(self.faults);
            return Err(Failed);
        }
        match self.bytes.extend_from_slice(&bytes[..count]) {
            Ok(()) => {
                self.room -= count;
                Ok(count)
            }
            Err(_) => unreachable!(),
        }
    }
}
