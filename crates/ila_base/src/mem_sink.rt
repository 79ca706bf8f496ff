ghost use Rattle.std.specs.Prelude.{◌≡◌, ◌<◌, ◌≤◌, [], length, Some, OnErr, IfOk, is_err};
ghost use Rattle.std.specs.Io.KnownBytes.{WriteAppends};
ghost use Rattle.ila_base.specs.Faults.{Rose};
ghost use Rattle.ila_base.specs.Fakes.{no_calls, refuses_write, write_length, after_call};

use crate::memory::NoMemory;
use crate::outside::{Failed, Sink};
use crate::schedule::Schedule;
use std::alloc::Global;
use std::marker::Model;

/// A sink over memory, with room for so many bytes in all. A write that doesn't fail takes as many
/// first bytes as its greatest length and the room allow. The calls whose numbers are listed fail,
/// counted from 0, and so does one whose piece isn't empty where the room is full, and no others.
#[derive(Debug, Drop)]
pub struct MemSink {
    bytes: Vec<u8>,
    piece: usize,
    room: usize,
    schedule: Schedule,
}

impl Model for MemSink {
    ghost use Rattle.std.specs.Prelude.{◌≤◌, vec_len, vec_capacity};
    ghost use Rattle.ila_base.specs.Fakes.{MemorySink};

    ghost Value = { MemorySink };

    ghost view = { λ s. record { written = s.bytes.items; piece = s.piece; room = s.room; calls = s.schedule } };

    ghost invariant = { λ s. (1 ≤ s.piece) × (vec_len s.bytes ≤ s.room) × (s.room ≤ vec_capacity s.bytes) };
}

impl MemSink {
    /// A sink with room for so many bytes that takes at most so many in a write, at least one.
    pub fn new(
        alloc: Global,
        piece: usize,
        room: usize,
        fails: Vec<u32>,
    ) -> Result<MemSink, NoMemory>
        requires { 1 ≤ piece }
        ensures { IfOk result (λ s. s ≡ record { written = []; piece = piece; room = room; calls = no_calls fails.items }) }
    {
        Ok(MemSink {
            bytes: Vec::with_capacity(alloc, room)?,
            piece,
            room,
            schedule: Schedule::new(fails),
        })
    }

    /// The bytes that were written. It takes no memory.
    pub fn bytes(&self) -> &[u8]
        ensures { result.now ≡ self.now.written }
    {
        self.bytes.as_slice()
    }

    // Whether a write of this piece fails.
    fn refuses(&self, piece: &[u8]) -> bool
        ensures { result ≡ refuses_write self.now piece.now }
    {
        self.schedule.fails_next() || (!piece.is_empty() && self.room <= self.bytes.len())
    }
}

impl Sink for MemSink {
    ghost written = { λ s. Some s.written };

    ghost faults = { λ s. s.calls.faults };

    fn write(&mut self, piece: &[u8]) -> Result<usize, Failed>
        ensures bound { IfOk result (λ n. n ≤ length piece.now) }
        ensures some { 0 < length piece.now → IfOk result (λ n. 0 < n) }
        ensures bytes { WriteAppends (Some self.old.written) (Some self.new.written) result piece.now }
        ensures later { self.old.calls.faults ≤ self.new.calls.faults }
        ensures cause { OnErr result (Rose self.old.calls.faults self.new.calls.faults) }

        // It fails exactly in the listed calls and where the room is full, and else its length is exact.
        ensures fails { is_err result ≡ refuses_write self.old piece.now }
        ensures amount { IfOk result (λ n. n ≡ write_length self.old piece.now) }
        ensures calls { self.new.calls ≡ after_call self.old.calls (is_err result) }
        ensures lengths { (self.new.piece ≡ self.old.piece) × (self.new.room ≡ self.old.room) }
    {
        let fails = self.refuses(piece);
        self.schedule.count(fails)?;
        let n = self
            .piece
            .min(piece.len().min(self.room - self.bytes.len()));
        if self.bytes.extend_from_slice(&piece[..n]).is_err() {
            unreachable!();
        }
        Ok(n)
    }
}
