ghost use Rattle.std.specs.Prelude.{◌≡◌, ◌≤◌, length, min, Some, OnErr, IfOk, is_err};
ghost use Rattle.std.specs.Io.{ReadsAtMost};
ghost use Rattle.std.specs.Io.KnownBytes.{ReadConsumes};
ghost use Rattle.ila_base.specs.Faults.{Rose};
ghost use Rattle.ila_base.specs.Fakes.{no_calls, fails_next, after_call};

use crate::outside::{Failed, Source};
use crate::schedule::Schedule;
use std::marker::Model;

/// A source over memory. A read that doesn't fail gives as many bytes as its greatest length, the
/// buffer and what is left allow. The calls whose numbers are listed fail, counted from 0, and no
/// others.
#[derive(Debug, Drop)]
pub struct MemSource {
    bytes: Vec<u8>,
    at: usize,
    piece: usize,
    schedule: Schedule,
}

impl Model for MemSource {
    ghost use Rattle.std.specs.Prelude.{◌≤◌, drop, vec_len};
    ghost use Rattle.ila_base.specs.Fakes.{MemorySource};

    ghost Value = { MemorySource };

    ghost view = { λ s. record { left = drop s.at s.bytes.items; piece = s.piece; calls = s.schedule } };

    ghost invariant = { λ s. (1 ≤ s.piece) × (s.at ≤ vec_len s.bytes) };
}

impl MemSource {
    /// A source of these bytes that gives at most so many in a read, at least one. It takes no
    /// memory.
    pub fn new(bytes: Vec<u8>, piece: usize, fails: Vec<u32>) -> MemSource
        requires { 1 ≤ piece }
        ensures { result ≡ record { left = bytes.items; piece = piece; calls = no_calls fails.items } }
    {
        MemSource {
            bytes,
            at: 0,
            piece,
            schedule: Schedule::new(fails),
        }
    }
}

impl Source for MemSource {
    ghost left = { λ s. Some s.left };

    ghost faults = { λ s. s.calls.faults };

    fn read(&mut self, into: &mut [u8]) -> Result<usize, Failed>
        ensures bound { ReadsAtMost result into.new }
        ensures bytes { ReadConsumes (Some self.old.left) (Some self.new.left) result into.new }
        ensures later { self.old.calls.faults ≤ self.new.calls.faults }
        ensures cause { OnErr result (Rose self.old.calls.faults self.new.calls.faults) }

        // It fails exactly in the listed calls, and else its length is exact.
        ensures fails { is_err result ≡ fails_next self.old.calls }
        ensures amount { IfOk result (λ n. n ≡ min self.old.piece (min (length into.old) (length self.old.left))) }
        ensures calls { self.new.calls ≡ after_call self.old.calls (is_err result) }
        ensures piece { self.new.piece ≡ self.old.piece }
    {
        let fails = self.schedule.fails_next();
        self.schedule.count(fails)?;
        let rest = &self.bytes[self.at..];
        let n = self.piece.min(into.len().min(rest.len()));
        into[..n].copy_from_slice(&rest[..n]);
        self.at += n;
        Ok(n)
    }
}
