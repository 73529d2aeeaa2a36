ghost use Rattle.std.specs.Prelude.{◌≡◌, ◌⊎◌, ◌↔◌, List, [], ℕ, ◌+◌, ◌-◌, ◌<◌, ◌≤◌, ◌∷◌, min, length, take, drop, vec_len, Contains, IfOk, OnOk, OnErr, IsErr, Some};
ghost use Rattle.std.specs.Io.{ReadsAtMost, WritesAtMost};
ghost use Rattle.std.specs.Io.KnownBytes.{ReadConsumes, WriteAppends};
ghost use Rattle.std.specs.Vec.{vec_capacity};
ghost use Rattle.streams.specs.Causes.{HasCause};
ghost use Rattle.streams.specs.Feed.{Feed, Drain, new_feed, new_drain, next_call, room_left, IsCallToFail, IsPieceTooMany};

use crate::{Failed, Sink, Source};
use std::alloc::{AllocError, Global};
use std::marker::Model;

/// A source over bytes in memory, some of whose calls fail: exactly those whose number is listed.
#[derive(Drop)]
pub struct MemSource {
    bytes: Vec<u8>,
    taken: usize,
    fails: Vec<u64>,
    calls: u64,
    faults: u64,
}

impl Model for MemSource {
    ghost Value = { Feed };

    ghost view = { λ s. record {
      left = drop s.taken s.bytes.items;
      fails = s.fails.items;
      calls = s.calls;
      faults = s.faults;
    } };

    ghost invariant = { λ s. s.taken ≤ vec_len s.bytes };
}

impl MemSource {
    /// A source of these bytes. `fails` lists the numbers of the calls of `read` that fail, counted from 1.
    pub fn new(bytes: Vec<u8>, fails: Vec<u64>) -> MemSource
        ensures { result ≡ new_feed bytes.items fails.items }
    {
        MemSource {
            bytes,
            taken: 0,
            fails,
            calls: 0,
            faults: 0,
        }
    }
}

impl Source for MemSource {
    ghost left = { λ s. Some s.left };

    ghost faults = { λ s. s.faults };

    fn read(&mut self, buf: &mut [u8]) -> Result<usize, Failed>
        ensures bound { ReadsAtMost result buf.new }
        ensures bytes { ReadConsumes (Some self.old.left) (Some self.new.left) result buf.new }
        ensures cause { HasCause self.old.faults self.new.faults result }
        ensures no_cause { OnOk result (self.new.faults ≡ self.old.faults) }
        ensures fails { IsErr result ↔ IsCallToFail self.old.fails self.old.calls }
        ensures gives { IfOk result (λ n. n ≡ min (length self.old.left) (length buf.new)) }
        ensures counts { self.new.calls ≡ next_call self.old.calls }
        ensures same { self.new.fails ≡ self.old.fails }
    {
        self.calls = self.calls.saturating_add(1);
        if self.fails.contains(&self.calls) {
            self.faults = self.faults.saturating_add(1);
            return Err(Failed);
        }
        let left = &self.bytes[self.taken..];
        let count = left.len().min(buf.len());
        buf[..count].copy_from_slice(&left[..count]);
        self.taken += count;
        Ok(count)
    }
}

/// A sink of a fixed room in memory, some of whose calls fail: exactly those whose number is listed, and those that
/// find no room for a piece that is not empty.
#[derive(Drop)]
pub struct MemSink {
    written: Vec<u8>,
    room: usize,
    fails: Vec<u64>,
    calls: u64,
    faults: u64,
}

impl Model for MemSink {
    ghost Value = { Drain };

    ghost view = { λ s. record {
      written = s.written.items;
      room = s.room;
      fails = s.fails.items;
      calls = s.calls;
      faults = s.faults;
    } };

    ghost invariant = { λ s. (s.room ≤ vec_capacity s.written) × (vec_len s.written ≤ s.room) };
}

impl MemSink {
    /// An empty sink with room for `room` bytes, all of it taken now, so that no later call takes memory; where it cannot
    /// be found the answer is `AllocError`. `fails` lists the numbers of the calls of `write` that fail, counted from 1.
    pub fn new(alloc: Global, room: usize, fails: Vec<u64>) -> Result<MemSink, AllocError>
        ensures { IfOk result (λ sink. sink ≡ new_drain room fails.items) }
    {
        Ok(MemSink {
            written: Vec::with_capacity(alloc, room)?,
            room,
            fails,
            calls: 0,
            faults: 0,
        })
    }

    /// The bytes written.
    pub fn bytes(&self) -> &[u8]
        ensures { result.now ≡ self.now.written }
    {
        &self.written
    }
}

impl Sink for MemSink {
    ghost written = { λ s. Some s.written };

    ghost faults = { λ s. s.faults };

    fn write(&mut self, piece: &[u8]) -> Result<usize, Failed>
        ensures bound { WritesAtMost result piece.now }
        ensures some { IfOk result (λ n. 0 < length piece.now → 0 < n) }
        ensures bytes { WriteAppends (Some self.old.written)
            (Some self.new.written) result piece.now }
        ensures cause { HasCause self.old.faults self.new.faults result }
        ensures no_cause { OnOk result (self.new.faults ≡ self.old.faults) }
        ensures fails { IsErr result
            ↔ (IsCallToFail self.old.fails self.old.calls ⊎ IsPieceTooMany self.old piece.now) }
        ensures takes { IfOk result (λ n. n ≡ min (length piece.now) (room_left self.old)) }
        ensures counts { self.new.calls ≡ next_call self.old.calls }
        ensures same { (self.new.fails ≡ self.old.fails) × (self.new.room ≡ self.old.room) }
    {
        self.calls = self.calls.saturating_add(1);
        let free = self.room - self.written.len();
        if self.fails.contains(&self.calls) || (free == 0 && !piece.is_empty()) {
            self.faults = self.faults.saturating_add(1);
            return Err(Failed);
        }
        let count = piece.len().min(free);
        match self.written.extend_from_slice(&piece[..count]) {
            Ok(()) => Ok(count),
            Err(_) => unreachable!(),
        }
    }
}
