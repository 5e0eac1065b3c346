ghost use Rattle.std.specs.Prelude.{◌≡◌, ◌↔◌, [], IsTrue, Some};

use crate::fault::IoFault;
use crate::sink::Sink;
use crate::source::Source;
use std::alloc::Global;
use std::marker::Model;

/// The calls of an object, numbered from 1, and the numbers of those that fail.
#[derive(Drop)]
pub struct Calls {
    made: u64,
    fails: Vec<u64>,
}

impl Model for Calls {
    ghost use Rattle.hn_io.specs.Memory.{CallCount};

    ghost Value = { CallCount };

    ghost view = { λ c. record { made = c.made; fails = c.fails.items } };
}

impl Calls {
    ghost use Rattle.hn_io.specs.Memory.{IsListed, called, faults_so_far};
    ghost use Rattle.hn_io.specs.Faults.{IsCaused};

    /// The calls of which none was made. Never allocates.
    pub fn new(fails: Vec<u64>) -> Calls
        ensures made { result.made ≡ 0 }
        ensures fails { result.fails ≡ fails.items }
    {
        Calls { made: 0, fails }
    }

    /// Counts a call, and answers whether it fails. Never allocates.
    pub fn fails_now(&mut self) -> bool
        ensures called { self.new ≡ called self.old }
        ensures listed { IsTrue result ↔ IsListed self.old }
        ensures caused { IsCaused (IsTrue result) (faults_so_far self.old) (faults_so_far self.new)
            (self.old.fails ≡ []) (self.new.fails ≡ []) }
    {
        match self.made.checked_add(1) {
            None => false,
            Some(number) => {
                self.made = number;
                self.fails.contains(&number)
            }
        }
    }
}

/// A source over bytes in memory. The calls whose numbers are listed fail; calls are numbered from 1.
#[derive(Drop)]
pub struct MemSource {
    bytes: Vec<u8>,
    at: usize,
    calls: Calls,
}

impl Model for MemSource {
    ghost use Rattle.std.specs.Prelude.{◌≤◌, drop, vec_len};
    ghost use Rattle.hn_io.specs.Memory.{MemorySource};

    ghost Value = { MemorySource };

    ghost view = { λ s. record { left = drop s.at s.bytes.items; calls = s.calls } };

    ghost invariant = { λ s. s.at ≤ vec_len s.bytes };
}

impl MemSource {
    /// A source that has these bytes left. Never allocates.
    pub fn new(bytes: Vec<u8>, fails: Vec<u64>) -> MemSource
        ensures left { result.left ≡ bytes.items }
        ensures made { result.calls.made ≡ 0 }
        ensures fails { result.calls.fails ≡ fails.items }
    {
        MemSource {
            bytes,
            at: 0,
            calls: Calls::new(fails),
        }
    }
}

impl Source for MemSource {
    ghost use Rattle.std.specs.Prelude.{◌<◌, ◌≤◌, ◌++◌, Ok, Err, length, take, drop, min, IfOk, OnErr};
    ghost use Rattle.hn_io.specs.Faults.{IsCaused};
    ghost use Rattle.hn_io.specs.Memory.{IsListed, called, faults_so_far};

    ghost faults = { λ s. faults_so_far s.calls };

    ghost left = { λ s. Some s.left };

    ghost never_fails = { λ s. s.calls.fails ≡ [] };

    /// Reads as many bytes as are left and fit. Never allocates. The buffer changes only in the bytes that are read.
    /// The answer is 0 if and only if nothing is left and the call does not fail.
    ///
    /// # Errors
    ///
    /// `Failed` if and only if the number of the call is listed.
    fn read(&mut self, buf: &mut [u8]) -> Result<usize, IoFault>
        requires { 0 < length buf.old }
        ensures count { IfOk result (λ n. n ≤ length buf.new) }
        ensures whole { IfOk result (λ n. n ≡ min (length buf.old) (length self.old.left)) }
        ensures bytes { IfOk result (λ n. self.old.left ≡ take n buf.new ++ self.new.left) }
        ensures rest { IfOk result (λ n. drop n buf.new ≡ drop n buf.old) }
        ensures end { result ≡ Ok 0 → self.old.left ≡ [] }
        ensures err { OnErr result (self.new.left ≡ self.old.left) }
        ensures untouched { OnErr result (buf.new ≡ buf.old) }
        ensures no_memory { ¬ (result ≡ Err IoFault.NoMemory) }
        ensures caused { IsCaused (result ≡ Err IoFault.Failed) (faults_so_far self.old.calls) (faults_so_far self.new.calls)
            (self.old.calls.fails ≡ []) (self.new.calls.fails ≡ []) }
        ensures called { self.new.calls ≡ called self.old.calls }
        ensures listed { (result ≡ Err IoFault.Failed) ↔ IsListed self.old.calls }
    {
        if self.calls.fails_now() {
            return Err(IoFault::Failed);
        }
        let left = &self.bytes[self.at..];
        let count = buf.len().min(left.len());
        buf[..count].copy_from_slice(&left[..count]);
        self.at += count;
        Ok(count)
    }
}

/// A sink that keeps its bytes in memory. The calls whose numbers are listed fail; calls are numbered from 1.
#[derive(Drop)]
pub struct MemSink {
    bytes: Vec<u8>,
    calls: Calls,
}

impl Model for MemSink {
    ghost use Rattle.hn_io.specs.Memory.{MemorySink};

    ghost Value = { MemorySink };

    ghost view = { λ s. record { held = s.bytes.items; calls = s.calls } };
}

impl MemSink {
    /// A sink that holds nothing. Never allocates.
    pub fn new(alloc: Global, fails: Vec<u64>) -> MemSink
        ensures held { result.held ≡ [] }
        ensures made { result.calls.made ≡ 0 }
        ensures fails { result.calls.fails ≡ fails.items }
    {
        MemSink {
            bytes: Vec::new(alloc),
            calls: Calls::new(fails),
        }
    }

    /// What it holds. Never allocates.
    pub fn held(&self) -> &[u8]
        ensures { result.now ≡ self.now.held }
    {
        self.bytes.as_slice()
    }
}

impl Sink for MemSink {
    ghost use Rattle.std.specs.Prelude.{◌<◌, ◌++◌, Ok, Err, length, IfOk, OnErr};
    ghost use Rattle.hn_io.specs.Faults.{IsCaused};
    ghost use Rattle.hn_io.specs.Memory.{IsListed, called, faults_so_far};

    ghost faults = { λ s. faults_so_far s.calls };

    ghost held = { λ s. Some s.held };

    ghost never_fails = { λ s. s.calls.fails ≡ [] };

    /// Takes the whole piece, or nothing.
    ///
    /// # Errors
    ///
    /// `Failed` if and only if the number of the call is listed; else out of memory.
    fn write(&mut self, piece: &[u8]) -> Result<usize, IoFault>
        requires { 0 < length piece.now }
        ensures count { IfOk result (λ n. n ≡ length piece.now) }
        ensures bytes { IfOk result (λ _. self.new.held ≡ self.old.held ++ piece.now) }
        ensures err { OnErr result (self.new.held ≡ self.old.held) }
        ensures caused { IsCaused (result ≡ Err IoFault.Failed) (faults_so_far self.old.calls) (faults_so_far self.new.calls)
            (self.old.calls.fails ≡ []) (self.new.calls.fails ≡ []) }
        ensures called { self.new.calls ≡ called self.old.calls }
        ensures listed { (result ≡ Err IoFault.Failed) ↔ IsListed self.old.calls }
    {
        if self.calls.fails_now() {
            return Err(IoFault::Failed);
        }
        match self.bytes.extend_from_slice(piece) {
            Ok(()) => Ok(piece.len()),
            Err(_) => Err(IoFault::NoMemory),
        }
    }
}
