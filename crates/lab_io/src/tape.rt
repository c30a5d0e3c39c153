// A source in memory.
ghost use Rattle.std.specs.Prelude.{◌≡◌, ◌≤◌, ◌↔◌, length, min, take, IfOk, IsErr, IsTrue};
ghost use Rattle.std.specs.Io.{ReadsAtMost};
ghost use Rattle.std.specs.Io.KnownBytes.{ReadConsumes};
ghost use Rattle.lab_io.specs.Causes.{HasCause, is_chosen};
ghost use Rattle.lab_io.specs.Tape.{read_count, after_read};

use crate::{Failed, Source};
use std::marker::Model;

/// A source in memory, for tests and for bytes that are there already. It gives its bytes in pieces
/// of a chosen size, and the calls with chosen numbers fail.
///
/// Calls are numbered from 0. After call 2^64 - 1 each call has that number.
#[derive(Debug, Drop)]
pub struct Tape {
    bytes: Vec<u8>,
    at: usize,
    piece: u64,
    fails: Vec<u64>,
    calls: u64,
    faults: u64,
}

impl Model for Tape {
    ghost use Rattle.std.specs.Prelude.{◌≤◌, drop, length};
    ghost use Rattle.lab_io.specs.Tape.{TapeState};

    ghost Value = { TapeState };

    ghost view = { λ t. record {
      left = drop t.at t.bytes.items;
      piece = t.piece;
      fails = t.fails.items;
      calls = t.calls;
      faults = t.faults;
    } };

    ghost invariant = { λ t. (1 ≤ t.piece) × (t.at ≤ length t.bytes.items) };
}

impl Tape {
    /// A tape of these bytes that gives at most `piece` of them in a call, which is at least 1.
    /// Exactly the calls whose numbers stand in `fails` fail. No call was made and none failed yet.
    pub fn new(bytes: Vec<u8>, piece: u64, fails: Vec<u64>) -> Tape
        requires { 1 ≤ piece }
        ensures { result ≡ record {
          left = bytes.items;
          piece = piece;
          fails = fails.items;
          calls = 0;
          faults = 0;
        } }
    {
        Tape {
            bytes,
            at: 0,
            piece,
            fails,
            calls: 0,
            faults: 0,
        }
    }
}

impl Source for Tape {
    ghost use Rattle.std.specs.Prelude.{Some};

    ghost left = { λ t. Some t.left };

    ghost faults = { λ t. t.faults };

    fn read(&mut self, buf: &mut [u8]) -> Result<usize, Failed>
        ensures bound { ReadsAtMost result buf.new }
        ensures bytes { ReadConsumes (Some self.old.left) (Some self.new.left) result buf.new }
        ensures cause { HasCause self.old.faults self.new.faults result }
        ensures failed { IsErr result ↔ IsTrue (is_chosen self.old.fails self.old.calls) }
        ensures count { IfOk result (λ n. n ≡ read_count self.old (length buf.new)) }
        ensures after { self.new ≡ after_read self.old (length buf.new) }
    {
        let call = self.calls;
        self.calls = call.saturating_add(1);
        if stands_in(&self.fails, call) {
            self.faults = self.faults.saturating_add(1);
            return Err(Failed);
        }
        let count = move_piece(&self.bytes[self.at..], buf, self.piece);
        self.at += count;
        Ok(count)
    }
}

// Copies as many bytes as there are, fit and make a piece.
fn move_piece(from: &[u8], to: &mut [u8], piece: u64) -> usize
    ensures count { result ≡ min (length to.new) (min piece (length from.now)) }
    ensures moved { take result to.new ≡ take result from.now }
{
    let count = to.len().min((piece as usize).min(from.len()));
    to[..count].copy_from_slice(&from[..count]);
    count
}

/// Whether a call's number is one of those that fail.
pub(crate) fn stands_in(fails: &[u64], call: u64) -> bool
    ensures { result ≡ is_chosen fails.now call }
{
    fails.iter().any(|n| *n == call)
}
