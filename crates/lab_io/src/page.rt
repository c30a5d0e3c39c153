// A sink in memory.
ghost use Rattle.std.specs.Prelude.{◌≡◌, ◌≤◌, ◌↔◌, [], length, IfOk, IsErr, IsTrue};
ghost use Rattle.std.specs.Io.{WritesAtMost};
ghost use Rattle.std.specs.Io.KnownBytes.{WriteAppends};
ghost use Rattle.lab_io.specs.Causes.{HasCause};
ghost use Rattle.lab_io.specs.Page.{write_fails, write_count, after_write};
ghost use Rattle.lab_io.specs.Writing.{MakesProgress};

use crate::tape::stands_in;
use crate::{Failed, Sink};
use std::alloc::{AllocError, Global};
use std::marker::Model;

/// A sink in memory, for tests and for bytes that are wanted later. It takes its bytes in pieces
/// of a chosen size, the calls with chosen numbers fail, and it has a fixed room.
///
/// Calls are numbered from 0. After call 2^64 - 1 each call has that number.
#[derive(Debug, Drop)]
pub struct Page {
    bytes: Vec<u8>,
    room: u64,
    piece: u64,
    fails: Vec<u64>,
    calls: u64,
    faults: u64,
}

impl Model for Page {
    ghost use Rattle.std.specs.Prelude.{◌≤◌, length, vec_capacity};
    ghost use Rattle.lab_io.specs.Page.{PageState};

    ghost Value = { PageState };

    ghost view = { λ p. record {
      held = p.bytes.items;
      room = p.room;
      piece = p.piece;
      fails = p.fails.items;
      calls = p.calls;
      faults = p.faults;
    } };

    ghost invariant = { λ p. (1 ≤ p.piece)
        × (length p.bytes.items ≤ p.room)
        × (p.room ≤ vec_capacity p.bytes) };
}

impl Page {
    /// An empty page with room for `room` bytes that takes at most `piece` of them in a call, which
    /// is at least 1. Exactly these calls fail: those whose numbers stand in `fails`, and those
    /// that give a full page a piece that isn't empty. No call was made and none failed yet.
    ///
    /// It takes memory for its whole room here, or fails for want of it. No later call takes any.
    pub fn new(alloc: Global, room: u64, piece: u64, fails: Vec<u64>) -> Result<Page, AllocError>
        requires { 1 ≤ piece }
        ensures { IfOk result (λ page. page ≡ record {
          held = [];
          room = room;
          piece = piece;
          fails = fails.items;
          calls = 0;
          faults = 0;
        }) }
    {
        let bytes = Vec::with_capacity(alloc, room as usize)?;
        Ok(Page {
            bytes,
            room,
            piece,
            fails,
            calls: 0,
            faults: 0,
        })
    }

    /// The bytes held, in the order that they came.
    pub fn held(&self) -> &[u8]
        ensures { result.now ≡ self.now.held }
    {
        &self.bytes
    }
}

impl Sink for Page {
    ghost use Rattle.std.specs.Prelude.{Some};

    ghost held = { λ p. Some p.held };

    ghost faults = { λ p. p.faults };

    fn write(&mut self, bytes: &[u8]) -> Result<usize, Failed>
        ensures bound { WritesAtMost result bytes.now }
        ensures progress { MakesProgress result bytes.now }
        ensures bytes { WriteAppends (Some self.old.held) (Some self.new.held) result bytes.now }
        ensures cause { HasCause self.old.faults self.new.faults result }
        ensures failed { IsErr result ↔ IsTrue (write_fails self.old (length bytes.now)) }
        ensures count { IfOk result (λ n. n ≡ write_count self.old (length bytes.now)) }
        ensures after { self.new ≡ after_write self.old bytes.now }
    {
        let call = self.calls;
        self.calls = call.saturating_add(1);
        let rest = self.room as usize - self.bytes.len();
        if stands_in(&self.fails, call) || (!bytes.is_empty() && rest == 0) {
            self.faults = self.faults.saturating_add(1);
            return Err(Failed);
        }
        let count = bytes.len().min((self.piece as usize).min(rest));
        // `new` reserved the room.
        self.bytes.extend_from_slice(&bytes[..count]).unwrap();
        Ok(count)
    }
}
