// The recordings of a core.

ghost use Rattle.std.specs.Prelude.{◌≡◌, ◌↔◌, ◌<◌, ◌≤◌, ◌^◌, ℕ, false, length, None, Some, is_none, IsOk, IsTrue, IfOk, IfSome, OnOk, OnErr};
ghost use Rattle.std.specs.Option.{option_copied};
ghost use Rattle.std.specs.Result.{result_ok};
ghost use Rattle.dma_store.specs.Kept.{is_playable, no_recordings, is_kept, is_full_for, is_old, next_epoch, saved, handed_in, name_at, erased};
ghost use Rattle.dma_store.specs.Kept.{recording_named, recording_handled, handle_of};

use crate::key::Key;
use indexmap::IndexMap;
use rtio_types::{Name, Recording};
use std::alloc::{AllocError, AllocFailed, Global};
use std::marker::Model;

// How many names may be kept.
const PLACES: usize = 4096;

// The epoch is counted modulo this.
const EPOCHS: u64 = 1 << 50;

/// The name isn't kept.
#[derive(Clone, Copy, Debug, PartialEq, Eq)]
pub struct NoTrace;

/// Why a recording isn't saved.
#[derive(Clone, Copy, Debug, PartialEq, Eq)]
pub enum SaveEnd {
    /// 4,096 names are kept, and this one is new.
    Full,
    /// Want of memory.
    Memory,
}

/// Why a name gives no recording.
#[derive(Clone, Copy, Debug, PartialEq, Eq)]
pub enum FetchEnd {
    /// The name isn't kept.
    NoTrace,
    /// Want of memory.
    Memory,
}

/// Why a handle gives no recording.
#[derive(Clone, Copy, Debug, PartialEq, Eq)]
pub enum HandleEnd {
    /// Its quotient by 4,096, rounded down, isn't the epoch, or the rest isn't a position: a save or an erase came since
    /// it was given. With the epoch of now.
    OldHandle { epoch: u64 },
    /// Want of memory.
    Memory,
}

impl From<AllocError> for SaveEnd {
    ghost use Rattle.std.specs.Prelude.{◌≡◌};
    ghost use Rattle.dma_store.specs.declared.store.SaveEnd.TheVariants.{Memory};

    ghost from_gives = { λ _ end. end ≡ Memory };

    fn from(_: AllocError) -> SaveEnd {
        SaveEnd::Memory
    }
}

impl<T: Drop> From<AllocFailed<T>> for SaveEnd {
    ghost use Rattle.std.specs.Prelude.{◌≡◌};
    ghost use Rattle.dma_store.specs.declared.store.SaveEnd.TheVariants.{Memory};

    ghost from_gives = { λ _ end. end ≡ Memory };

    fn from(_: AllocFailed<T>) -> SaveEnd {
        SaveEnd::Memory
    }
}

impl From<AllocError> for FetchEnd {
    ghost use Rattle.std.specs.Prelude.{◌≡◌};
    ghost use Rattle.dma_store.specs.declared.store.FetchEnd.TheVariants.{Memory};

    ghost from_gives = { λ _ end. end ≡ Memory };

    fn from(_: AllocError) -> FetchEnd {
        FetchEnd::Memory
    }
}

impl From<AllocError> for HandleEnd {
    ghost use Rattle.std.specs.Prelude.{◌≡◌};
    ghost use Rattle.dma_store.specs.declared.store.HandleEnd.TheVariants.{Memory};

    ghost from_gives = { λ _ end. end ≡ Memory };

    fn from(_: AllocError) -> HandleEnd {
        HandleEnd::Memory
    }
}

/// The recordings of a core by name, first those that were handed in and then the others in the order of first saving,
/// and the epoch: how many saves and erases succeeded, modulo 2^50. Contracts see it as that list and that number.
#[derive(Debug, Drop)]
pub struct Store {
    recordings: IndexMap<Key, Recording>,
    epoch: u64,
}

impl Model for Store {
    ghost use Rattle.dma_store.specs.Kept.{KeptState};

    ghost Value = { KeptState };

    ghost use Rattle.dma_store.specs.Fields.{by_name, IsStoreInside};

    ghost view = { λ a. record { entries = by_name a.recordings.entries; epoch = a.epoch } };

    ghost invariant = { λ a. IsStoreInside a.recordings.entries a.epoch };
}

impl Store {
    /// No recordings.
    pub fn new(alloc: Global) -> Store
        ensures { result ≡ no_recordings }
    {
        Store {
            recordings: IndexMap::new(alloc),
            epoch: 0,
        }
    }

    /// Keeps a copy of a recording under a name, in the place of the one that the name had; a new name goes last. The
    /// recording has fewer than 2^32 events, each of the board.
    pub fn save(&mut self, alloc: Global, name: &Name, recording: &Recording) -> Result<(), SaveEnd>
        requires { IsTrue (is_playable recording.now) }
        ensures ok { OnOk result (self.new ≡ saved self.old name.now recording.now) }
        ensures full { (result ≡ Err SaveEnd.Full) ↔ IsTrue (is_full_for self.old name.now) }
        ensures err { OnErr result (self.new ≡ self.old) }
    {
        if self.is_full_for(name) {
            return Err(SaveEnd::Full);
        }
        let kept = recording.copy(alloc)?;
        self.recordings.insert(Key { name: *name }, kept)?;
        self.epoch = next_epoch(self.epoch);
        Ok(())
    }

    /// Keeps a copy of a recording of an earlier day, behind those that were handed in before; the epoch stays 0. The
    /// recording has fewer than 2^32 events, each of the board. The only error is want of memory.
    pub fn hand_in(
        &mut self,
        alloc: Global,
        name: &Name,
        recording: &Recording,
    ) -> Result<(), AllocError>
        requires epoch { self.old.epoch ≡ 0 }
        requires new { is_kept self.old name.now ≡ false }
        requires place { length self.old.entries < 4096 }
        requires playable { IsTrue (is_playable recording.now) }
        ensures ok { OnOk result (self.new ≡ handed_in self.old name.now recording.now) }
        ensures err { OnErr result (self.new ≡ self.old) }
    {
        let kept = recording.copy(alloc)?;
        let key = Key { name: *name };
        self.recordings.insert(key, kept)?;
        Ok(())
    }

    /// How many names are kept, at most 4,096.
    pub fn len(&self) -> u64
        ensures len { result ≡ length self.now.entries }
        ensures most { result ≤ 4096 }
    {
        self.recordings.len() as u64
    }

    /// The name at a position, from 0, in the order in which they are kept: first those that were handed in, then the
    /// others in the order of first saving. None where there are not so many names.
    pub fn name_at(&self, position: u64) -> Option<&Name>
        ensures { option_copied result ≡ name_at self.now position }
    {
        let (key, _) = self.recordings.get_index(position as usize)?;
        Some(&key.name)
    }

    // Whether there is no place for the name.
    fn is_full_for(&self, name: &Name) -> bool
        ensures { result ≡ is_full_for self.now name.now }
    {
        PLACES <= self.recordings.len() && !self.recordings.contains_key(&Key { name: *name })
    }

    /// The handle of a name: 4,096 times the epoch, and the name's position from 0. It is old after the next save or
    /// erase. What a handle is made of is this project's own.
    pub fn handle(&self, name: &Name) -> Result<i64, NoTrace>
        ensures value { result_ok result ≡ handle_of self.now name.now }
        // What is true of every store, as the laws of handles want it.
        ensures places { length self.now.entries ≤ 4096 }
        ensures epoch { self.now.epoch < 2 ^ 50 }
    {
        match self.recordings.get_index_of(&Key { name: *name }) {
            Some(position) => Ok((self.epoch * PLACES as u64 + position as u64) as i64),
            None => Err(NoTrace),
        }
    }

    /// A copy of the recording of a name.
    pub fn read(&self, alloc: Global, name: &Name) -> Result<Recording, FetchEnd>
        ensures ok { IfOk result (λ recording. recording_named self.now name.now ≡ Some recording) }
        ensures playable { IfOk result (λ recording. IsTrue (is_playable recording)) }
        ensures no_trace { (result ≡ Err FetchEnd.NoTrace) ↔ (recording_named self.now name.now ≡ None) }
    {
        match self.named(name) {
            Some(recording) => Ok(recording.copy(alloc)?),
            None => Err(FetchEnd::NoTrace),
        }
    }

    // The recording of a name.
    fn named(&self, name: &Name) -> Option<&Recording>
        ensures value { option_copied result ≡ recording_named self.now name.now }
        ensures playable { IfSome result (λ recording. IsTrue (is_playable recording.now)) }
    {
        self.recordings.get(&Key { name: *name })
    }

    /// A copy of the recording of a handle. A handle is old where its quotient by 4,096, rounded down, isn't the epoch, or
    /// the rest isn't a position.
    pub fn read_handle(&self, alloc: Global, handle: i64) -> Result<Recording, HandleEnd>
        ensures ok { IfOk result (λ recording. recording_handled self.now handle ≡ Some recording) }
        ensures playable { IfOk result (λ recording. IsTrue (is_playable recording)) }
        ensures old { (result ≡ Err (HandleEnd.OldHandle self.now.epoch)) ↔ IsTrue (is_old self.now handle) }
        ensures epoch { (epoch : ℕ) → result ≡ Err (HandleEnd.OldHandle epoch) → epoch ≡ self.now.epoch }
    {
        match self.handled(handle) {
            Some(recording) => Ok(recording.copy(alloc)?),
            None => Err(HandleEnd::OldHandle { epoch: self.epoch }),
        }
    }

    // The recording of a handle that isn't old.
    fn handled(&self, handle: i64) -> Option<&Recording>
        ensures value { option_copied result ≡ recording_handled self.now handle }
        ensures playable { IfSome result (λ recording. IsTrue (is_playable recording.now)) }
        ensures old { is_none result ≡ is_old self.now handle }
    {
        if handle.div_euclid(PLACES as i64) != self.epoch as i64 {
            return None;
        }
        let position = handle.rem_euclid(PLACES as i64) as usize;
        let (_, recording) = self.recordings.get_index(position)?;
        Some(recording)
    }

    /// Drops a name with its recording; the later ones close up.
    pub fn erase(&mut self, name: &Name) -> Result<(), NoTrace>
        ensures ok { OnOk result (self.new ≡ erased self.old name.now) }
        ensures kept { IsOk result ↔ IsTrue (is_kept self.old name.now) }
        ensures err { OnErr result (self.new ≡ self.old) }
    {
        if self.recordings.shift_remove(&Key { name: *name }).is_none() {
            return Err(NoTrace);
        }
        self.epoch = next_epoch(self.epoch);
        Ok(())
    }
}

fn next_epoch(epoch: u64) -> u64
    requires { epoch < 2 ^ 50 }
    ensures { result ≡ next_epoch epoch }
{
    (epoch + 1) % EPOCHS
}
