// What holds of every store.

ghost use Rattle.std.specs.Prelude.{◌≡◌, ◌≢◌, ◌<◌, ◌≤◌, ◌^◌, ℕ, ℤ, List, None, Some, length, bytes_eq, if◌then◌else◌, IsTrue};
ghost use Rattle.rtio_types.specs.Recordings.{Recorded};
ghost use Rattle.dma_store.specs.Kept.{KeptState, erased, handle_of, is_old, next_epoch, recording_handled, recording_named, saved};

/// A name fetches what was saved under it last, and a save under another name changes nothing of that.
pub fn a_save_is_fetched()
    ensures { (kept : KeptState) (name other : List ℕ) (recording : Recorded) → recording_named (saved kept other recording) name
        ≡ (if bytes_eq name other then Some recording else recording_named kept name) }
{}

/// An erased name fetches nothing, and the others fetch what they did.
pub fn an_erased_name_fetches_nothing()
    ensures { (kept : KeptState) (name other : List ℕ) → recording_named (erased kept other) name
        ≡ (if bytes_eq name other then None else recording_named kept name) }
{}

/// As long as nothing is saved or erased, the handle of a name fetches what the name does.
pub fn handles_fetch_what_they_name()
    ensures { (kept : KeptState) (name : List ℕ) (handle : ℤ) → length kept.entries ≤ 4096 →
        handle_of kept name ≡ Some handle → recording_handled kept handle ≡ recording_named kept name }
{}

/// In every other epoch a handle is old. Each save and each erase that succeeds begins another one.
pub fn handles_grow_old()
    ensures old { (kept later : KeptState) (name : List ℕ) (handle : ℤ) → length kept.entries ≤ 4096 →
        handle_of kept name ≡ Some handle → later.epoch ≢ kept.epoch → IsTrue (is_old later handle) }
    ensures other { (epoch : ℕ) → epoch < 2 ^ 50 → next_epoch epoch ≢ epoch }
{}
