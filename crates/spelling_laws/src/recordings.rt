// What holds of all bytes of recordings.

ghost use Rattle.std.specs.Prelude.{◌<◌, ℕ, List, slice_index};
ghost use Rattle.rtio_types.specs.Recordings.{Recorded};
ghost use Rattle.recording_bytes.specs.declared.format.Format.{Format};
ghost use Rattle.recording_bytes.specs.Spelling.{IsSpellingIn};
ghost use Rattle.spelling_laws.specs.Recordings.{IsReadIn};

/// Bytes spell a recording in a format exactly where no field of them is wrong, their first byte says the format, and the
/// recording is what is read from them.
pub fn recordings_are_read_as_spelled()
    ensures read { (format : Format) (bytes : List ℕ) (recording : Recorded) →
        IsSpellingIn format bytes recording → IsReadIn format bytes recording }
    ensures spelled { (format : Format) (bytes : List ℕ) (recording : Recorded) → ((i : ℕ) → slice_index bytes i < 256) →
        IsReadIn format bytes recording → IsSpellingIn format bytes recording }
{}
