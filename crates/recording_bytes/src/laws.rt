// What holds of all recording bytes.

ghost use Rattle.std.specs.Prelude.{◌≡◌, ◌<◌, ◌++◌, ◌↔◌, ℕ, List, [], None, slice_index};
ghost use Rattle.rtio_types.specs.Recordings.{Recorded};
ghost use Rattle.recording_bytes.specs.declared.format.Format.{Format};
ghost use Rattle.recording_bytes.specs.Fields.{first_wrong};
ghost use Rattle.recording_bytes.specs.Spelling.{IsSpelling, IsSpellingIn};

/// Bytes have no wrong field exactly where they spell a recording.
pub fn right_bytes_are_spellings()
    ensures { (bytes : List ℕ) → ((i : ℕ) → slice_index bytes i < 256) →
        (first_wrong bytes ≡ None) ↔ ((recording : Recorded) × IsSpelling bytes recording) }
{}

/// The same bytes spell one recording at most, whatever their format.
pub fn a_spelling_has_one_recording()
    ensures { (bytes : List ℕ) (first second : Recorded) → IsSpelling bytes first → IsSpelling bytes second → first ≡ second }
{}

/// A recording has one spelling at most in each format.
pub fn a_recording_has_one_spelling_in_a_format()
    ensures { (format : Format) (first second : List ℕ) (recording : Recorded) →
        IsSpellingIn format first recording → IsSpellingIn format second recording → first ≡ second }
{}

/// No spelling begins another one, in either format.
pub fn no_spelling_begins_another()
    ensures { (front rest : List ℕ) (first second : Recorded) → IsSpelling front first → IsSpelling (front ++ rest) second →
        rest ≡ [] }
{}
