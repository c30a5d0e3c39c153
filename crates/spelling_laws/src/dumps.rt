// What holds of all bytes of dumps.

ghost use Rattle.std.specs.Prelude.{◌<◌, ℕ, List, slice_index};
ghost use Rattle.core_analyzer.specs.Dumps.{Dumped, IsSpelling};
ghost use Rattle.spelling_laws.specs.Dumps.{IsRead};

/// Bytes spell a dump exactly where no field of them is wrong and the dump is what is read from them. So every spelling
/// of a dump is read back, not just that of what a core did.
pub fn dumps_are_read_as_spelled()
    ensures read { (bytes : List ℕ) (dump : Dumped) → IsSpelling bytes dump → IsRead bytes dump }
    ensures spelled { (bytes : List ℕ) (dump : Dumped) → ((i : ℕ) → slice_index bytes i < 256) →
        IsRead bytes dump → IsSpelling bytes dump }
{}
