// What holds of all dumps.

ghost use Rattle.std.specs.Prelude.{◌≡◌, ◌<◌, ◌↔◌, ℕ, true, List, None, IsTrue, slice_index, int_le, pos};
ghost use Rattle.std.specs.List.{list_all};
ghost use Rattle.rtio_types.specs.declared.event.Event.{Event};
ghost use Rattle.rtio_types.specs.Time.{mu_per_cycle};
ghost use Rattle.rtio_core.specs.Core.{CoreState, IsCore};
ghost use Rattle.core_analyzer.specs.Dumps.{Dumped, IsSpelling, has_few_entries, is_dump};
ghost use Rattle.core_analyzer.specs.CoreDumps.{dump_of};
ghost use Rattle.core_analyzer.specs.DumpReading.{dump_read};
ghost use Rattle.core_analyzer.specs.DumpFields.{first_wrong};

use rtio_headline::what_is_put_out_was_submitted;

/// Bytes have no wrong field exactly where they spell a dump.
pub fn right_bytes_are_dumps()
    ensures { (bytes : List ℕ) → ((i : ℕ) → slice_index bytes i < 256) →
        (first_wrong bytes ≡ None) ↔ ((dump : Dumped) × IsSpelling bytes dump) }
{}

/// The same bytes spell one dump at most, and a dump has one spelling at most.
pub fn a_dump_has_one_spelling()
    ensures dump { (bytes : List ℕ) (first second : Dumped) → IsSpelling bytes first → IsSpelling bytes second → first ≡ second }
    ensures bytes { (first second : List ℕ) (dump : Dumped) → IsSpelling first dump → IsSpelling second dump → first ≡ second }
{}

/// What is written of a core reads back as its counter, the events that it put out and the lines of its log.
pub fn what_is_written_reads_back()
    ensures { (core : CoreState) (bytes : List ℕ) → IsSpelling bytes (dump_of core) →
        (first_wrong bytes ≡ None) × (dump_read bytes ≡ dump_of core) }
{}

/// What a core did can be written wherever it put out and logged few enough events, and no event that it put out lies in the
/// first cycle.
pub fn what_a_core_did_is_a_dump()
    ensures dump { (core : CoreState) → IsCore core → IsTrue (has_few_entries (dump_of core)) → IsTrue (is_dump (dump_of core)) }
    ensures late { (core : CoreState) → IsCore core → list_all (λ (e : Event). int_le (pos mu_per_cycle) e.stamp) (dump_of core).events ≡ true }
{
    what_is_put_out_was_submitted();
}
