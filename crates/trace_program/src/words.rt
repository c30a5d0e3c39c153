// The words of the program.

ghost use Rattle.std.specs.Prelude.{◌≡◌, ◌≤◌, ◌∷◌, codes, map, string_bytes, IfOk, IsTrue, Some, None, Err};
ghost use Rattle.limits.specs.Limits.{most_budget};
ghost use Rattle.rtio_core.specs.Entries.{is_config_ok};
ghost use Rattle.sim_words.specs.declared.asked.Options.{Options};
ghost use Rattle.trace_program.specs.Words.{options_asked};

use sim_words::{Asked, Options, WordsEnd, read_words};
use std::alloc::{AllocError, Global};

/// The options that the words give: those of `artiq_sim dump`, in any order and each at most once, as `--name value` or
/// `--name=value`. Words that aren't accepted are refused; the only other error is want of memory.
pub fn read_options(alloc: Global, words: &[String]) -> Result<Options, WordsEnd>
    ensures ok { IfOk result (λ options. options_asked (map string_bytes words.now) ≡ Some options) }
    ensures refused { result ≡ Err WordsEnd.Refused → options_asked (map string_bytes words.now) ≡ None }
    ensures config { IfOk result (λ options. IsTrue (is_config_ok options.config)) }
    ensures units { IfOk result (λ options. options.budget ≤ most_budget) }
{
    let all = behind_command(alloc, words)?;
    match read_words(alloc, &all) {
        Ok(asked) => Ok(options_of(asked)),
        Err(end) => Err(end),
    }
}

// The options of a dump.
fn options_of(asked: Asked) -> Options
    requires { (options : Options) × (asked ≡ Asked.Dump options) }
    ensures { asked ≡ Asked.Dump result }
{
    match asked {
        Asked::Dump { options } => options,
        _ => unreachable!(),
    }
}

// The words behind the command that has the same options.
fn behind_command(alloc: Global, words: &[String]) -> Result<Vec<String>, AllocError>
    ensures { IfOk result (λ all. map string_bytes all.items ≡ codes "dump" ∷ map string_bytes words.now) }
{
    let mut all = Vec::with_capacity(alloc, words.len().saturating_add(1))?;
    all.push(String::from_str(alloc, "dump")?)?;
    for word in words {
        all.push(word.clone()?)?;
    }
    Ok(all)
}
