// The options that words give, read with `clap`.

ghost use Rattle.std.specs.Prelude.{◌≡◌, ◌≢◌, false, IfOk, MatchResult, map, option_map, string_bytes};
ghost use Rattle.std.specs.List.{list_all};
ghost use Rattle.clap.specs.Words.{app_of, rule_of};
ghost use Rattle.sim_words.specs.Given.{given_of, value_of};
ghost use Rattle.sim_words.specs.Matches.{HasOptions, given_in, is_shaped, option_rule, plain_app};

use clap::error::ErrorKind;
use clap::{Arg, ArgMatches, Command};
use option_values::ValueEnd;
use std::alloc::{AllocError, Global};

/// The options of these names that the words give.
pub fn read_given<'a>(
    alloc: Global,
    names: &'a [&'a str],
    words: &'a [String],
) -> Result<ArgMatches<'a>, ValueEnd>
    ensures given { MatchResult result
        (λ matches. given_of (map (λ name. name.now) names.entry.now) (map string_bytes words.entry.now) ≡ Some (given_in matches))
        (λ end. end ≡ ValueEnd.Refused → given_of (map (λ name. name.now) names.entry.now) (map string_bytes words.entry.now) ≡ None) }
    ensures shape { IfOk result HasOptions }
{
    if !are_shaped(words) {
        return Err(ValueEnd::Refused);
    }
    let command = plain_command(alloc, names)?;
    match command.try_get_matches_from(words) {
        Ok(matches) => Ok(matches),
        Err(error) => Err(end_of(error.kind())),
    }
}

/// The value of an option, if it is given.
pub fn value_of<'a>(given: &ArgMatches<'a>, name: &str) -> Option<&'a str>
    requires { HasOptions given.now }
    ensures { option_map (λ value. value.now) result ≡ value_of name.now (given_in given.now) }
{
    given.get_str(name)
}

// Whether each word that begins with a hyphen begins with two of them and a name.
fn are_shaped(words: &[String]) -> bool
    ensures { result ≡ list_all (λ word. is_shaped (string_bytes word)) words.now }
{
    words.iter().all(|word| is_shaped(word.as_bytes()))
}

fn is_shaped(word: &[u8]) -> bool
    ensures { result ≡ is_shaped word.now }
{
    match word {
        [b'-', b'-', rest @ ..] => !rest.is_empty(),
        [b'-', ..] => false,
        _ => true,
    }
}

// A command with an option of each name, each with one value, and with no other words.
fn plain_command<'a>(alloc: Global, names: &'a [&'a str]) -> Result<Command<'a>, AllocError>
    ensures { IfOk result (λ command. app_of command ≡ plain_app (map (λ name. name.now) names.entry.now)) }
{
    let mut command = Command::new(alloc, "artiq_sim")
        .no_binary_name(true)
        .disable_help_flag(true);
    for name in names {
        command = command.arg(plain_option(alloc, name))?;
    }
    Ok(command)
}

// An option with one value.
fn plain_option<'a>(alloc: Global, name: &'a str) -> Arg<'a>
    ensures rule { rule_of result ≡ option_rule name.entry.now }
    ensures local { result.global ≡ false }
{
    Arg::new(alloc, name).long(name)
}

// Why clap found nothing.
fn end_of(kind: ErrorKind) -> ValueEnd
    ensures { result ≡ ValueEnd.Refused → kind ≢ ErrorKind.OutOfMemory }
{
    match kind {
        ErrorKind::OutOfMemory => ValueEnd::Memory,
        _ => ValueEnd::Refused,
    }
}
