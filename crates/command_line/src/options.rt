// The options of the program, as `clap` takes them.
ghost use Rattle.std.specs.Prelude.{◌≡◌, IfOk, IfErr, map, string_bytes, true, false};
ghost use Rattle.clap.specs.Words.{app_of, kind_of, rule_of};
ghost use Rattle.command_line.specs.Options.{command, file_rule, flag_rule, given, given_in, is_taken, lettered_rule, option_rule, repeated_rule};
ghost use Rattle.clap.specs.declared.error.kind.ErrorKind.TheVariants.{OutOfMemory};
ghost use Rattle.command_line.specs.declared.settings.WordsFault.TheVariants.{Usage};

use crate::WordsFault;
use clap::error::ErrorKind;
use clap::{Arg, ArgAction, ArgMatches, Command, Error};
use std::alloc::{AllocError, Global};

/// What `clap` finds in the words, where it takes them.
pub(crate) fn matches_on<'a>(
    alloc: Global,
    words: &'a [String],
) -> Result<ArgMatches<'a>, WordsFault>
    ensures taken { IfOk result (λ _. is_taken (map string_bytes words.now) ≡ true) }
    ensures found { IfOk result (λ matches. given_in matches ≡ given (map string_bytes words.now)) }
    ensures refused { IfErr result (λ fault. fault ≡ Usage → is_taken (map string_bytes words.now) ≡ false) }
{
    Ok(command(alloc)?.try_get_matches_from(words)?)
}

fn command<'a>(alloc: Global) -> Result<Command<'a>, AllocError>
    ensures { IfOk result (λ made. app_of made ≡ command) }
{
    Command::new(alloc, "glpsol")
        .no_binary_name(true)
        .disable_help_flag(true)
        .arg(Arg::new(alloc, "FILE"))?
        .arg(flag(alloc, "math"))?
        .arg(flag(alloc, "freemps"))?
        .arg(flag(alloc, "lp"))?
        .arg(lettered(alloc, "model", 'm'))?
        .arg(repeated(alloc, "data", 'd'))?
        .arg(lettered(alloc, "display", 'y'))?
        .arg(flag(alloc, "check"))?
        .arg(flag(alloc, "min"))?
        .arg(flag(alloc, "max"))?
        .arg(flag(alloc, "nomip"))?
        .arg(flag(alloc, "exact"))?
        .arg(lettered(alloc, "output", 'o'))?
        .arg(lettered(alloc, "write", 'w'))?
        .arg(option(alloc, "cert"))?
        .arg(option(alloc, "checkcert"))?
        .arg(option(alloc, "nodlim"))?
        .arg(option(alloc, "pivlim"))?
        .arg(option(alloc, "workers"))?
        .arg(option(alloc, "demo"))?
        .arg(flag(alloc, "iis"))?
        .arg(flag(alloc, "rowsplit"))?
        .arg(flag(alloc, "gomory"))?
        .arg(option(alloc, "ranges-exact"))
}

/// `--name`.
fn flag<'a>(alloc: Global, name: &'a str) -> Arg<'a>
    ensures rule { rule_of result ≡ flag_rule name.entry.now }
    ensures local { result.global ≡ false }
{
    Arg::new(alloc, name).long(name).action(ArgAction::SetTrue)
}

/// `--name VALUE`.
fn option<'a>(alloc: Global, name: &'a str) -> Arg<'a>
    ensures rule { rule_of result ≡ option_rule name.entry.now }
    ensures local { result.global ≡ false }
{
    Arg::new(alloc, name).long(name)
}

/// `--name VALUE`, and `-l VALUE` for its letter.
fn lettered<'a>(alloc: Global, name: &'a str, letter: char) -> Arg<'a>
    ensures rule { rule_of result ≡ lettered_rule name.entry.now letter }
    ensures local { result.global ≡ false }
{
    Arg::new(alloc, name).long(name).short(letter)
}

/// `--name VALUE`, and `-l VALUE` for its letter, any number of times.
fn repeated<'a>(alloc: Global, name: &'a str, letter: char) -> Arg<'a>
    ensures rule { rule_of result ≡ repeated_rule name.entry.now letter }
    ensures local { result.global ≡ false }
{
    lettered(alloc, name, letter).action(ArgAction::Append)
}

impl From<Error> for WordsFault {
    ghost from_gives = { λ error fault. fault ≡ Usage → kind_of error ≡ OutOfMemory → ⊥ };

    fn from(error: Error) -> Self {
        if error.kind() == ErrorKind::OutOfMemory {
            WordsFault::NoMemory
        } else {
            WordsFault::Usage
        }
    }
}
