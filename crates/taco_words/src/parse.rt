//! What `clap` makes of words.
ghost use Rattle.std.specs.Prelude.{◌≡◌, map, true, option_map};
ghost use Rattle.clap.specs.Words.{app_of, first_of, found_of, is_simple_and_free, rows_of};
ghost use Rattle.taco_words.specs.Parsing.{Parses};

use crate::request::RequestFault;
use clap::error::ErrorKind;
use clap::{ArgMatches, Command};

/// What a simple command makes of words, of which the first is the command's own.
pub(crate) fn parse<'a>(
    command: Command<'a>,
    words: &'a [&'a str],
) -> Result<ArgMatches<'a>, RequestFault>
    requires { is_simple_and_free (app_of command) ≡ true }
    ensures { Parses (app_of command.entry) (map (λ w. w.now) words.entry.now) result }
{
    match command.try_get_matches_from(words) {
        Ok(matches) => Ok(matches),
        Err(error) => match error.kind() {
            ErrorKind::OutOfMemory => Err(RequestFault::NoMemory),
            _ => Err(RequestFault::Usage),
        },
    }
}

/// The value of a word or of an option, by its name.
pub(crate) fn value<'a>(matches: &ArgMatches<'a>, id: &str) -> Option<&'a str>
    ensures { option_map (λ s. s.now) result ≡ first_of id.now (rows_of (found_of matches.now)) }
{
    matches.get_str(id)
}
