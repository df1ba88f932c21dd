//! The values of a command's arguments.

ghost use Rattle.std.specs.Prelude.{◌≡◌, option_map};
ghost use Rattle.clap.specs.Words.{first_of, found_of, rows_of};
ghost use Rattle.fw_tasks.specs.Values.{text_of, is_set, number_of};

use clap::ArgMatches;

/// The text of an argument that has to be given, empty where there is none.
pub fn text<'a>(matches: &ArgMatches<'a>, id: &str) -> &'a str
    ensures { result.now ≡ text_of id.now (rows_of (found_of matches.now)) }
{
    matches.get_str(id).unwrap_or("")
}

/// The text of an argument that may be left out.
pub fn text_or_none<'a>(matches: &ArgMatches<'a>, id: &str) -> Option<&'a str>
    ensures { option_map (λ text. text.now) result ≡ first_of id.now (rows_of (found_of matches.now)) }
{
    matches.get_str(id)
}

/// Whether a flag is set.
pub fn is_set(matches: &ArgMatches<'_>, id: &str) -> bool
    ensures { result ≡ is_set id.now (rows_of (found_of matches.now)) }
{
    matches.get_one::<bool>(id).unwrap_or(false)
}

/// The number of an option, or another where it has none.
pub fn number(matches: &ArgMatches<'_>, id: &str, other: u64) -> u64
    ensures { result ≡ number_of id.now other (rows_of (found_of matches.now)) }
{
    matches.get_one::<u64>(id).unwrap_or(other)
}
