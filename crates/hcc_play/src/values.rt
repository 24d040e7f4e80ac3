//! What the options of a parsed command line give.
ghost use Rattle.std.specs.Prelude.{◌≡◌};
ghost use Rattle.clap.specs.Words.{found_of, rows_of};
ghost use Rattle.hcc_play.specs.Values.{flag_in, number_in};

use clap::ArgMatches;

/// The number of at most 32 bits that an option gives.
pub fn number(options: &ArgMatches<'_>, name: &str) -> Option<u32>
    ensures { result ≡ number_in 32 name.now (rows_of (found_of options.now)) }
{
    options.get_one::<u32>(name)
}

/// The number of at most 64 bits that an option gives.
pub fn wide_number(options: &ArgMatches<'_>, name: &str) -> Option<u64>
    ensures { result ≡ number_in 64 name.now (rows_of (found_of options.now)) }
{
    options.get_one::<u64>(name)
}

/// Whether a flag was given.
pub fn flag(options: &ArgMatches<'_>, name: &str) -> bool
    ensures { result ≡ flag_in name.now (rows_of (found_of options.now)) }
{
    options.get_one::<bool>(name).unwrap_or(false)
}
