//! What was typed: the value of an option or a place, by its name. The words of `clap` are read by
//! these calls alone, so that a check of the functions above them need not read all that its
//! contracts say.

use clap::ArgMatches;

/// The text of an option or a place, if it was given.
pub fn text_of<'a>(matches: &ArgMatches<'a>, name: &str) -> Option<&'a str> {
    matches.get_str(name)
}

/// The text of a place that the command needs.
pub fn place_of<'a>(matches: &ArgMatches<'a>, name: &str) -> &'a str {
    text_of(matches, name).unwrap_or("")
}

/// The number of an option, if it was given.
pub fn number_of(matches: &ArgMatches, name: &str) -> Option<u64> {
    matches.get_one::<u64>(name)
}

/// The number from 0 to 255 of an option, if it was given.
pub fn count_of(matches: &ArgMatches, name: &str) -> Option<u8> {
    matches.get_one::<u8>(name)
}

/// The texts of an option that is given again and again.
pub fn texts_of<'m, 'a>(matches: &'m ArgMatches<'a>, name: &str) -> Option<&'m [&'a str]> {
    matches.get_strs(name)
}

/// Whether an option without a value was given.
pub fn is_set(matches: &ArgMatches, name: &str) -> bool {
    matches.get_flag(name)
}

/// Whether an option or a place was given.
pub fn is_given(matches: &ArgMatches, name: &str) -> bool {
    matches.contains_id(name)
}
