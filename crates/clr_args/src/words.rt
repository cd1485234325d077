//! The words that a command line gave to its arguments.
ghost use Rattle.std.specs.Prelude.{◌≡◌, ◌≤◌, ◌≤ℤ◌, IfOk, Some, codes, map, neg_ℤ};
ghost use Rattle.std.specs.Prelude.{option_map, pos};
ghost use Rattle.clap.specs.Words.{first_of, found_of, rows_of};
ghost use Rattle.clr_args.specs.ArgumentWords.{deadline_in, flag_in, moment_in, number_in};
ghost use Rattle.clr_args.specs.ArgumentWords.{offset_in, word_in, words_in};

use crate::asked::Offset;
use clap::ArgMatches;
use std::alloc::{AllocError, Global};

/// The word of an argument that has to be given; the empty word where it has none.
pub fn word_of<'a>(matches: &ArgMatches<'a>, id: &str) -> &'a str
    ensures { result.now ≡ word_in (rows_of (found_of matches.now)) id.now }
{
    matches.get_str(id).unwrap_or("")
}

/// The word of an argument, if it was given.
pub fn option_of<'a>(matches: &ArgMatches<'a>, id: &str) -> Option<&'a str>
    ensures { option_map (λ word. word.now) result
        ≡ first_of id.now (rows_of (found_of matches.now)) }
{
    matches.get_str(id)
}

/// The words of an argument that may be given any number of times.
pub fn words_of<'a>(
    alloc: Global,
    matches: &ArgMatches<'a>,
    id: &str,
) -> Result<Vec<&'a str>, AllocError>
    ensures { IfOk result (λ words. map (λ word. word.now) words.items
        ≡ words_in (rows_of (found_of matches.now)) id.now) }
{
    let given = matches.get_strs(id).unwrap_or(&[]);
    let mut words = Vec::new(alloc);
    words.extend_from_slice(given)?;
    Ok(words)
}

/// The minutes of `--offset`; 0 where they are not given. clap lets only those from -720 to 840
/// pass.
pub fn offset_of(matches: &ArgMatches<'_>) -> Offset
    ensures { result.minutes
        ≡ offset_in (first_of (codes "offset") (rows_of (found_of matches.now))) }
{
    let minutes = match option_of(matches, "offset") {
        Some(word) => minutes_of(word),
        None => 0,
    };
    Offset { minutes }
}

/// The minutes that a word says, where they are within clap's range; otherwise 0.
fn minutes_of(word: &str) -> i16
    ensures low { neg_ℤ (pos 720) ≤ℤ result }
    ensures high { result ≤ℤ pos 840 }
    ensures named { result ≡ offset_in (Some word.now) }
{
    match word.parse::<i16>() {
        Ok(minutes) if -720 <= minutes && minutes <= 840 => minutes,
        _ => 0,
    }
}

/// The port of `--port`. clap lets no words pass without one, nor any other than from 1 to 65535.
pub fn port_of(matches: &ArgMatches<'_>) -> u16
    ensures { result
        ≡ number_in 65535 (first_of (codes "port") (rows_of (found_of matches.now))) }
{
    match option_of(matches, "port") {
        Some(word) => port_in(word),
        None => 1,
    }
}

/// The port that a word says, where it is within clap's range; otherwise 1.
fn port_in(word: &str) -> u16
    ensures { result ≡ number_in 65535 (Some word.now) }
{
    match word.parse::<u16>() {
        Ok(port) if 1 <= port => port,
        _ => 1,
    }
}

/// How many connections `--count` asks for. clap lets no words pass without it, and only numbers
/// from 1 to 1000000.
pub fn count_of(matches: &ArgMatches<'_>) -> usize
    ensures { result
        ≡ number_in 1000000 (first_of (codes "count") (rows_of (found_of matches.now))) }
{
    match option_of(matches, "count") {
        Some(word) => count_in(word),
        None => 1,
    }
}

/// The count that a word says, where it is within clap's range; otherwise 1.
fn count_in(word: &str) -> usize
    ensures { result ≡ number_in 1000000 (Some word.now) }
{
    match word.parse::<usize>() {
        Ok(count) if 1 <= count && count <= 1_000_000 => count,
        _ => 1,
    }
}

/// The seconds of `--deadline`, where it is given. clap lets only those from 1 to 600 pass.
pub fn deadline_of(matches: &ArgMatches<'_>) -> Option<u16>
    ensures { result ≡ deadline_in (first_of (codes "deadline") (rows_of (found_of matches.now))) }
{
    match option_of(matches, "deadline") {
        Some(word) => Some(seconds_in(word)),
        None => None,
    }
}

/// The seconds that a word says, where they are within clap's range; otherwise 1.
fn seconds_in(word: &str) -> u16
    ensures { result ≡ number_in 600 (Some word.now) }
{
    match word.parse::<u16>() {
        Ok(seconds) if 1 <= seconds && seconds <= 600 => seconds,
        _ => 1,
    }
}

/// The moment of `--before`, in seconds since 1970-01-01T00:00:00Z. clap lets no words pass without
/// one, nor any other than from 0 to 4102444799.
pub fn moment_of(matches: &ArgMatches<'_>) -> u64
    ensures range { result ≤ 4102444799 }
    ensures value { result
        ≡ moment_in (first_of (codes "before") (rows_of (found_of matches.now))) }
{
    match option_of(matches, "before") {
        Some(word) => moment_said(word),
        None => 0,
    }
}

/// The moment that a word says, where it is within clap's range; otherwise 0.
fn moment_said(word: &str) -> u64
    ensures range { result ≤ 4102444799 }
    ensures value { result ≡ moment_in (Some word.now) }
{
    match word.parse::<u64>() {
        Ok(seconds) if seconds <= 4_102_444_799 => seconds,
        _ => 0,
    }
}

/// Whether a word was given that has no value, as `--desk`.
pub fn flag_of(matches: &ArgMatches<'_>, id: &str) -> bool
    ensures { result ≡ flag_in (first_of id.now (rows_of (found_of matches.now))) }
{
    match option_of(matches, id) {
        Some(word) => word == "true",
        None => false,
    }
}
