//! The kinds of argument that the subcommands share.
ghost use Rattle.std.specs.Prelude.{◌≡◌, codes, false};
ghost use Rattle.clap.specs.Words.{rule_of};
ghost use Rattle.clr_args.specs.Syntax.{at_most_rule, before_rule, flag_rule, number_rule};
ghost use Rattle.clr_args.specs.Syntax.{offset_rule, option_rule, optional_rule, repeated_rule};
ghost use Rattle.clr_args.specs.Syntax.{repeated_option_rule, required_rule};

use clap::builder::ValueParser;
use clap::{Arg, ArgAction};
use std::alloc::Global;

/// An argument that has to be given, by its place.
pub fn required<'a>(alloc: Global, id: &'a str, help: &'a str) -> Arg<'a>
    ensures rule { rule_of result ≡ required_rule id.entry.now }
    ensures local { result.global ≡ false }
{
    Arg::new(alloc, id).required(true).help(help)
}

/// An argument that may be given once, by its place.
pub fn optional<'a>(alloc: Global, id: &'a str, help: &'a str) -> Arg<'a>
    ensures rule { rule_of result ≡ optional_rule id.entry.now }
    ensures local { result.global ≡ false }
{
    Arg::new(alloc, id).help(help)
}

/// An argument that may be given any number of times, by its place.
pub fn repeated<'a>(alloc: Global, id: &'a str, help: &'a str) -> Arg<'a>
    ensures rule { rule_of result ≡ repeated_rule id.entry.now }
    ensures local { result.global ≡ false }
{
    Arg::new(alloc, id).action(ArgAction::Append).help(help)
}

/// An argument that may be given once, by its name and a value.
pub fn option<'a>(alloc: Global, id: &'a str, value: &'a str, help: &'a str) -> Arg<'a>
    ensures rule { rule_of result ≡ option_rule id.entry.now }
    ensures local { result.global ≡ false }
{
    Arg::new(alloc, id).long(id).value_name(value).help(help)
}

/// An option with a value, which may be given any number of times.
pub fn repeated_option<'a>(alloc: Global, id: &'a str, value: &'a str, help: &'a str) -> Arg<'a>
    ensures rule { rule_of result ≡ repeated_option_rule id.entry.now }
    ensures local { result.global ≡ false }
{
    option(alloc, id, value, help).action(ArgAction::Append)
}

/// A word that may be given once, as `--desk`, and has no value.
pub fn flag<'a>(alloc: Global, id: &'a str, help: &'a str) -> Arg<'a>
    ensures rule { rule_of result ≡ flag_rule id.entry.now }
    ensures local { result.global ≡ false }
{
    Arg::new(alloc, id)
        .long(id)
        .action(ArgAction::SetTrue)
        .help(help)
}

/// An option with a number from 1 to `most`.
pub fn at_most<'a>(alloc: Global, id: &'a str, value: &'a str, most: u64, help: &'a str) -> Arg<'a>
    ensures rule { rule_of result ≡ at_most_rule id.entry.now most }
    ensures local { result.global ≡ false }
{
    option(alloc, id, value, help).value_parser(ValueParser::unsigned(1, most))
}

/// An option with a number from 1 to `most`, which has to be given.
pub fn number<'a>(alloc: Global, id: &'a str, most: u64, help: &'a str) -> Arg<'a>
    ensures rule { rule_of result ≡ number_rule id.entry.now most }
    ensures local { result.global ≡ false }
{
    option(alloc, id, "N", help)
        .required(true)
        .value_parser(ValueParser::unsigned(1, most))
}

/// `--offset MINUTES`, from -720 to 840.
pub fn offset<'a>(alloc: Global) -> Arg<'a>
    ensures rule { rule_of result ≡ offset_rule }
    ensures local { result.global ≡ false }
{
    option(
        alloc,
        "offset",
        "MINUTES",
        "Minutes east of Greenwich, where the clock stands",
    )
    .value_parser(ValueParser::signed(-720, 840))
}

/// `--before MOMENT`, from 0 to 4102444799, which has to be given.
pub fn moment_before<'a>(alloc: Global) -> Arg<'a>
    ensures rule { rule_of result ≡ before_rule }
    ensures local { result.global ≡ false }
{
    option(
        alloc,
        "before",
        "MOMENT",
        "The moment, in seconds since 1970-01-01T00:00:00Z, at most 4102444799",
    )
    .required(true)
    .value_parser(ValueParser::unsigned(0, 4_102_444_799))
}

/// `--part FILE`, which may be given any number of times.
pub fn part<'a>(alloc: Global) -> Arg<'a>
    ensures rule { rule_of result ≡ repeated_option_rule (codes "part") }
    ensures local { result.global ≡ false }
{
    repeated_option(
        alloc,
        "part",
        "FILE",
        "A further part of the journal, in order; may be given again",
    )
}
