// The command that words are.

ghost use Rattle.std.specs.Prelude.{◌≡◌, IfOk, IfSome, Some, [], codes, map, option_map, unwrap_or};
ghost use Rattle.std.specs.Option.{option_and_then, option_copied};
ghost use Rattle.clap.specs.Matches.{found_of};
ghost use Rattle.clap.specs.Simple.{subcommand_rows_of};
ghost use Rattle.clap.specs.Walk.{all_of, first_of, rows_of};
ghost use Rattle.command_words.specs.Command.{HasMap, check_of, command_of, found_in, gc_of, in_options, listing_of, make_of, meaning, meant_command, merge_of, plain_of, read_by_clap, run_of, share_of, steps_given, texts, trace_of, values_in, zc_of};
ghost use Rattle.command_words.specs.LinkWords.{names_given, options_given};
ghost use Rattle.command_words.specs.MapWords.{address_given, extensions_given, map_given};
ghost use Rattle.command_words.specs.PlainForm.{IsReadAsPlain};
ghost use Rattle.command_words.specs.Table.{check_syntax, gc_syntax, link_options, list_syntax, make_syntax, map_options, merge_syntax, plain_syntax, program_app, run_syntax, share_syntax, trace_syntax, zc_syntax};
ghost use Rattle.zc_base.specs.MemMap.{IsMap};
ghost use Rattle.zc_base.specs.Options.{listed_names};

use crate::app::program_app;
use crate::command_line::{
    CommandLine, GcArgs, ListArgs, MOST_FUNCTIONS, MOST_STEPS, MakeArgs, MergeArgs, PlainArgs,
    RunArgs, ShareArgs, TraceArgs, USUAL_STACK, USUAL_STEPS, ZcArgs,
};
use crate::names::names_in;
use crate::number::number_in;
use clap::ArgMatches;
use clap::error::ErrorKind;
use std::alloc::{AllocError, Global};
use text_lines::hex::read_hex_word;
use zc_base::extensions::Extensions;
use zc_base::link_options::LinkOptions;
use zc_base::mem_map::MemMap;

/// The command that the words are, if they are one. The words are those after the program's own name. Memory may run
/// out before it is known whether they are a command.
#[tactic(auto, using(crate::proofs::PlainLaws::read_as_plain))]
pub fn read(alloc: Global, words: &[String]) -> Result<Option<CommandLine<'_>>, AllocError>
    ensures spells { IfOk result (λ c. option_map meant_command c ≡ command_of (texts words.now)) }
    ensures plain { IsReadAsPlain (texts words.now) }
    ensures maps { IfOk result (λ c. IfSome c HasMap) }
{
    match matches_of(alloc, words)? {
        Some(matches) => entered(alloc, &matches),
        None => Ok(None),
    }
}

// What `clap` finds in the words, if no step of its reading fails.
fn matches_of<'a>(alloc: Global, words: &'a [String]) -> Result<Option<ArgMatches<'a>>, AllocError>
    ensures { IfOk result (λ found.
        option_and_then subcommand_rows_of found ≡ read_by_clap program_app (texts words.now)) }
{
    match program_app(alloc)?.try_get_matches_from(words) {
        Ok(matches) => Ok(Some(matches)),
        Err(error) => match error.kind() {
            ErrorKind::OutOfMemory => Err(AllocError),
            _ => Ok(None),
        },
    }
}

// The command of the subcommand that the words name.
fn entered<'a>(
    alloc: Global,
    matches: &ArgMatches<'a>,
) -> Result<Option<CommandLine<'a>>, AllocError>
    ensures spells { IfOk result (λ c.
        option_map meant_command c ≡ option_and_then (λ p. meaning p.0 p.1) (subcommand_rows_of matches.now)) }
    ensures maps { IfOk result (λ c. IfSome c HasMap) }
{
    match matches.subcommand() {
        Some((name, found)) => by_name(alloc, name, found),
        None => Ok(None),
    }
}

fn by_name<'a>(
    alloc: Global,
    name: &str,
    found: &ArgMatches<'a>,
) -> Result<Option<CommandLine<'a>>, AllocError>
    ensures spells { IfOk result (λ c. option_map meant_command c ≡ meaning name.now (rows_of (found_of found.now))) }
    ensures maps { IfOk result (λ c. IfSome c HasMap) }
{
    match name {
        "plain" => plain(alloc, found),
        "zc" => zc(alloc, found),
        "run" => run(alloc, found),
        "trace" => trace(alloc, found),
        "check" => Ok(check(found)),
        "make" => Ok(make(found)),
        "gc" => gc(alloc, found),
        "merge" => merge(alloc, found),
        "share" => share(alloc, found),
        "list" => list(alloc, found),
        _ => Ok(None),
    }
}

fn plain<'a>(alloc: Global, found: &ArgMatches<'a>) -> Result<Option<CommandLine<'a>>, AllocError>
    ensures spells { IfOk result (λ c.
        option_map meant_command c ≡ in_options plain_of (found_in plain_syntax (rows_of (found_of found.now)))) }
    ensures maps { IfOk result (λ c. IfSome c HasMap) }
{
    let Some(options) = given_options(alloc, found)? else {
        return Ok(None);
    };
    let Some(out) = value(found, "out") else {
        return Ok(None);
    };
    let objects = object_names(alloc, found)?;
    Ok(Some(CommandLine::Plain(PlainArgs {
        options,
        out,
        objects,
    })))
}

// `zc`, unless the two files that it writes are one.
fn zc<'a>(alloc: Global, found: &ArgMatches<'a>) -> Result<Option<CommandLine<'a>>, AllocError>
    ensures spells { IfOk result (λ c.
        option_map meant_command c ≡ in_options zc_of (found_in zc_syntax (rows_of (found_of found.now)))) }
    ensures maps { IfOk result (λ c. IfSome c HasMap) }
{
    let Some(options) = given_options(alloc, found)? else {
        return Ok(None);
    };
    let Some(out) = value(found, "out") else {
        return Ok(None);
    };
    let Some(cert) = value(found, "cert") else {
        return Ok(None);
    };
    if out == cert {
        return Ok(None);
    }
    let objects = object_names(alloc, found)?;
    Ok(Some(CommandLine::Zc(ZcArgs {
        options,
        out,
        cert,
        objects,
    })))
}

fn run<'a>(alloc: Global, found: &ArgMatches<'a>) -> Result<Option<CommandLine<'a>>, AllocError>
    ensures spells { IfOk result (λ c.
        option_map meant_command c ≡ in_options run_of (found_in run_syntax (rows_of (found_of found.now)))) }
    ensures maps { IfOk result (λ c. IfSome c HasMap) }
{
    let Some(options) = given_options(alloc, found)? else {
        return Ok(None);
    };
    let Some(image) = value(found, "IMAGE") else {
        return Ok(None);
    };
    let Some(steps) = allowed_steps(found) else {
        return Ok(None);
    };
    Ok(Some(CommandLine::Run(RunArgs {
        map: options.map(),
        devices: value(found, "devices"),
        plan: value(found, "plan"),
        steps,
        image,
    })))
}

fn trace<'a>(alloc: Global, found: &ArgMatches<'a>) -> Result<Option<CommandLine<'a>>, AllocError>
    ensures spells { IfOk result (λ c.
        option_map meant_command c ≡ in_options trace_of (found_in trace_syntax (rows_of (found_of found.now)))) }
    ensures maps { IfOk result (λ c. IfSome c HasMap) }
{
    let Some(options) = given_options(alloc, found)? else {
        return Ok(None);
    };
    let Some(steps) = allowed_steps(found) else {
        return Ok(None);
    };
    let objects = object_names(alloc, found)?;
    Ok(Some(CommandLine::Trace(TraceArgs {
        options,
        devices: value(found, "devices"),
        steps,
        objects,
    })))
}

fn check<'a>(found: &ArgMatches<'a>) -> Option<CommandLine<'a>>
    ensures spells { option_map meant_command result ≡ check_of (found_in check_syntax (rows_of (found_of found.now))) }
    ensures maps { IfSome result HasMap }
{
    let cert = value(found, "CERT")?;
    Some(CommandLine::Check { cert })
}

fn make<'a>(found: &ArgMatches<'a>) -> Option<CommandLine<'a>>
    ensures spells { option_map meant_command result ≡ make_of (found_in make_syntax (rows_of (found_of found.now))) }
    ensures maps { IfSome result HasMap }
{
    let number = value(found, "NUMBER")?;
    let functions = value(found, "FUNCTIONS")?;
    Some(CommandLine::Make(MakeArgs {
        prefix: value(found, "out"),
        number: number_in(number, u64::MAX)?,
        functions: number_in(functions, MOST_FUNCTIONS)? as u32,
    }))
}

fn gc<'a>(alloc: Global, found: &ArgMatches<'a>) -> Result<Option<CommandLine<'a>>, AllocError>
    ensures spells { IfOk result (λ c.
        option_map meant_command c ≡ in_options gc_of (found_in gc_syntax (rows_of (found_of found.now)))) }
    ensures maps { IfOk result (λ c. IfSome c HasMap) }
{
    let Some(options) = given_options(alloc, found)? else {
        return Ok(None);
    };
    let Some(prefix) = value(found, "out") else {
        return Ok(None);
    };
    let objects = object_names(alloc, found)?;
    Ok(Some(CommandLine::Gc(GcArgs {
        options,
        prefix,
        objects,
    })))
}

fn merge<'a>(alloc: Global, found: &ArgMatches<'a>) -> Result<Option<CommandLine<'a>>, AllocError>
    ensures spells { IfOk result (λ c.
        option_map meant_command c ≡ in_options merge_of (found_in merge_syntax (rows_of (found_of found.now)))) }
    ensures maps { IfOk result (λ c. IfSome c HasMap) }
{
    let Some(options) = given_options(alloc, found)? else {
        return Ok(None);
    };
    let Some(prefix) = value(found, "out") else {
        return Ok(None);
    };
    let objects = object_names(alloc, found)?;
    Ok(Some(CommandLine::Merge(MergeArgs {
        options,
        prefix,
        objects,
    })))
}

fn share<'a>(alloc: Global, found: &ArgMatches<'a>) -> Result<Option<CommandLine<'a>>, AllocError>
    ensures spells { IfOk result (λ c.
        option_map meant_command c ≡ in_options share_of (found_in share_syntax (rows_of (found_of found.now)))) }
    ensures maps { IfOk result (λ c. IfSome c HasMap) }
{
    let Some(options) = given_options(alloc, found)? else {
        return Ok(None);
    };
    let Some(out) = value(found, "out") else {
        return Ok(None);
    };
    let Some(plan) = value(found, "plan") else {
        return Ok(None);
    };
    let Some(steps) = allowed_steps(found) else {
        return Ok(None);
    };
    let objects = object_names(alloc, found)?;
    Ok(Some(CommandLine::Share(ShareArgs {
        options,
        out,
        plan,
        steps,
        objects,
    })))
}

fn list<'a>(alloc: Global, found: &ArgMatches<'a>) -> Result<Option<CommandLine<'a>>, AllocError>
    ensures spells { IfOk result (λ c.
        option_map meant_command c ≡ in_options listing_of (found_in list_syntax (rows_of (found_of found.now)))) }
    ensures maps { IfOk result (λ c. IfSome c HasMap) }
{
    let Some(options) = given_options(alloc, found)? else {
        return Ok(None);
    };
    let Some(image) = value(found, "IMAGE") else {
        return Ok(None);
    };
    Ok(Some(CommandLine::List(ListArgs {
        map: options.map(),
        image,
    })))
}

// The options of a link that the words give.
fn given_options(alloc: Global, found: &ArgMatches) -> Result<Option<LinkOptions>, AllocError>
    ensures value { IfOk result (λ options.
        options ≡ options_given (values_in link_options (rows_of (found_of found.now)))) }
    ensures valid { IfOk result (λ options. IfSome options (λ o. IsMap o.map)) }
{
    let Some(map) = given_map(found) else {
        return Ok(None);
    };
    let Some(fixed) = given_names(alloc, found)? else {
        return Ok(None);
    };
    Ok(Some(LinkOptions::new(map, fixed)))
}

// The map that the options give: a missing one has the standard map's address, or leaves 1 MiB for the stack, or all
// extensions.
fn given_map(found: &ArgMatches) -> Option<MemMap>
    ensures value { result ≡ map_given (values_in map_options (rows_of (found_of found.now))) }
    ensures valid { IfSome result IsMap }
{
    let usual = MemMap::standard();
    let text = address(found, "text", usual.text)?;
    let data_low = address(found, "data", usual.data_low)?;
    let stack_high = address(found, "stack", usual.stack_high)?;
    let stack_low = address(found, "stack-low", stack_high.saturating_sub(USUAL_STACK))?;
    let extensions = given_extensions(found)?;
    let map = MemMap {
        text,
        data_low,
        stack_low,
        stack_high,
        extensions,
    };
    MemMap::checked(map)
}

// The extensions that the option names, or all without it.
fn given_extensions(found: &ArgMatches) -> Option<Extensions>
    ensures { result ≡ extensions_given (first_of (codes "extensions") (rows_of (found_of found.now))) }
{
    match value(found, "extensions") {
        Some(word) => named_extensions(word),
        None => Some(Extensions::all()),
    }
}

// The extensions that a word names.
fn named_extensions(word: &str) -> Option<Extensions>
    ensures { result ≡ extensions_given (Some word.now) }
{
    let (zcb, zcmp, zcmt) = match word {
        "zca" => (false, false, false),
        "zca_zcb" => (true, false, false),
        "zca_zcmp" => (false, true, false),
        "zca_zcmt" => (false, false, true),
        "zca_zcb_zcmp" => (true, true, false),
        "zca_zcb_zcmt" => (true, false, true),
        "zca_zcmp_zcmt" => (false, true, true),
        "zca_zcb_zcmp_zcmt" => (true, true, true),
        _ => return None,
    };
    Some(Extensions { zcb, zcmp, zcmt })
}

// The names of fixed sections that the option gives: none without it.
fn given_names(alloc: Global, found: &ArgMatches) -> Result<Option<Vec<Vec<u8>>>, AllocError>
    ensures { IfOk result (λ names.
        option_map (λ all. listed_names all.items) names
        ≡ names_given (first_of (codes "fixed") (rows_of (found_of found.now)))) }
{
    match value(found, "fixed") {
        Some(word) => names_in(alloc, word),
        None => Ok(Some(Vec::new(alloc))),
    }
}

// The address that an option says, or the usual one without it.
fn address(found: &ArgMatches, name: &str, usual: u32) -> Option<u32>
    ensures { result ≡ address_given usual (first_of name.now (rows_of (found_of found.now))) }
{
    match value(found, name) {
        Some(word) => read_hex_word(word.as_bytes()),
        None => Some(usual),
    }
}

// The steps that the option allows, or the usual ones without it.
fn allowed_steps(found: &ArgMatches) -> Option<u64>
    ensures { result ≡ steps_given (first_of (codes "steps") (rows_of (found_of found.now))) }
{
    match value(found, "steps") {
        Some(word) => number_in(word, MOST_STEPS),
        None => Some(USUAL_STEPS),
    }
}

// The value of an option, or a positional word.
fn value<'a>(found: &ArgMatches<'a>, name: &str) -> Option<&'a str>
    ensures { option_copied result ≡ first_of name.now (rows_of (found_of found.now)) }
{
    found.get_str(name)
}

// The names of the objects.
fn object_names(alloc: Global, found: &ArgMatches) -> Result<Vec<String>, AllocError>
    ensures { IfOk result (λ objects.
        texts objects.items ≡ unwrap_or (all_of (codes "OBJ") (rows_of (found_of found.now))) []) }
{
    let Some(words) = values(found, "OBJ") else {
        return Ok(Vec::new(alloc));
    };
    copied(alloc, words)
}

// The values of a positional word of which there may be several.
fn values<'a, 'm>(found: &'m ArgMatches<'a>, name: &str) -> Option<&'m [&'a str]>
    ensures { option_map (λ words. map (λ word. word.now) words.now) result
        ≡ all_of name.now (rows_of (found_of found.now)) }
{
    found.get_strs(name)
}

fn copied(alloc: Global, words: &[&str]) -> Result<Vec<String>, AllocError>
    ensures { IfOk result (λ copies. texts copies.items ≡ map (λ word. word.now) words.now) }
{
    let mut copies = Vec::with_capacity(alloc, words.len())?;
    for word in words {
        copies.push(String::from_str(alloc, word)?)?;
    }
    Ok(copies)
}
