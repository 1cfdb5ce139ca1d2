// The `clap` command that reads the words: it has a subcommand for each row of the table.

ghost use Rattle.std.specs.Prelude.{◌≡◌, IfOk, [], false};
ghost use Rattle.clap.specs.Simple.{app_of};
ghost use Rattle.clap.specs.Walk.{rule_of};
ghost use Rattle.clap.specs.declared.builder.command.Command.TheViews.{out-Command as fields_of};
ghost use Rattle.command_words.specs.Table.{option_of, option_rule, positional_of, positional_rule, program_app, shape_of, syntax_of};

use crate::table::{COMMANDS, OptionSyntax, PositionalSyntax, Syntax};
use clap::{Arg, Command};
use std::alloc::{AllocError, Global};

/// The command, which requires one of its subcommands. The words that it reads begin after the program's
/// own name.
pub fn program_app<'a>(alloc: Global) -> Result<Command<'a>, AllocError>
    ensures { IfOk result (λ c. app_of c ≡ program_app) }
{
    let mut command = Command::new(alloc, "zcld")
        .no_binary_name(true)
        .subcommand_required(true);
    for form in COMMANDS.as_slice() {
        command = command.subcommand(subcommand(alloc, form)?)?;
    }
    Ok(command)
}

fn subcommand<'a>(alloc: Global, form: &Syntax) -> Result<Command<'a>, AllocError>
    ensures shape { IfOk result (λ c. app_of c ≡ record { top = shape_of (syntax_of form.now); subs = [] }) }
    ensures local { IfOk result (λ c. (fields_of c).has_globals ≡ false) }
{
    let mut command = Command::new(alloc, form.name);
    for option in form.options {
        command = command.arg(option_arg(alloc, option))?;
    }
    for positional in form.positionals {
        command = command.arg(positional_arg(alloc, positional))?;
    }
    Ok(command)
}

fn option_arg<'a>(alloc: Global, option: &OptionSyntax) -> Arg<'a>
    ensures rule { rule_of result ≡ option_rule (option_of option.now) }
    ensures local { result.global ≡ false }
{
    Arg::new(alloc, option.name)
        .long(option.name)
        .required(option.required)
}

fn positional_arg<'a>(alloc: Global, positional: &PositionalSyntax) -> Arg<'a>
    ensures rule { rule_of result ≡ positional_rule (positional_of positional.now) }
    ensures local { result.global ≡ false }
{
    let one = Arg::new(alloc, positional.name).required(true);
    if positional.several {
        one.num_args(1..)
    } else {
        one
    }
}
