ghost use Rattle.std.specs.Prelude.{◌≡◌, IfOk, false};
ghost use Rattle.clap.specs.Words.{app_of, rule_of};
ghost use Rattle.dch_top.specs.Line.{bare_app, command_rule, count_rule, line_app, quiet_rule, start_rule};

use clap::{Arg, ArgAction, Command};
use std::alloc::{AllocError, Global};

/// The command line `COMMAND [COUNT] [--start N] [--quiet]`, without the program's name.
pub fn line_command<'a>(alloc: Global) -> Result<Command<'a>, AllocError>
    ensures { IfOk result (λ command. app_of command ≡ line_app) }
{
    bare_command(alloc)
        .arg(command_argument(alloc))?
        .arg(count_argument(alloc))?
        .arg(start_option(alloc))?
        .arg(quiet_flag(alloc))
}

/// A command line without arguments, and without what `clap` adds by itself.
fn bare_command<'a>(alloc: Global) -> Command<'a>
    ensures { app_of result ≡ bare_app }
{
    Command::new(alloc, "dch")
        .no_binary_name(true)
        .disable_help_flag(true)
        .disable_version_flag(true)
}

fn command_argument<'a>(alloc: Global) -> Arg<'a>
    ensures rule { rule_of result ≡ command_rule }
    ensures own { result.global ≡ false }
{
    Arg::new(alloc, "command").required(true)
}

fn count_argument<'a>(alloc: Global) -> Arg<'a>
    ensures rule { rule_of result ≡ count_rule }
    ensures own { result.global ≡ false }
{
    Arg::new(alloc, "count")
}

fn start_option<'a>(alloc: Global) -> Arg<'a>
    ensures rule { rule_of result ≡ start_rule }
    ensures own { result.global ≡ false }
{
    Arg::new(alloc, "start").long("start")
}

fn quiet_flag<'a>(alloc: Global) -> Arg<'a>
    ensures rule { rule_of result ≡ quiet_rule }
    ensures own { result.global ≡ false }
{
    Arg::new(alloc, "quiet")
        .long("quiet")
        .action(ArgAction::SetTrue)
}
