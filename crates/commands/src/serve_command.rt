//! The command `serve`, as its line asks for it.

ghost use Rattle.std.specs.Prelude.{◌≡◌, ◌≤◌, ◌+◌, [], if◌then◌else◌, length, map, unwrap_or, true, false};
ghost use Rattle.std.specs.Prelude.{IfOk, IfSome, option_map};
ghost use Rattle.clap.specs.Words.{app_of, rule_of, rows_of, found_of, all_of};
ghost use Rattle.clap.specs.declared.builder.command.Command.TheViews.{out-Command};
ghost use Rattle.commands.specs.ServeLine.{lanes_rule, flag_rule, workers_rule, serve_files_app, lanes_app, serve_app};
ghost use Rattle.commands.specs.ServeLine.{IsServeJob, given_texts, lanes_limit};

use crate::command_line::{is_given, path_option, required_path};
use crate::jobs::{Job, Serving, Task};
use clap::builder::ValueParser;
use clap::{Arg, ArgAction, ArgMatches, Command};
use hosting::{MAX_CLIENT_LANES, MAX_WORKERS, Workers};
use inbox::PEERS;
use std::alloc::{AllocError, Global};

/// An option that may be given again and again.
fn lanes_option<'a>(alloc: Global, id: &'a str, value: &'a str, help: &'a str) -> Arg<'a>
    ensures rule { rule_of result ≡ lanes_rule id.entry.now }
    ensures local { result.global ≡ false }
{
    Arg::new(alloc, id)
        .long(id)
        .action(ArgAction::Append)
        .value_name(value)
        .help(help)
}

/// A flag of this name.
fn flag<'a>(alloc: Global, id: &'a str, help: &'a str) -> Arg<'a>
    ensures rule { rule_of result ≡ flag_rule id.entry.now }
    ensures local { result.global ≡ false }
{
    Arg::new(alloc, id)
        .long(id)
        .action(ArgAction::SetTrue)
        .help(help)
}

/// The option with how many workers check a block.
fn workers_option<'a>(alloc: Global) -> Arg<'a>
    ensures rule { rule_of result ≡ workers_rule }
    ensures local { result.global ≡ false }
{
    Arg::new(alloc, "workers")
        .long("workers")
        .action(ArgAction::Set)
        .value_name("N")
        .help("How many threads check the signatures of a block, 1 to 16")
        .value_parser(ValueParser::unsigned(1, MAX_WORKERS as u64))
        .default_value("4")
}

/// The command `serve` with its files.
fn serve_files_command<'a>(alloc: Global) -> Result<Command<'a>, AllocError>
    ensures app { IfOk result (λ c. app_of c ≡ serve_files_app) }
    ensures local { IfOk result (λ c. (out-Command c).has_globals ≡ false) }
{
    Command::new(alloc, "serve")
        .about("Stay: take blocks from peers, and answer clients")
        .after_help(
            "Example: node serve --genesis genesis.toml --log blocks.log --peer blocks --lane ask:told",
        )
        .arg(required_path(alloc, "genesis", "What the network agrees on"))?
        .arg(path_option(
            alloc,
            "log",
            "The blocks that are kept, from this run on or before",
        ))?
        .arg(path_option(
            alloc,
            "metrics",
            "Where what the node counts is written each second, for Prometheus to read",
        ))
}

/// The same with its lanes.
fn lanes_command<'a>(alloc: Global) -> Result<Command<'a>, AllocError>
    ensures app { IfOk result (λ c. app_of c ≡ lanes_app) }
    ensures local { IfOk result (λ c. (out-Command c).has_globals ≡ false) }
{
    serve_files_command(alloc)?
        .arg(lanes_option(
            alloc,
            "lane",
            "IN:OUT",
            "A client's streams: its requests are read from IN, and replies written to OUT",
        ))?
        .arg(lanes_option(
            alloc,
            "peer",
            "IN",
            "Where a peer's blocks are read, a line each of hexadecimal digits",
        ))
}

/// The command `serve`.
pub fn serve_command<'a>(alloc: Global) -> Result<Command<'a>, AllocError>
    ensures app { IfOk result (λ c. app_of c ≡ serve_app) }
    ensures local { IfOk result (λ c. (out-Command c).has_globals ≡ false) }
{
    lanes_command(alloc)?
        .arg(flag(
            alloc,
            "binary",
            "Peers send four bytes of length, big-endian, and then a block's bytes",
        ))?
        .arg(flag(
            alloc,
            "stdio",
            "Standard input and output are a client's lane too",
        ))?
        .arg(flag(
            alloc,
            "until-closed",
            "End when nobody is left who could send or ask, and not only when a client says stop",
        ))?
        .arg(workers_option(alloc))
}

/// The texts that an option was given with.
fn texts_of<'a>(alloc: Global, found: &ArgMatches<'a>, id: &str) -> Result<Vec<&'a str>, AllocError>
    ensures { IfOk result (λ texts.
        map (λ text. text.now) texts.items ≡ given_texts (all_of id.now (rows_of (found_of found.now)))) }
{
    match found.get_strs(id) {
        Some(given) => Vec::from_slice(alloc, given),
        None => Ok(Vec::new(alloc)),
    }
}

/// The node that these options name, if they name one: each lane has a colon, and there are no more lanes than may be.
pub fn serve_job<'a>(alloc: Global, found: &ArgMatches<'a>) -> Result<Option<Job<'a>>, AllocError>
    ensures { IfOk result (λ job. IfSome job (IsServeJob (rows_of (found_of found.now)))) }
{
    let Some(genesis) = found.get_str("genesis") else {
        return Ok(None);
    };
    let log = found.get_str("log");
    let metrics = found.get_str("metrics");
    let lanes = texts_of(alloc, found, "lane")?;
    let peers = texts_of(alloc, found, "peer")?;
    let Some(many) = found.get_one::<usize>("workers") else {
        return Ok(None);
    };
    let Some(workers) = Workers::new(many) else {
        return Ok(None);
    };
    let is_binary = is_given(found, "binary");
    let stdio = is_given(found, "stdio");
    let until_closed = is_given(found, "until-closed");
    if !are_lanes(&lanes, stdio) || peers.len() > PEERS {
        return Ok(None);
    }
    Ok(Some(Job::Under {
        genesis,
        task: Task::Serve(Serving {
            log,
            lanes,
            peers,
            is_binary,
            stdio,
            until_closed,
            workers,
            metrics,
        }),
    }))
}

/// Whether each of these lanes has a colon between its streams, and they are no more than may be, with that of the
/// standard streams.
fn are_lanes(lanes: &[&str], stdio: bool) -> bool
    ensures { result ≡ true → length lanes.now + (if stdio then 1 else 0) ≤ lanes_limit }
{
    let most = if stdio {
        MAX_CLIENT_LANES - 1
    } else {
        MAX_CLIENT_LANES
    };
    lanes.len() <= most && lanes.iter().all(|lane| lane.split_once(':').is_some())
}
