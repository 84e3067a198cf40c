//! The command line.

ghost use Rattle.std.specs.Prelude.{◌≡◌, map, option_map, IfOk, IfSome, false, string_bytes};
ghost use Rattle.clap.specs.Words.{app_of, rule_of, rows_of, found_of, first_of, subcommand_of, subcommand_rows_of};
ghost use Rattle.clap.specs.declared.builder.command.Command.TheViews.{out-Command};
ghost use Rattle.commands.specs.CommandLine.{option_rule, required_rule, clients_rule, explain_rule, discard_rule};
ghost use Rattle.commands.specs.CommandLine.{on_script, files_app, run_app, clients_app, sim_app, replay_app, bare_app};
ghost use Rattle.commands.specs.CommandLine.{script_app, short_app, placed_rule, kind_rule, binary_rule, with_text};
ghost use Rattle.commands.specs.CommandLine.{id_app, base_app, check_app, log_app, slot_rule, scheme_rule, json_rule};
ghost use Rattle.commands.specs.CommandLine.{form_app};
ghost use Rattle.commands.specs.CommandLine.{show_app, text_app};
ghost use Rattle.commands.specs.JobView.{is_given, file_in, file_of, form_in, IsTextAt, IsShortJobOf};
ghost use Rattle.commands.specs.JobView.{IsRunJob, IsSimJob, IsReplayJob, IsIdJob, IsCheckJob, IsShowJob};
ghost use Rattle.commands.specs.ServeLine.{node_app, IsJobOf};

use crate::jobs::{Base, Job, Source, Task, TextAt};
use crate::serve_command::{serve_command, serve_job};
use clap::builder::ValueParser;
use clap::error::ErrorKind;
use clap::{Arg, ArgAction, ArgMatches, Command, Error};
use genesis::Scheme;
use simulation::{Clients, MAX_CLIENTS};
use std::alloc::{AllocError, Global};
use telling::{Form, Kind};

/// An option with the path of a file.
pub(crate) fn path_option<'a>(alloc: Global, id: &'a str, help: &'a str) -> Arg<'a>
    ensures rule { rule_of result ≡ option_rule id.entry.now }
    ensures local { result.global ≡ false }
{
    Arg::new(alloc, id)
        .long(id)
        .action(ArgAction::Set)
        .value_name("FILE")
        .help(help)
}

/// One that has to be given.
pub(crate) fn required_path<'a>(alloc: Global, id: &'a str, help: &'a str) -> Arg<'a>
    ensures rule { rule_of result ≡ required_rule id.entry.now }
    ensures local { result.global ≡ false }
{
    path_option(alloc, id, help).required(true)
}

/// The option with how many clients there are.
fn clients_option<'a>(alloc: Global) -> Arg<'a>
    ensures rule { rule_of result ≡ clients_rule }
    ensures local { result.global ≡ false }
{
    Arg::new(alloc, "clients")
        .long("clients")
        .action(ArgAction::Set)
        .value_name("N")
        .help("How many clients follow the chain, 1 to 8")
        .value_parser(ValueParser::unsigned(1, MAX_CLIENTS as u64))
        .default_value("1")
}

/// The flag that asks for more to be told: of refused transactions, blocks that aren't selected, and faults.
fn explain_flag<'a>(alloc: Global) -> Arg<'a>
    ensures rule { rule_of result ≡ explain_rule }
    ensures local { result.global ≡ false }
{
    Arg::new(alloc, "explain")
        .long("explain")
        .action(ArgAction::SetTrue)
        .help(
            "Say why a transaction is refused or a block isn't selected, and what a fault is about",
        )
}

/// The flag that has blocks discarded where others have no place.
fn discard_flag<'a>(alloc: Global) -> Arg<'a>
    ensures rule { rule_of result ≡ discard_rule }
    ensures local { result.global ≡ false }
{
    Arg::new(alloc, "discard")
        .long("discard")
        .action(ArgAction::SetTrue)
        .help("Where no more blocks may wait, discard those that nothing connects to the chain")
}

/// A command of this name with the files of a genesis and of a script.
fn script_files<'a>(
    alloc: Global,
    name: &'a str,
    about: &'a str,
    script: &'a str,
) -> Result<Command<'a>, AllocError>
    ensures app { IfOk result (λ c. app_of c ≡ on_script name.entry.now) }
    ensures local { IfOk result (λ c. (out-Command c).has_globals ≡ false) }
{
    Command::new(alloc, name)
        .about(about)
        .arg(required_path(alloc, "genesis", "What the network agrees on"))?
        .arg(required_path(alloc, "script", script))
}

/// The command `run` with the options that are files.
fn files_command<'a>(alloc: Global) -> Result<Command<'a>, AllocError>
    ensures app { IfOk result (λ c. app_of c ≡ files_app) }
    ensures local { IfOk result (λ c. (out-Command c).has_globals ≡ false) }
{
    let about = "Run a script, and print what it prints";
    script_files(alloc, "run", about, "What happens")?.arg(path_option(
        alloc,
        "log",
        "The blocks that are kept, from this run on or before",
    ))
}

/// The command `run`.
fn run_command<'a>(alloc: Global) -> Result<Command<'a>, AllocError>
    ensures app { IfOk result (λ c. app_of c ≡ run_app) }
    ensures local { IfOk result (λ c. (out-Command c).has_globals ≡ false) }
{
    files_command(alloc)?.arg(explain_flag(alloc))
}

/// The command `sim` with the options that have a value.
fn clients_command<'a>(alloc: Global) -> Result<Command<'a>, AllocError>
    ensures app { IfOk result (λ c. app_of c ≡ clients_app) }
    ensures local { IfOk result (λ c. (out-Command c).has_globals ≡ false) }
{
    let about = "Have peers send blocks at once, and print what came of it";
    script_files(alloc, "sim", about, "What the peers send")?.arg(clients_option(alloc))
}

/// The command `sim`.
fn sim_command<'a>(alloc: Global) -> Result<Command<'a>, AllocError>
    ensures app { IfOk result (λ c. app_of c ≡ sim_app) }
    ensures local { IfOk result (λ c. (out-Command c).has_globals ≡ false) }
{
    clients_command(alloc)?.arg(discard_flag(alloc))
}

/// The command `replay`.
fn replay_command<'a>(alloc: Global) -> Result<Command<'a>, AllocError>
    ensures app { IfOk result (λ c. app_of c ≡ replay_app) }
    ensures local { IfOk result (λ c. (out-Command c).has_globals ≡ false) }
{
    Command::new(alloc, "replay")
        .about("Open a log, and print the height of its chain")
        .arg(required_path(alloc, "genesis", "What the network agrees on"))?
        .arg(required_path(alloc, "log", "The blocks that were kept"))
}

/// A value that has a place and no name, and may be left out.
fn placed<'a>(alloc: Global, id: &'a str, name: &'a str, help: &'a str) -> Arg<'a>
    ensures rule { rule_of result ≡ placed_rule id.entry.now }
    ensures local { result.global ≡ false }
{
    Arg::new(alloc, id)
        .action(ArgAction::Set)
        .value_name(name)
        .help(help)
}

/// What the text is of, one of these kinds.
fn kind_argument<'a>(alloc: Global, kinds: &'a str) -> Arg<'a>
    ensures rule { rule_of result ≡ kind_rule }
    ensures local { result.global ≡ false }
{
    placed(alloc, "kind", "KIND", kinds).required(true)
}

/// The flag that the bytes of a text themselves are read.
fn binary_flag<'a>(alloc: Global) -> Arg<'a>
    ensures rule { rule_of result ≡ binary_rule }
    ensures local { result.global ≡ false }
{
    Arg::new(alloc, "binary")
        .long("binary")
        .action(ArgAction::SetTrue)
        .help("Read the bytes themselves, and not their hexadecimal digits")
}

/// The command with a text.
fn with_text<'a>(alloc: Global, command: Command<'a>) -> Result<Command<'a>, AllocError>
    requires { (out-Command command).has_globals ≡ false }
    ensures app { IfOk result (λ c. app_of c ≡ with_text (app_of command.entry)) }
    ensures local { IfOk result (λ c. (out-Command c).has_globals ≡ false) }
{
    let file = "The file with its text; - or none for standard input";
    command
        .arg(placed(alloc, "file", "FILE", file))?
        .arg(binary_flag(alloc))
}

/// The command `id`.
fn id_command<'a>(alloc: Global) -> Result<Command<'a>, AllocError>
    ensures app { IfOk result (λ c. app_of c ≡ id_app) }
    ensures local { IfOk result (λ c. (out-Command c).has_globals ≡ false) }
{
    let command = Command::new(alloc, "id")
        .about(
            "Print the identifier of a transaction, or the hash of a block or of a native script",
        )
        .after_help("Example: node id transaction payment.hex")
        .arg(kind_argument(alloc, "transaction, block or script"))?;
    with_text(alloc, command)
}

/// The option with the scheme by which signatures are judged.
fn scheme_option<'a>(alloc: Global) -> Arg<'a>
    ensures rule { rule_of result ≡ scheme_rule }
    ensures local { result.global ≡ false }
{
    Arg::new(alloc, "scheme")
        .long("scheme")
        .action(ArgAction::Set)
        .value_name("SCHEME")
        .help("By which signatures are judged, test or ed25519")
        .default_value("test")
}

/// The flag that a text is shown as a JSON document.
fn json_flag<'a>(alloc: Global) -> Arg<'a>
    ensures rule { rule_of result ≡ json_rule }
    ensures local { result.global ≡ false }
{
    Arg::new(alloc, "json")
        .long("json")
        .action(ArgAction::SetTrue)
        .help("Print one JSON document in place of lines")
}

/// The command `show` without its text.
fn form_command<'a>(alloc: Global) -> Result<Command<'a>, AllocError>
    ensures app { IfOk result (λ c. app_of c ≡ form_app) }
    ensures local { IfOk result (λ c. (out-Command c).has_globals ≡ false) }
{
    Command::new(alloc, "show")
        .about("Print what a transaction, a block, a script, a value, a genesis or a log is")
        .after_help("Example: node show --scheme ed25519 transaction payment.hex")
        .arg(kind_argument(alloc, "transaction, block, script, value, genesis or log"))?
        .arg(scheme_option(alloc))?
        .arg(json_flag(alloc))
}

/// The command `show`.
fn show_command<'a>(alloc: Global) -> Result<Command<'a>, AllocError>
    ensures app { IfOk result (λ c. app_of c ≡ show_app) }
    ensures local { IfOk result (λ c. (out-Command c).has_globals ≡ false) }
{
    let command = form_command(alloc)?;
    with_text(alloc, command)
}

/// The command `check` with the options that are files.
fn base_command<'a>(alloc: Global) -> Result<Command<'a>, AllocError>
    ensures app { IfOk result (λ c. app_of c ≡ base_app) }
    ensures local { IfOk result (λ c. (out-Command c).has_globals ≡ false) }
{
    Command::new(alloc, "check")
        .about("Say whether a transaction is valid, or why not")
        .after_help("Example: node check --genesis genesis.toml --log blocks.log payment.hex")
        .arg(required_path(alloc, "genesis", "What the network agrees on"))?
        .arg(path_option(alloc, "log", "The blocks that it comes after"))?
        .arg(path_option(
            alloc,
            "script",
            "What happens before it, behind these blocks",
        ))
}

/// The option with a slot.
fn slot_option<'a>(alloc: Global) -> Arg<'a>
    ensures rule { rule_of result ≡ slot_rule }
    ensures local { result.global ≡ false }
{
    Arg::new(alloc, "slot")
        .long("slot")
        .action(ArgAction::Set)
        .value_name("N")
        .help("The slot in which it is judged; that after the last block's where it isn't given")
        .value_parser(ValueParser::unsigned(0, u64::MAX))
}

/// The command `check`.
fn check_command<'a>(alloc: Global) -> Result<Command<'a>, AllocError>
    ensures app { IfOk result (λ c. app_of c ≡ check_app) }
    ensures local { IfOk result (λ c. (out-Command c).has_globals ≡ false) }
{
    let command = base_command(alloc)?.arg(slot_option(alloc))?;
    with_text(alloc, command)
}

/// The command that the program is, with no subcommand yet.
fn bare_command<'a>(alloc: Global) -> Command<'a>
    ensures { app_of result ≡ bare_app }
{
    Command::new(alloc, "node")
        .version("0.1.0")
        .about("The chain database of a node")
        .subcommand_required(true)
}

/// The same with the subcommands that run scripts.
fn script_command<'a>(alloc: Global) -> Result<Command<'a>, AllocError>
    ensures { IfOk result (λ c. app_of c ≡ script_app) }
{
    let run = run_command(alloc)?;
    let sim = sim_command(alloc)?;
    bare_command(alloc).subcommand(run)?.subcommand(sim)
}

/// The same with the one that opens a log.
fn log_command<'a>(alloc: Global) -> Result<Command<'a>, AllocError>
    ensures { IfOk result (λ c. app_of c ≡ log_app) }
{
    let replay = replay_command(alloc)?;
    script_command(alloc)?.subcommand(replay)
}

/// The same with those that tell of a text.
fn text_command<'a>(alloc: Global) -> Result<Command<'a>, AllocError>
    ensures { IfOk result (λ c. app_of c ≡ text_app) }
{
    let id = id_command(alloc)?;
    let check = check_command(alloc)?;
    log_command(alloc)?.subcommand(id)?.subcommand(check)
}

/// The same with the one that shows a text.
fn short_command<'a>(alloc: Global) -> Result<Command<'a>, AllocError>
    ensures { IfOk result (λ c. app_of c ≡ short_app) }
{
    let show = show_command(alloc)?;
    text_command(alloc)?.subcommand(show)
}

/// The command that the program is.
fn node_command<'a>(alloc: Global) -> Result<Command<'a>, AllocError>
    ensures { IfOk result (λ c. app_of c ≡ node_app) }
{
    let serve = serve_command(alloc)?;
    short_command(alloc)?.subcommand(serve)
}

/// Whether a flag is given.
pub(crate) fn is_given(found: &ArgMatches<'_>, id: &str) -> bool
    ensures { result ≡ is_given (first_of id.now (rows_of (found_of found.now))) }
{
    match found.get_str(id) {
        Some(text) => text == "true",
        None => false,
    }
}

/// The run that these options name, if they name one.
fn run_job<'a>(found: &ArgMatches<'a>) -> Option<Job<'a>>
    ensures { IfSome result (IsRunJob (rows_of (found_of found.now))) }
{
    let genesis = found.get_str("genesis")?;
    let script = found.get_str("script")?;
    let log = found.get_str("log");
    let explain = is_given(found, "explain");
    Some(Job::Under {
        genesis,
        task: Task::Run {
            script,
            log,
            explain,
        },
    })
}

/// The simulation that these options name, if they name one.
fn sim_job<'a>(found: &ArgMatches<'a>) -> Option<Job<'a>>
    ensures { IfSome result (IsSimJob (rows_of (found_of found.now))) }
{
    let genesis = found.get_str("genesis")?;
    let script = found.get_str("script")?;
    let many = found.get_one::<usize>("clients")?;
    let clients = Clients::new(many)?;
    let discard = is_given(found, "discard");
    Some(Job::Under {
        genesis,
        task: Task::Sim {
            script,
            clients,
            discard,
        },
    })
}

/// The replay that these options name, if they name one.
fn replay_job<'a>(found: &ArgMatches<'a>) -> Option<Job<'a>>
    ensures { IfSome result (IsReplayJob (rows_of (found_of found.now))) }
{
    let genesis = found.get_str("genesis")?;
    let log = found.get_str("log")?;
    Some(Job::Under {
        genesis,
        task: Task::Replay { log },
    })
}

/// Where a text with this path is read from.
fn source_at<'a>(path: Option<&'a str>) -> Source<'a>
    ensures { file_of result ≡ file_in (option_map (λ given. given.now) path.entry) }
{
    let Some(path) = path else {
        return Source::Input;
    };
    if path == "-" {
        return Source::Input;
    }
    Source::File(path)
}

/// The text that these arguments name.
fn text_at<'a>(found: &ArgMatches<'a>) -> TextAt<'a>
    ensures { IsTextAt (rows_of (found_of found.now)) result }
{
    let path = found.get_str("file");
    let source = source_at(path);
    let is_binary = is_given(found, "binary");
    TextAt { source, is_binary }
}

/// The question for an identifier that these arguments name, if they name one.
fn id_job<'a>(found: &ArgMatches<'a>) -> Option<Job<'a>>
    ensures { IfSome result (IsIdJob (rows_of (found_of found.now))) }
{
    let name = found.get_str("kind")?;
    let kind = Kind::of_name(name)?;
    if !kind.has_identifier() {
        return None;
    }
    let text = text_at(found);
    Some(Job::Id { kind, text })
}

/// How a text is to be shown.
fn form_of(found: &ArgMatches<'_>) -> Form
    ensures { result ≡ form_in (rows_of (found_of found.now)) }
{
    if is_given(found, "json") {
        Form::Json
    } else {
        Form::Lines
    }
}

/// The question what a text is that these arguments name, if they name one.
fn show_job<'a>(found: &ArgMatches<'a>) -> Option<Job<'a>>
    ensures { IfSome result (IsShowJob (rows_of (found_of found.now))) }
{
    let name = found.get_str("kind")?;
    let form = form_of(found);
    if name == "log" {
        let source = source_at(found.get_str("file"));
        return Some(Job::ShowLog { source, form });
    }
    if name == "genesis" {
        let genesis = found.get_str("file")?;
        return Some(Job::Under {
            genesis,
            task: Task::ShowGenesis { form },
        });
    }
    let kind = Kind::of_name(name)?;
    let by = found.get_str("scheme")?;
    let scheme = Scheme::of_name(by)?;
    let text = text_at(found);
    Some(Job::Show {
        kind,
        form,
        scheme,
        text,
    })
}

/// The question whether a transaction is valid that these arguments name, if they name one.
fn check_job<'a>(found: &ArgMatches<'a>) -> Option<Job<'a>>
    ensures { IfSome result (IsCheckJob (rows_of (found_of found.now))) }
{
    let genesis = found.get_str("genesis")?;
    let after_log = found.get_str("log");
    let after_script = found.get_str("script");
    let text = text_at(found);
    let Ok(slot) = found.try_get_one::<u64>("slot") else {
        return None;
    };
    let base = Base {
        log: after_log,
        script: after_script,
    };
    Some(Job::Under {
        genesis,
        task: Task::Check { base, slot, text },
    })
}

/// The job that matches name, if there is one, but for a node that stays.
fn short_job_of<'a>(matches: &ArgMatches<'a>) -> Option<Job<'a>>
    ensures { IfSome result (IsShortJobOf (subcommand_rows_of matches.now)) }
{
    let (name, found) = matches.subcommand()?;
    if name == "run" {
        return run_job(found);
    }
    if name == "sim" {
        return sim_job(found);
    }
    if name == "replay" {
        return replay_job(found);
    }
    if name == "id" {
        return id_job(found);
    }
    if name == "check" {
        return check_job(found);
    }
    if name == "show" {
        return show_job(found);
    }
    None
}

/// The job that matches name, if there is one.
fn job_of<'a>(alloc: Global, matches: &ArgMatches<'a>) -> Result<Option<Job<'a>>, AllocError>
    ensures { IfOk result (λ job. IfSome job (IsJobOf (subcommand_rows_of matches.now))) }
{
    if let Some((name, found)) = matches.subcommand() {
        if name == "serve" {
            return serve_job(alloc, found);
        }
    }
    Ok(short_job_of(matches))
}

/// Why words that clap took name no job: of its values these alone may be none.
fn refusal(matches: &ArgMatches<'_>) -> &'static str {
    let Some((name, found)) = matches.subcommand() else {
        return "there is no command";
    };
    if name == "serve" {
        return "a --lane has no colon between IN and OUT, or there are more than 60 lanes with --stdio, or 8 peers";
    }
    if name != "show" {
        return "KIND is none of transaction, block and script";
    }
    let Some(kind) = found.get_str("kind") else {
        return "there is no KIND";
    };
    if kind == "genesis" {
        return "there is no FILE, which a genesis has to have";
    }
    match Kind::of_name(kind) {
        Some(_) => "SCHEME is none of test and ed25519",
        None => "KIND is none of transaction, block, script, value, genesis and log",
    }
}

/// What the words of a command line, the first of which names the program, ask for: the job that the subcommand names,
/// with the paths and the number of its options, as clap matches them. Err where clap refuses the words, where a kind
/// of text or a scheme is none of its names, where a genesis that is to be shown has no file, where they ask for help
/// or the version, or where memory runs out. Takes time and memory in proportion to the words.
pub fn job<'a>(alloc: Global, words: &'a [String]) -> Result<Job<'a>, Error>
    ensures { IfOk result (IsJobOf (subcommand_of node_app (map string_bytes words.entry.now))) }
{
    let matches = node_command(alloc)?.try_get_matches_from(words)?;
    let found = job_of(alloc, &matches)?;
    match found {
        Some(job) => Ok(job),
        None => {
            let error = node_command(alloc)?.error(ErrorKind::InvalidValue, refusal(&matches))?;
            Err(error)
        }
    }
}
