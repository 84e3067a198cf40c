//! The start of the program: from its words to its status.

ghost use Rattle.std.specs.Prelude.{◌≡◌, ◌≢◌, ◌≤◌, ◌⊎◌, Ok, Some, None, IfOk, OnOk};
ghost use Rattle.clap.specs.Words.{kind_of};
ghost use Rattle.commands.specs.Schemes.{verifies_by};
ghost use Rattle.commands.specs.Statuses.{status_of};

use crate::command_line::job;
use crate::failure::Failure;
use crate::genesis_file::genesis_of_file;
use crate::jobs::{Job, Task};
use crate::log_listing::show_log;
use crate::log_runs::{replay, run_logged};
use crate::runs::{run_file, setup_of, sim_file};
use crate::serving_node::serve;
use crate::texts::{check, identify, print_genesis, show};
use clap::Error;
use clap::error::ErrorKind;
use genesis::{GenesisDocument, Scheme};
use hosting::Process;
use scenario::ScenarioFault;
use std::fs::File;
use std::io::{Read, Write};
use std::rt::Files;
use std::sync::Wait;
use std::thread::Threads;
use telling::Verdict;
use witness_pool::{Ed25519, SigScheme, TestScheme};

/// Tells why a command line is no job, and answers the status.
fn refuse<O: Write, E: Write>(error: &Error, out: &mut O, err: &mut E) -> u8
    ensures memory { kind_of error.now ≡ ErrorKind.OutOfMemory → result ≡ 1 }
    ensures mistake { kind_of error.now ≢ ErrorKind.OutOfMemory → kind_of error.now ≢ ErrorKind.DisplayHelp
        → kind_of error.now ≢ ErrorKind.DisplayVersion → result ≡ 2 }
    ensures status { result ≤ 2 }
    ensures quiet { result ≡ 0 → err.new ≡ err.old }
    ensures refused { result ≡ 2 → out.new ≡ out.old }
    ensures never_done { result ≡ 0 → (kind_of error.now ≡ ErrorKind.DisplayHelp)
        ⊎ (kind_of error.now ≡ ErrorKind.DisplayVersion) }
{
    if error.kind() == ErrorKind::OutOfMemory {
        return fail(&ScenarioFault::OutOfMemory, err);
    }
    if error.use_stderr() {
        let _ = write!(err, "{error}");
        return 2;
    }
    match write!(out, "{error}") {
        Ok(()) => 0,
        Err(_) => fail(&ScenarioFault::WriteFailed, err),
    }
}

/// Does a task by this scheme, which is that of its genesis file. Answers the verdict that it asks for, if it asks for
/// one.
fn do_by<
    'a,
    S: SigScheme + Send + Sync + 'static,
    R: Files<File = File> + AllocGlobal + Threads + Wait + Process + Copy + Send + Sync + 'static,
    I: Read,
    O: Write,
>(
    rt: &R,
    task: &Task<'a>,
    document: GenesisDocument,
    input: &mut I,
    out: &mut O,
) -> Result<Option<Verdict>, Failure<'a>>
    requires { S.verifies ≡ verifies_by document.scheme }
{
    match task {
        Task::Run {
            script,
            log: None,
            explain,
        } => unasked(run_file::<S, _, _>(rt, document, *script, *explain, out)),
        Task::Run {
            script,
            log: Some(log),
            explain,
        } => unasked(run_logged::<S, _, _>(rt, &document, *script, *log, *explain, out)),
        Task::Sim {
            script,
            clients,
            discard,
        } => {
            let setup = setup_of(*clients, *discard);
            unasked(sim_file::<S, _, _>(rt, document, *script, setup, out))
        }
        Task::Replay { log } => unasked(replay::<S, _, _>(rt, &document, *log, out)),
        Task::Serve(serving) => unasked(serve::<S, _>(rt, &document, serving)),
        Task::ShowGenesis { form } => { unasked(print_genesis(rt.alloc(), *form, &document, out)) }
        Task::Check { base, slot, text } => {
            asked(check::<S, _, _, _>(rt, &document, *base, *slot, *text, input, out))
        }
    }
}

/// The end of a job that asks for no verdict.
fn unasked<'a>(end: Result<(), Failure<'a>>) -> Result<Option<Verdict>, Failure<'a>>
    ensures { IfOk result (λ verdict. verdict ≡ None) }
{
    match end {
        Ok(()) => Ok(None),
        Err(failure) => Err(failure),
    }
}

/// The end of one that does.
fn asked<'a>(end: Result<Verdict, Failure<'a>>) -> Result<Option<Verdict>, Failure<'a>>
    ensures { IfOk end.entry (λ verdict. result ≡ Ok (Some verdict)) }
{
    match end {
        Ok(verdict) => Ok(Some(verdict)),
        Err(failure) => Err(failure),
    }
}

/// Does a task by the scheme that its genesis file names. Here alone the core's scheme is chosen.
fn do_named<
    'a,
    R: Files<File = File> + AllocGlobal + Threads + Wait + Process + Copy + Send + Sync + 'static,
    I: Read,
    O: Write,
>(
    rt: &R,
    task: &Task<'a>,
    document: GenesisDocument,
    input: &mut I,
    out: &mut O,
) -> Result<Option<Verdict>, Failure<'a>> {
    match document.scheme {
        Scheme::Test => do_by::<TestScheme, _, _, _>(rt, task, document, input, out),
        Scheme::Ed25519 => do_by::<Ed25519, _, _, _>(rt, task, document, input, out),
    }
}

/// Does a job. A genesis file is read first, and where that says none no other file is opened.
fn do_read<
    'a,
    R: Files<File = File> + AllocGlobal + Threads + Wait + Process + Copy + Send + Sync + 'static,
    I: Read,
    O: Write,
>(rt: &R, job: &Job<'a>, input: &mut I, out: &mut O) -> Result<Option<Verdict>, Failure<'a>> {
    match job {
        Job::Id { kind, text } => unasked(identify(rt, *kind, *text, input, out)),
        Job::Show {
            kind,
            form,
            scheme,
            text,
        } => unasked(show(rt, *kind, *form, *scheme, *text, input, out)),
        Job::ShowLog { source, form } => unasked(show_log(rt, *source, *form, input, out)),
        Job::Under { genesis, task } => {
            let document = genesis_of_file(rt, *genesis, task.explains())?;
            do_named(rt, task, document, input, out)
        }
    }
}

/// Does a job, and answers the status: 0 where it was done, but 1 where it asks whether something is valid that isn't;
/// and else 1 with one line on standard error, or two where a fault is to be explained.
fn do_job<
    R: Files<File = File> + AllocGlobal + Threads + Wait + Process + Copy + Send + Sync + 'static,
    I: Read,
    O: Write,
    E: Write,
>(rt: &R, job: &Job<'_>, input: &mut I, out: &mut O, err: &mut E) -> u8
    ensures status { result ≤ 1 }
    ensures quiet { result ≡ 0 → err.new ≡ err.old }
{
    tell(do_read(rt, job, input, out), err)
}

/// Tells why a job wasn't done, where it wasn't, and answers the status.
fn tell<E: Write>(end: Result<Option<Verdict>, Failure<'_>>, err: &mut E) -> u8
    ensures status { result ≤ 1 }
    ensures verdict { result ≡ status_of end.entry }
    ensures silent { OnOk end.entry (err.new ≡ err.old) }
    ensures quiet { result ≡ 0 → err.new ≡ err.old }
{
    match end {
        Ok(None) => 0,
        Ok(Some(Verdict::Valid)) => 0,
        Ok(Some(Verdict::NotValid)) => 1,
        Err(failure) => {
            let _ = write!(err, "{failure}\n");
            let _ = failure.tell_hint(err);
            1
        }
    }
}

/// Does what the words of the command line ask for, with this standard input. Answers 0 where that was done, 2 for a
/// refused command line, and 1 where it is asked whether something is valid that isn't; and else 1 with one line on
/// standard error, or two where a fault is to be explained.
pub fn start<
    R: Files<File = File> + AllocGlobal + Threads + Wait + Process + Copy + Send + Sync + 'static,
    I: Read,
    O: Write,
    E: Write,
>(rt: &R, words: &[String], input: &mut I, out: &mut O, err: &mut E) -> u8
    ensures status { result ≤ 2 }
    // Where that was done nothing is written on standard error.
    ensures quiet { result ≡ 0 → err.new ≡ err.old }
    // For a refused command line nothing is written on standard output.
    ensures refused { result ≡ 2 → out.new ≡ out.old }
{
    match job(rt.alloc(), words) {
        Ok(job) => do_job(rt, &job, input, out, err),
        Err(error) => refuse(&error, out, err),
    }
}

/// Tells a fault in one line, and answers the status.
fn fail<E: Write>(fault: &ScenarioFault, err: &mut E) -> u8
    ensures { result ≡ 1 }
{
    let _ = write!(err, "{fault}\n");
    1
}
