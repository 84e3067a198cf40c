//! A node that stays, on a log or on none.

ghost use Rattle.std.specs.Prelude.{◌≡◌, IfOk};
ghost use Rattle.commands.specs.Schemes.{verifies_by};

use crate::failure::Failure;
use crate::jobs::Serving;
use crate::log_file::log_of_file;
use crate::log_runs::restart_of;
use genesis::{Genesis, GenesisDocument};
use hosting::{ClientLane, PeerLane, Plan, Process, begin_figures, host, host_on_log};
use peering::Framing;
use reception::{Places, WhenFull};
use shared::Opened;
use std::alloc::{AllocError, Global};
use std::fs::File;
use std::rt::Files;
use std::sync::Wait;
use std::thread::Threads;
use witness_pool::SigScheme;

/// A client's lane with these paths.
fn lane_at(alloc: Global, input: &str, output: &str) -> Result<ClientLane, AllocError> {
    Ok(ClientLane::Paths {
        input: String::from_str(alloc, input)?,
        output: String::from_str(alloc, output)?,
    })
}

/// The lanes of clients: that of the standard streams first, where they are one.
fn client_lanes(alloc: Global, serving: &Serving<'_>) -> Result<Vec<ClientLane>, AllocError> {
    let mut lanes = Vec::new(alloc);
    if serving.stdio {
        lanes.push(ClientLane::Standard)?;
    }
    for text in &serving.lanes {
        if let Some((input, output)) = text.split_once(':') {
            lanes.push(lane_at(alloc, input, output)?)?;
        }
    }
    Ok(lanes)
}

/// The lanes of peers.
fn peer_lanes(alloc: Global, serving: &Serving<'_>) -> Result<Vec<PeerLane>, AllocError> {
    let framing = if serving.is_binary {
        Framing::Binary
    } else {
        Framing::Lines
    };
    let mut lanes = Vec::new(alloc);
    for path in &serving.peers {
        lanes.push(PeerLane {
            input: String::from_str(alloc, *path)?,
            framing,
        })?;
    }
    Ok(lanes)
}

/// Where what the node counts is written down, if it is to be.
fn metrics_path(alloc: Global, serving: &Serving<'_>) -> Result<Option<String>, AllocError> {
    match serving.metrics {
        Some(path) => Ok(Some(String::from_str(alloc, path)?)),
        None => Ok(None),
    }
}

/// What the node is started with. Where blocks have no place, those that no way leads to are discarded.
fn plan_of(alloc: Global, genesis: &Genesis, serving: &Serving<'_>) -> Result<Plan, AllocError> {
    Ok(Plan {
        clients: client_lanes(alloc, serving)?,
        peers: peer_lanes(alloc, serving)?,
        workers: serving.workers,
        until_closed: serving.until_closed,
        when_full: WhenFull::Discard,
        places: Places::of(genesis),
        metrics: metrics_path(alloc, serving)?,
    })
}

/// Makes the file for what the node counts, where one is named: what can't be written is told before the node begins.
fn begin_metrics<'a, R: Process>(rt: &R, serving: &Serving<'a>) -> Result<(), Failure<'a>> {
    let Some(path) = serving.metrics else {
        return Ok(());
    };
    if begin_figures(&rt.system(), path)? {
        Ok(())
    } else {
        Err(Failure::Metrics(path))
    }
}

/// Runs a node on the log of a file, which is made where it is missing.
fn serve_on_log<
    'a,
    S: SigScheme + Send + Sync + 'static,
    R: Files<File = File> + AllocGlobal + Threads + Wait + Process + Copy + Send + Sync + 'static,
>(
    rt: &R,
    genesis: &Genesis,
    serving: &Serving<'a>,
    log: &'a str,
    plan: Plan,
) -> Result<(), Failure<'a>> {
    let mut restart = restart_of::<S>(rt.alloc(), genesis)?;
    let mut log = log_of_file(rt, log, true, &mut restart)?;
    // Not before the log is there and held: so no figures come into its place.
    begin_metrics(rt, serving)?;
    let opened = restart.shared(plan.callers())?;
    host_on_log(rt, rt.system(), opened, &mut log, plan)?;
    Ok(())
}

/// Runs a node on no log: what it has is gone when it ends.
fn serve_on_none<
    'a,
    S: SigScheme + Send + Sync + 'static,
    R: Files<File = File> + AllocGlobal + Threads + Wait + Process + Copy + Send + Sync + 'static,
>(rt: &R, genesis: &Genesis, serving: &Serving<'a>, plan: Plan) -> Result<(), Failure<'a>> {
    begin_metrics(rt, serving)?;
    let restart = restart_of::<S>(rt.alloc(), genesis)?;
    let opened = restart.shared(plan.callers())?;
    host(rt, rt.system(), opened, plan)?;
    Ok(())
}

/// Runs a node under this genesis, on the log that is named or on none, until a client asks it to stop, or nobody is
/// left who could send a block or ask for something and it is to end then. Blocks that are on the log are there when
/// this begins again.
pub fn serve<
    'a,
    S: SigScheme + Send + Sync + 'static,
    R: Files<File = File> + AllocGlobal + Threads + Wait + Process + Copy + Send + Sync + 'static,
>(rt: &R, document: &GenesisDocument, serving: &Serving<'a>) -> Result<(), Failure<'a>>
    requires { S.verifies ≡ verifies_by document.now.scheme }
{
    let plan = plan_of(rt.alloc(), &document.genesis, serving)?;
    match serving.log {
        Some(log) => serve_on_log::<S, _>(rt, &document.genesis, serving, log, plan),
        None => serve_on_none::<S, _>(rt, &document.genesis, serving, plan),
    }
}
