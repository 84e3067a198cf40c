//! What a node tells of itself, metric by metric.

ghost use Rattle.std.specs.Prelude.{◌≡◌, ◌++◌, OnOk, codes, flat_map, string_bytes};
ghost use Rattle.metrics.specs.Format.{metric_lines, sample_line};
ghost use Rattle.metrics.specs.Metrics.{arrivals, arrived, chain, clients, flushes, mempool, refusal, refused};
ghost use Rattle.metrics.specs.Metrics.{resident};

use crate::figures::Figures;
use crate::metric::{Kind, counter, gauge, put_head, put_rows, sum_counter};
use std::alloc::AllocError;

/// Appends a node's selected chain, and what it has of blocks.
pub fn put_chain(out: &mut String, figures: &Figures) -> Result<(), AllocError>
    ensures { OnOk result (string_bytes out.new ≡ string_bytes out.old
        ++ flat_map metric_lines (chain figures.now)) }
{
    let rows = [
        gauge(
            "chaindb_chain_height",
            "Blocks of the selected chain.",
            figures.height,
        ),
        gauge(
            "chaindb_chain_slot",
            "Slot of the selected chain's last block.",
            figures.slot,
        ),
        gauge(
            "chaindb_immutable_blocks",
            "Blocks that no rollback reaches.",
            figures.immutable,
        ),
        gauge(
            "chaindb_durable_blocks",
            "Blocks that are durable on the log.",
            figures.durable,
        ),
        gauge(
            "chaindb_kept_blocks",
            "Blocks that are kept, immutable or live.",
            figures.kept_blocks,
        ),
        gauge(
            "chaindb_live_blocks",
            "Blocks that may still come into a selected chain or be rolled back.",
            figures.live,
        ),
    ];
    put_rows(out, &rows)
}

/// Appends its mempool, and what can be spent.
pub fn put_mempool(out: &mut String, figures: &Figures) -> Result<(), AllocError>
    ensures { OnOk result (string_bytes out.new ≡ string_bytes out.old
        ++ flat_map metric_lines (mempool figures.now)) }
{
    let rows = [
        gauge(
            "chaindb_mempool_transactions",
            "Transactions that wait in the mempool.",
            figures.transactions,
        ),
        gauge(
            "chaindb_mempool_bytes",
            "Bytes of the transactions that wait.",
            figures.transaction_bytes,
        ),
        gauge(
            "chaindb_unspent_outputs",
            "Unspent outputs of the selected chain.",
            figures.outputs,
        ),
    ];
    put_rows(out, &rows)
}

/// Appends whom it serves.
pub fn put_clients(out: &mut String, figures: &Figures) -> Result<(), AllocError>
    ensures { OnOk result (string_bytes out.new ≡ string_bytes out.old
        ++ flat_map metric_lines (clients figures.now)) }
{
    let rows = [
        gauge(
            "chaindb_followers",
            "Followers that are open.",
            figures.followers,
        ),
        gauge(
            "chaindb_lanes",
            "Lanes of clients that haven't ended.",
            figures.lanes,
        ),
        gauge(
            "chaindb_waiting_lanes",
            "Clients that wait for a block.",
            figures.waiting_lanes,
        ),
        gauge(
            "chaindb_peers",
            "Streams of peers that haven't ended.",
            figures.peers,
        ),
    ];
    put_rows(out, &rows)
}

/// All that arrived, kept or refused. Eight numbers below 2^64 have room in the wider sum.
fn arrived(figures: &Figures) -> u128
    ensures { result ≡ arrived figures.now }
{
    let [one, two, three, four, five, six, seven] = figures.refused;
    u128::from(figures.kept)
        + u128::from(one)
        + u128::from(two)
        + u128::from(three)
        + u128::from(four)
        + u128::from(five)
        + u128::from(six)
        + u128::from(seven)
}

/// Appends the line of what was refused by the reason of this number.
fn put_refusal(out: &mut String, number: u8, reason: &str, count: u64) -> Result<(), AllocError>
    ensures { OnOk result (string_bytes out.new ≡ string_bytes out.old
        ++ sample_line (codes "chaindb_arrivals_refused_total") (refusal number reason.now count)) }
{
    write!(
        out,
        "chaindb_arrivals_refused_total{{number=\"{number}\",reason=\"{reason}\"}} {count}\n"
    )
}

/// Appends what was refused, by the reason.
fn put_refusals(out: &mut String, figures: &Figures) -> Result<(), AllocError>
    ensures { OnOk result (string_bytes out.new ≡ string_bytes out.old
        ++ metric_lines (refused figures.now)) }
{
    let help = "Arrivals that were refused, by the reason.";
    put_head(out, "chaindb_arrivals_refused_total", Kind::Counter, help)?;
    put_refusal(out, 1, "TooLarge", figures.refused[0])?;
    put_refusal(out, 2, "Malformed", figures.refused[1])?;
    put_refusal(out, 3, "BodyHashMismatch", figures.refused[2])?;
    put_refusal(out, 4, "TooOld", figures.refused[3])?;
    put_refusal(out, 5, "Known", figures.refused[4])?;
    put_refusal(out, 6, "Clash", figures.refused[5])?;
    put_refusal(out, 7, "VolatileFull", figures.refused[6])
}

/// Appends what came of what peers sent.
pub fn put_arrivals(out: &mut String, figures: &Figures) -> Result<(), AllocError>
    ensures { OnOk result (string_bytes out.new ≡ string_bytes out.old
        ++ flat_map metric_lines (arrivals figures.now)) }
{
    let rows = [
        sum_counter(
            "chaindb_arrivals_total",
            "Arrivals from peers.",
            arrived(figures),
        ),
        counter(
            "chaindb_arrivals_kept_total",
            "Arrivals that were kept.",
            figures.kept,
        ),
    ];
    put_rows(out, &rows)?;
    put_refusals(out, figures)?;
    let help = "Blocks that were discarded to make places free.";
    put_rows(
        out,
        &[counter("chaindb_discarded_total", help, figures.discarded)],
    )
}

/// Appends how writing onto the log went, and asking for memory.
pub fn put_flushes(out: &mut String, figures: &Figures) -> Result<(), AllocError>
    ensures { OnOk result (string_bytes out.new ≡ string_bytes out.old
        ++ flat_map metric_lines (flushes figures.now)) }
{
    let rows = [
        counter(
            "chaindb_flushes_total",
            "Flushes onto the log that succeeded.",
            figures.flushes,
        ),
        counter(
            "chaindb_failed_flushes_total",
            "Flushes onto the log that failed.",
            figures.failed_flushes,
        ),
        counter(
            "chaindb_flush_microseconds_total",
            "Time that flushes took together, in microseconds.",
            figures.flush_microseconds,
        ),
        gauge(
            "chaindb_last_flush_microseconds",
            "Time that the last flush took, in microseconds.",
            figures.last_flush_microseconds,
        ),
        counter(
            "chaindb_memory_refusals_total",
            "Times that the node went without memory that it asked for.",
            figures.memory_refusals,
        ),
    ];
    put_rows(out, &rows)
}

/// Appends the memory that the process has, where the system tells.
pub fn put_resident(out: &mut String, resident_bytes: Option<u64>) -> Result<(), AllocError>
    ensures { OnOk result (string_bytes out.new ≡ string_bytes out.old
        ++ flat_map metric_lines (resident resident_bytes)) }
{
    match resident_bytes {
        Some(bytes) => {
            let help = "Resident memory of the process, in bytes.";
            put_rows(out, &[gauge("chaindb_resident_memory_bytes", help, bytes)])
        }
        None => Ok(()),
    }
}
