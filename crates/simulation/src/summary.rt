//! What a simulation prints.

ghost use Rattle.std.specs.Prelude.{◌≡◌, ◌-◌, ◌^◌, ◌++◌, OnOk, min, sum};
ghost use Rattle.simulation.specs.Simulation.{discarded_line, follower_lines, heights_line, number_line, peer_line};
ghost use Rattle.simulation.specs.Simulation.{peer_lines, summary_text, total_of};

use inbox::PEERS;
use reception::WhenFull;
use std::alloc::AllocError;
use std::io::Write;

/// What came of a simulation.
#[derive(Debug, Drop)]
pub struct Summary {
    /// The height that the first client read last.
    pub height: u64,
    /// How many arrivals of each peer stand in the journal.
    pub arrivals: [u64; PEERS],
    /// How many blocks were discarded to keep places free.
    pub discarded: u64,
    /// Whether a height that a client read was less than one that it had read before.
    pub fell: bool,
    /// How long the chain is that each client's follower was told.
    pub told: Vec<u64>,
}

/// How many arrivals there are together; that count stands still at the largest number of 64 bits.
fn total(arrivals: &[u64]) -> u64
    ensures { result ≡ total_of arrivals.now }
{
    let mut total = 0u64;
    for count in arrivals {
        total = total.saturating_add(*count);
    }
    total
}

/// Appends a line of a word and a number.
fn put_number(lines: &mut Vec<u8>, word: &[u8], number: u64) -> Result<(), AllocError>
    ensures { OnOk result (lines.new.items ≡ lines.old.items ++ number_line word.now number) }
{
    lines.extend_from_slice(word)?;
    match write!(lines, " {number}\n") {
        Ok(()) => Ok(()),
        Err(_) => Err(AllocError),
    }
}

/// Appends the line of the peer of a number.
fn put_peer(lines: &mut Vec<u8>, number: u64, count: u64) -> Result<(), AllocError>
    ensures { OnOk result (lines.new.items ≡ lines.old.items ++ peer_line number count) }
{
    match write!(lines, "peer {number} {count}\n") {
        Ok(()) => Ok(()),
        Err(_) => Err(AllocError),
    }
}

/// Appends the line of each peer, whose numbers go from 1 on.
fn put_peers(lines: &mut Vec<u8>, arrivals: &[u64]) -> Result<(), AllocError>
    ensures { OnOk result (lines.new.items ≡ lines.old.items ++ peer_lines 1 arrivals.now) }
{
    for (place, count) in arrivals.iter().enumerate() {
        put_peer(lines, place as u64 + 1, *count)?;
    }
    Ok(())
}

/// Appends how many blocks were discarded, where such are.
fn put_discarded(lines: &mut Vec<u8>, discarded: u64, when_full: WhenFull) -> Result<(), AllocError>
    ensures { OnOk result (lines.new.items ≡ lines.old.items ++ discarded_line when_full discarded) }
{
    match when_full {
        WhenFull::Refuse => Ok(()),
        WhenFull::Discard => put_number(lines, b"discarded", discarded),
    }
}

/// Appends the line that says whether heights fell.
fn put_heights(lines: &mut Vec<u8>, fell: bool) -> Result<(), AllocError>
    ensures { OnOk result (lines.new.items ≡ lines.old.items ++ heights_line fell) }
{
    if fell {
        lines.extend_from_slice(b"heights bad\n")
    } else {
        lines.extend_from_slice(b"heights ok\n")
    }
}

/// Appends the line of each follower.
fn put_followers(lines: &mut Vec<u8>, told: &[u64]) -> Result<(), AllocError>
    ensures { OnOk result (lines.new.items ≡ lines.old.items ++ follower_lines told.now) }
{
    for blocks in told {
        put_number(lines, b"follower", *blocks)?;
    }
    Ok(())
}

/// Appends the lines of a summary.
pub fn put_summary(
    lines: &mut Vec<u8>,
    summary: &Summary,
    when_full: WhenFull,
) -> Result<(), AllocError>
    ensures { OnOk result (lines.new.items ≡ lines.old.items ++ summary_text when_full summary.now) }
{
    put_number(lines, b"height", summary.height)?;
    put_number(lines, b"arrivals", total(&summary.arrivals))?;
    put_peers(lines, &summary.arrivals)?;
    put_discarded(lines, summary.discarded, when_full)?;
    put_heights(lines, summary.fell)?;
    put_followers(lines, &summary.told)
}
