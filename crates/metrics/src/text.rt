//! The text of a node's figures.

ghost use Rattle.std.specs.Prelude.{◌≡◌, ◌++◌, IfOk, OnOk, string_bytes};
ghost use Rattle.metrics.specs.Metrics.{text_of_figures};

use crate::figures::Figures;
use crate::tables::{put_arrivals, put_chain, put_clients, put_flushes, put_mempool, put_resident};
use std::alloc::{AllocError, Global};

/// Appends the lines of each metric.
fn put_figures(out: &mut String, figures: &Figures) -> Result<(), AllocError>
    ensures { OnOk result (string_bytes out.new ≡ string_bytes out.old ++ text_of_figures figures.now) }
{
    put_chain(out, figures)?;
    put_mempool(out, figures)?;
    put_clients(out, figures)?;
    put_arrivals(out, figures)?;
    put_flushes(out, figures)?;
    put_resident(out, figures.resident_bytes)
}

/// A node's figures as text: for each metric a line `# HELP NAME TEXT`, a line `# TYPE NAME gauge` or `# TYPE NAME
/// counter`, and a line `NAME VALUE` with the value in decimal, of refusals one for each reason. The lines of resident
/// memory are left out where it is `None`. Served over HTTP, its type is `text/plain; version=0.0.4`. Err where memory
/// runs out. Takes time and memory in proportion to the text, which has less than four kilobytes.
pub fn metrics_text(alloc: Global, figures: &Figures) -> Result<Vec<u8>, AllocError>
    ensures { IfOk result (λ text. text.items ≡ text_of_figures figures.now) }
{
    let mut text = String::new(alloc);
    put_figures(&mut text, figures)?;
    Ok(text.into_bytes())
}
