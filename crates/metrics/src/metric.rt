//! Metrics and their lines. Where memory runs out, a beginning of what is appended here and elsewhere in this crate may
//! stand there.

ghost use Rattle.std.specs.Prelude.{◌≡◌, ◌++◌, OnOk, flat_map, map, string_bytes};
ghost use Rattle.metrics.specs.Format.{counter, gauge, head_lines, kind_word, metric_lines};
ghost use Rattle.metrics.specs.View.{metric_of};

use std::alloc::AllocError;

/// Whether a value may go down as well as up, or only grows.
#[derive(Clone, Copy)]
pub enum Kind {
    /// It may go down.
    Gauge,
    /// It only grows.
    Counter,
}

impl Kind {
    /// The format's word for it.
    fn word(self) -> &'static str
        ensures { result.now ≡ kind_word self }
    {
        match self {
            Kind::Gauge => "gauge",
            Kind::Counter => "counter",
        }
    }
}

/// A metric with one value: a row of a table. The value is wide enough for a sum of figures.
#[derive(Clone, Copy)]
pub struct Row {
    name: &'static str,
    kind: Kind,
    help: &'static str,
    value: u128,
}

/// A metric of a value that may go down as well as up.
pub fn gauge(name: &'static str, help: &'static str, value: u64) -> Row
    ensures { metric_of result ≡ gauge name.now help.now value }
{
    Row {
        name,
        kind: Kind::Gauge,
        help,
        value: u128::from(value),
    }
}

/// A metric of a value that only grows.
pub fn counter(name: &'static str, help: &'static str, value: u64) -> Row
    ensures { metric_of result ≡ counter name.now help.now value }
{
    sum_counter(name, help, u128::from(value))
}

/// The same of a sum.
pub fn sum_counter(name: &'static str, help: &'static str, value: u128) -> Row
    ensures { metric_of result ≡ counter name.now help.now value }
{
    Row {
        name,
        kind: Kind::Counter,
        help,
        value,
    }
}

/// Appends the lines in front of a metric's values: what it is for, and of which kind it is.
pub fn put_head(out: &mut String, name: &str, kind: Kind, help: &str) -> Result<(), AllocError>
    ensures { OnOk result (string_bytes out.new ≡ string_bytes out.old
        ++ head_lines name.now kind help.now) }
{
    let word = kind.word();
    write!(out, "# HELP {name} {help}\n# TYPE {name} {word}\n")
}

/// Appends the lines of a metric.
fn put_row(out: &mut String, row: &Row) -> Result<(), AllocError>
    ensures { OnOk result (string_bytes out.new ≡ string_bytes out.old ++ metric_lines (metric_of row.now)) }
{
    let Row {
        name,
        kind,
        help,
        value,
    } = *row;
    put_head(out, name, kind, help)?;
    write!(out, "{name} {value}\n")
}

/// Appends the lines of each of these metrics.
pub fn put_rows(out: &mut String, rows: &[Row]) -> Result<(), AllocError>
    ensures { OnOk result (string_bytes out.new ≡ string_bytes out.old
        ++ flat_map metric_lines (map metric_of rows.now)) }
{
    for row in rows {
        put_row(out, row)?;
    }
    Ok(())
}
