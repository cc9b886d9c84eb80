//! Numbers in the text format that Prometheus reads, version 0.0.4.

ghost use Rattle.std.specs.Prelude.{◌≡◌, ◌∷◌, OnOk};
ghost use Rattle.std.specs.Io.KnownBytes.{Appends};
ghost use Rattle.ups_log.specs.Metrics.{kind_word, about, heading, escaped_byte, escaped, label_text, labels_text, sample, metric_text};

use std::io::{self, Write};

/// The kinds of metrics.
#[derive(Clone, Copy, Debug, PartialEq, Eq)]
pub enum MetricKind {
    /// A sum that only grows while the server runs.
    Counter,
    /// A number that goes up and down.
    Gauge,
}

/// A metric: one number, or one for each value of its labels.
#[derive(Clone, Copy)]
pub struct Metric {
    /// Its name, of letters, digits and `_`.
    pub name: &'static str,
    pub kind: MetricKind,
    /// What it is, in one line without a backslash.
    pub help: &'static str,
}

impl Metric {
    /// Creates a metric that goes up and down.
    pub fn gauge(name: &'static str, help: &'static str) -> Metric {
        Metric {
            name,
            kind: MetricKind::Gauge,
            help,
        }
    }

    /// Creates a sum.
    pub fn counter(name: &'static str, help: &'static str) -> Metric {
        Metric {
            name,
            kind: MetricKind::Counter,
            help,
        }
    }
}

/// A label of a number: its name, of letters, and its value.
#[derive(Clone, Copy)]
pub struct Label<'a> {
    pub name: &'static str,
    pub value: &'a str,
}

/// The labels of a number.
#[derive(Clone, Copy)]
pub enum Labels<'a> {
    Nothing,
    One(Label<'a>),
    Two(Label<'a>, Label<'a>),
}

/// Returns the word for a kind.
fn kind_word(kind: MetricKind) -> &'static str
    ensures { result.now ≡ kind_word kind }
{
    match kind {
        MetricKind::Counter => "counter",
        MetricKind::Gauge => "gauge",
    }
}

/// Writes a line about a metric: the word that says what the line tells, the name, and the text.
fn put_about<W: Write>(writer: &mut W, word: &str, name: &str, text: &str) -> io::Result<()>
    ensures { OnOk result (Appends (W.contents writer.old) (W.contents writer.new) (about word.now name.now text.now)) }
{
    write!(writer, "# {word} {name} {text}\n")
}

/// Writes what comes before the numbers of a metric: its help text and its kind.
pub fn put_heading<W: Write>(writer: &mut W, metric: &Metric) -> io::Result<()>
    ensures { OnOk result (Appends (W.contents writer.old) (W.contents writer.new) (heading metric.now)) }
{
    put_about(writer, "HELP", metric.name, metric.help)?;
    put_about(writer, "TYPE", metric.name, kind_word(metric.kind))
}

/// Writes a byte of the value of a label.
fn put_byte<W: Write>(writer: &mut W, byte: u8) -> io::Result<()>
    ensures { OnOk result (Appends (W.contents writer.old) (W.contents writer.new) (escaped_byte byte)) }
{
    match byte {
        b'\n' => writer.write_all(b"\\n"),
        b'\\' => writer.write_all(b"\\\\"),
        b'"' => writer.write_all(b"\\\""),
        _ => writer.write_all(&[byte]),
    }
}

/// Writes the value of a label, with a backslash before each backslash and quotation mark, and `\n` for a line feed.
fn put_escaped<W: Write>(writer: &mut W, value: &[u8]) -> io::Result<()>
    ensures { OnOk result (Appends (W.contents writer.old) (W.contents writer.new) (escaped value.now)) }
{
    for byte in value {
        put_byte(writer, *byte)?;
    }
    Ok(())
}

/// Writes a label.
fn put_label<W: Write>(writer: &mut W, label: &Label<'_>) -> io::Result<()>
    ensures { OnOk result (Appends (W.contents writer.old) (W.contents writer.new) (label_text label.now)) }
{
    writer.write_all(label.name.as_bytes())?;
    writer.write_all(b"=\"")?;
    put_escaped(writer, label.value.as_bytes())?;
    writer.write_all(b"\"")
}

/// Writes a label behind another.
fn put_next_label<W: Write>(writer: &mut W, label: &Label<'_>) -> io::Result<()>
    ensures { OnOk result (Appends (W.contents writer.old) (W.contents writer.new) (44 ∷ label_text label.now)) }
{
    writer.write_all(b",")?;
    put_label(writer, label)
}

/// Writes labels in braces, or nothing if there are none.
fn put_labels<W: Write>(writer: &mut W, labels: &Labels<'_>) -> io::Result<()>
    ensures { OnOk result (Appends (W.contents writer.old) (W.contents writer.new) (labels_text labels.now)) }
{
    match labels {
        Labels::Nothing => Ok(()),
        Labels::One(label) => {
            writer.write_all(b"{")?;
            put_label(writer, label)?;
            writer.write_all(b"}")
        }
        Labels::Two(first, second) => {
            writer.write_all(b"{")?;
            put_label(writer, first)?;
            put_next_label(writer, second)?;
            writer.write_all(b"}")
        }
    }
}

/// Writes a number of a metric, with its labels.
pub fn put_sample<W: Write>(
    writer: &mut W,
    metric: &Metric,
    labels: &Labels<'_>,
    value: u64,
) -> io::Result<()>
    ensures { OnOk result (Appends (W.contents writer.old) (W.contents writer.new) (sample metric.now labels.now value)) }
{
    writer.write_all(metric.name.as_bytes())?;
    put_labels(writer, labels)?;
    write!(writer, " {value}\n")
}

/// Writes a metric that has one number, without labels.
pub fn put_metric<W: Write>(writer: &mut W, metric: &Metric, value: u64) -> io::Result<()>
    ensures { OnOk result (Appends (W.contents writer.old) (W.contents writer.new) (metric_text metric.now value)) }
{
    put_heading(writer, metric)?;
    put_sample(writer, metric, &Labels::Nothing, value)
}
