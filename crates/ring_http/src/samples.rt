//! Metrics in Prometheus' text format: a heading, and below it samples.
ghost use Rattle.std.specs.Prelude.{◌≡◌, ◌++◌, OnOk};
ghost use Rattle.ring_http.specs.Samples.{given_labelled, given_single, heading, heading_line, labelled, sample, single};

use crate::text::{put, put_around};
use http_server::Rope;
use std::alloc::AllocError;

/// Appends a metric that has one sample: its name, its meaning, its kind and its value.
pub(crate) fn put_single(
    name: &[u8],
    help: &[u8],
    kind: &[u8],
    value: u64,
    out: &mut Rope,
) -> Result<(), AllocError>
    ensures { OnOk result
        (out.new.items ≡ out.old.items ++ single name.now help.now kind.now value) }
{
    put_heading(name, help, kind, out)?;
    put_sample(name, value, out)
}

/// The same, if there is a value.
pub(crate) fn put_given_single(
    name: &[u8],
    help: &[u8],
    kind: &[u8],
    value: Option<u64>,
    out: &mut Rope,
) -> Result<(), AllocError>
    ensures { OnOk result
        (out.new.items ≡ out.old.items ++ given_single name.now help.now kind.now value) }
{
    match value {
        Some(value) => put_single(name, help, kind, value, out),
        None => Ok(()),
    }
}

/// Appends the heading of a metric: its name, its meaning and its kind.
pub(crate) fn put_heading(
    name: &[u8],
    help: &[u8],
    kind: &[u8],
    out: &mut Rope,
) -> Result<(), AllocError>
    ensures { OnOk result (out.new.items ≡ out.old.items ++ heading name.now help.now kind.now) }
{
    put_line(b"# HELP ", name, help, out)?;
    put_line(b"# TYPE ", name, kind, out)
}

// Appends a line of a heading.
fn put_line(begin: &[u8], name: &[u8], text: &[u8], out: &mut Rope) -> Result<(), AllocError>
    ensures { OnOk result
        (out.new.items ≡ out.old.items ++ heading_line begin.now name.now text.now) }
{
    put(begin, out)?;
    put(name, out)?;
    put(b" ", out)?;
    put(text, out)?;
    put(b"\n", out)
}

// Appends a sample without a label.
fn put_sample(name: &[u8], value: u64, out: &mut Rope) -> Result<(), AllocError>
    ensures { OnOk result (out.new.items ≡ out.old.items ++ sample name.now value) }
{
    put(name, out)?;
    put_around(b" ", value, b"\n", out)
}

/// Appends a sample with a label: the name of its metric, the text before the label, the label and
/// the value.
pub(crate) fn put_labelled(
    name: &[u8],
    key: &[u8],
    label: &[u8],
    value: u64,
    out: &mut Rope,
) -> Result<(), AllocError>
    ensures { OnOk result
        (out.new.items ≡ out.old.items ++ labelled name.now key.now label.now value) }
{
    put(name, out)?;
    put(key, out)?;
    put(label, out)?;
    put_around(b"\"} ", value, b"\n", out)
}

/// The same, if there is a value.
pub(crate) fn put_given_labelled(
    name: &[u8],
    key: &[u8],
    label: &[u8],
    value: Option<u64>,
    out: &mut Rope,
) -> Result<(), AllocError>
    ensures { OnOk result
        (out.new.items ≡ out.old.items ++ given_labelled name.now key.now label.now value) }
{
    match value {
        Some(value) => put_labelled(name, key, label, value, out),
        None => Ok(()),
    }
}
