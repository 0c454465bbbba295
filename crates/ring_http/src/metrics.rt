//! All metrics in Prometheus' text format, version 0.0.4.
ghost use Rattle.std.specs.Prelude.{◌≡◌, ◌++◌, OnOk};
ghost use Rattle.ring_http.specs.Metrics.{families_text, metrics_of};

use crate::beside::Figures;
use crate::figures::put_figures;
use crate::gauges::{Gauge, put_family};
use crate::picture::GroupPicture;
use crate::samples::put_single;
use http_server::Rope;
use std::alloc::AllocError;

/// Appends the metrics of these groups, the place of the last answer, and what is known beside the
/// table. Each metric has a heading, and one sample for each label. Fails only if an allocation
/// fails.
pub fn put_metrics(
    place: usize,
    groups: &[GroupPicture],
    figures: &Figures,
    out: &mut Rope,
) -> Result<(), AllocError>
    ensures { OnOk result
        (out.new.items ≡ out.old.items ++ metrics_of place groups.now figures.now) }
{
    put_single(
        b"ringd_groups",
        b"Number of groups.",
        b"gauge",
        groups.len() as u64,
        out,
    )?;
    put_single(
        b"ringd_entries_total",
        b"Place of this answer in the history: each command, question and report has one.",
        b"counter",
        place as u64,
        out,
    )?;
    put_families(groups, out)?;
    put_figures(figures, out)
}

// Appends the metrics that have a sample for each group.
fn put_families(groups: &[GroupPicture], out: &mut Rope) -> Result<(), AllocError>
    ensures { OnOk result (out.new.items ≡ out.old.items ++ families_text groups.now) }
{
    put_family(Gauge::Members, groups, out)?;
    put_family(Gauge::Term, groups, out)?;
    put_family(Gauge::Leader, groups, out)?;
    put_family(Gauge::Informed, groups, out)
}
