//! Metrics of each group.
ghost use Rattle.std.specs.Prelude.{◌≡◌, ◌++◌, OnOk};
ghost use Rattle.ring_http.specs.Gauges.{family_text, help_of, leader_number, name_of, sample_text, value_of};

use crate::picture::GroupPicture;
use crate::samples::{put_given_labelled, put_heading};
use http_server::Rope;
use ring_id::NodeId;
use std::alloc::AllocError;

/// A metric of each group.
#[derive(Clone, Copy)]
pub enum Gauge {
    /// The number of its members.
    Members,
    /// The number of its last term, or 0.
    Term,
    /// The number of the leader of its last term, if it is known.
    Leader,
    /// The number of the members that know this leader.
    Informed,
}

/// Appends a metric: its heading, and a sample for each group that has a value.
pub(crate) fn put_family(
    gauge: Gauge,
    groups: &[GroupPicture],
    out: &mut Rope,
) -> Result<(), AllocError>
    ensures { OnOk result (out.new.items ≡ out.old.items ++ family_text gauge groups.now) }
{
    put_heading(name(gauge), help(gauge), b"gauge", out)?;
    for group in groups {
        put_sample(gauge, group, out)?;
    }
    Ok(())
}

// Appends a group's sample of a metric, if there is a value.
fn put_sample(gauge: Gauge, group: &GroupPicture, out: &mut Rope) -> Result<(), AllocError>
    ensures { OnOk result (out.new.items ≡ out.old.items ++ sample_text gauge group.now) }
{
    let value = value_of(gauge, group);
    put_given_labelled(name(gauge), b"{group=\"", group.name.bytes(), value, out)
}

// The value of a metric for a group, if there is one.
fn value_of(gauge: Gauge, group: &GroupPicture) -> Option<u64>
    ensures { result ≡ value_of gauge group.now }
{
    match gauge {
        Gauge::Members => Some(group.members.as_slice().len() as u64),
        Gauge::Term => Some(group.leaders.as_slice().len() as u64),
        Gauge::Leader => leader_of(group.leaders.as_slice()),
        Gauge::Informed => Some(group.informed.len() as u64),
    }
}

// The number of the last leader, if it is known.
fn leader_of(leaders: &[Option<NodeId>]) -> Option<u64>
    ensures { result ≡ leader_number leaders.now }
{
    match leaders.last() {
        Some(last) => match last {
            Some(leader) => Some(u64::from(leader.get())),
            None => None,
        },
        None => None,
    }
}

// The name of a metric.
fn name(gauge: Gauge) -> &'static [u8]
    ensures { result.now ≡ name_of gauge }
{
    match gauge {
        Gauge::Members => b"ringd_members",
        Gauge::Term => b"ringd_term",
        Gauge::Leader => b"ringd_leader",
        Gauge::Informed => b"ringd_informed",
    }
}

// The meaning of a metric.
fn help(gauge: Gauge) -> &'static [u8]
    ensures { result.now ≡ help_of gauge }
{
    match gauge {
        Gauge::Members => b"Number of present members of the group.",
        Gauge::Term => b"Number of the last term of the group, or 0 before its first term.",
        Gauge::Leader => b"Number of the leader of the last term, which may have left the group.",
        Gauge::Informed => b"Number of present members that know the leader of the last term.",
    }
}
