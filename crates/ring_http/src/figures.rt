//! Metrics of what is known beside the table.
ghost use Rattle.std.specs.Prelude.{◌≡◌, ◌+◌, ◌%◌, ◌++◌, OnOk};
ghost use Rattle.ring_http.specs.Figures.{all_refusals, clients_text, count_of, counts_text, digit, figures_text, journal_text, limit_in, limits_text, now_in, ports_text, refusal_sample, refusals_text, seconds, six_digits, sync_time_text};

use crate::beside::{Figures, JournalFigures, Served};
use crate::samples::{put_given_labelled, put_given_single, put_heading, put_labelled, put_single};
use crate::text::{put, put_around};
use http_server::Rope;
use ring_id::Refusal;
use std::alloc::AllocError;

/// Appends the metrics of what is known beside the table. A figure that is not known has neither a
/// heading nor a sample. Fails only if an allocation fails.
pub(crate) fn put_figures(figures: &Figures, out: &mut Rope) -> Result<(), AllocError>
    ensures { OnOk result (out.new.items ≡ out.old.items ++ figures_text figures.now) }
{
    put_clients(figures, out)?;
    put_limits(figures, out)?;
    put_single(
        b"ringd_failed_accepts_total",
        b"Number of accepts on all ports that failed.",
        b"counter",
        figures.failed_accepts,
        out,
    )?;
    put_refusals(&figures.refusals, out)?;
    put_given_single(
        b"process_resident_memory_bytes",
        b"Resident memory size in bytes.",
        b"gauge",
        figures.resident,
        out,
    )?;
    put_journal(figures.journal, out)
}

// Appends how many clients of each port are served now.
fn put_clients(figures: &Figures, out: &mut Rope) -> Result<(), AllocError>
    ensures { OnOk result (out.new.items ≡ out.old.items ++ clients_text figures.now) }
{
    let (name, help) = (
        b"ringd_clients",
        b"Number of connections of this port that are served now.",
    );
    put_heading(name, help, b"gauge", out)?;
    put_ports(
        name,
        figures.sessions.now,
        now_in(figures.campaigns),
        figures.viewers.now,
        out,
    )
}

// Appends how many clients of each port are served at most.
fn put_limits(figures: &Figures, out: &mut Rope) -> Result<(), AllocError>
    ensures { OnOk result (out.new.items ≡ out.old.items ++ limits_text figures.now) }
{
    let (name, help) = (
        b"ringd_clients_limit",
        b"Most connections of this port that are served at a time.",
    );
    put_heading(name, help, b"gauge", out)?;
    put_ports(
        name,
        figures.sessions.limit,
        limit_in(figures.campaigns),
        figures.viewers.limit,
        out,
    )
}

// Appends a sample for each port. There is none for campaigns if they are not served.
fn put_ports(
    name: &[u8],
    sessions: u64,
    campaigns: Option<u64>,
    viewers: u64,
    out: &mut Rope,
) -> Result<(), AllocError>
    ensures { OnOk result
        (out.new.items ≡ out.old.items ++ ports_text name.now sessions campaigns viewers) }
{
    put_labelled(name, b"{port=\"", b"sessions", sessions, out)?;
    put_given_labelled(name, b"{port=\"", b"campaigns", campaigns, out)?;
    put_labelled(name, b"{port=\"", b"http", viewers, out)
}

// The clients that are served now, if any are served.
fn now_in(served: Option<Served>) -> Option<u64>
    ensures { result ≡ now_in served }
{
    match served {
        Some(served) => Some(served.now),
        None => None,
    }
}

// The clients that are served at most, if any are served.
fn limit_in(served: Option<Served>) -> Option<u64>
    ensures { result ≡ limit_in served }
{
    match served {
        Some(served) => Some(served.limit),
        None => None,
    }
}

// Appends how many answers were each refusal, given their counts by its number.
fn put_refusals(counts: &[u64; 14], out: &mut Rope) -> Result<(), AllocError>
    ensures { OnOk result (out.new.items ≡ out.old.items ++ refusals_text counts.now) }
{
    put_heading(
        b"ringd_refusals_total",
        b"Number of lines and questions on all ports that were refused with this word.",
        b"counter",
        out,
    )?;
    put_counts(&all_refusals(), counts, out)
}

// Appends how many answers were each of these refusals.
fn put_counts(refusals: &[Refusal], counts: &[u64; 14], out: &mut Rope) -> Result<(), AllocError>
    ensures { OnOk result
        (out.new.items ≡ out.old.items ++ counts_text counts.now refusals.now) }
{
    for refusal in refusals {
        put_refusal_count(refusal, counts, out)?;
    }
    Ok(())
}

// Appends how many answers were this refusal.
fn put_refusal_count(
    refusal: &Refusal,
    counts: &[u64; 14],
    out: &mut Rope,
) -> Result<(), AllocError>
    ensures { OnOk result
        (out.new.items ≡ out.old.items ++ refusal_sample counts.now refusal.now) }
{
    let count = count_of(*refusal, counts);
    let name = b"ringd_refusals_total";
    put_labelled(name, b"{refusal=\"", refusal.word(), count, out)
}

// All refusals by their numbers.
fn all_refusals() -> [Refusal; 14]
    ensures { result ≡ all_refusals }
{
    [
        Refusal::BadLine,
        Refusal::NoGroup,
        Refusal::Exists,
        Refusal::GroupLimit,
        Refusal::Member,
        Refusal::NotMember,
        Refusal::RingFull,
        Refusal::Empty,
        Refusal::TermLimit,
        Refusal::NoTerm,
        Refusal::NotInTerm,
        Refusal::OneWay,
        Refusal::NoMemory,
        Refusal::SeatSpent,
    ]
}

// The count of a refusal by its number.
fn count_of(refusal: Refusal, counts: &[u64; 14]) -> u64
    ensures { result ≡ count_of refusal counts.now }
{
    counts[usize::from(refusal.number() - 1)]
}

// Appends how a journal is, if there is one.
fn put_journal(journal: Option<JournalFigures>, out: &mut Rope) -> Result<(), AllocError>
    ensures { OnOk result (out.new.items ≡ out.old.items ++ journal_text journal) }
{
    let Some(journal) = journal else {
        return Ok(());
    };
    put_single(
        b"ringd_journal_bytes",
        b"Size of the text of the journal in bytes.",
        b"gauge",
        journal.bytes,
        out,
    )?;
    put_single(
        b"ringd_journal_syncs_total",
        b"Number of syncs of the journal that succeeded.",
        b"counter",
        journal.syncs,
        out,
    )?;
    put_sync_time(journal.micros, out)
}

// Appends how long the syncs of a journal took, given their microseconds.
fn put_sync_time(micros: u64, out: &mut Rope) -> Result<(), AllocError>
    ensures { OnOk result (out.new.items ≡ out.old.items ++ sync_time_text micros) }
{
    let name = b"ringd_journal_sync_seconds_total";
    put_heading(
        name,
        b"Seconds in syncs of the journal that succeeded.",
        b"counter",
        out,
    )?;
    put(name, out)?;
    put(b" ", out)?;
    put_seconds(micros, out)?;
    put(b"\n", out)
}

// Appends microseconds as seconds with six decimals.
fn put_seconds(micros: u64, out: &mut Rope) -> Result<(), AllocError>
    ensures { OnOk result (out.new.items ≡ out.old.items ++ seconds micros) }
{
    put_around(b"", micros / 1_000_000, b".", out)?;
    put(&six_digits(micros), out)
}

// The last six digits of a number in decimal.
fn six_digits(number: u64) -> [u8; 6]
    ensures { result ≡ six_digits number }
{
    [
        digit(number / 100_000),
        digit(number / 10_000),
        digit(number / 1_000),
        digit(number / 100),
        digit(number / 10),
        digit(number),
    ]
}

// The last digit of a number in decimal.
fn digit(number: u64) -> u8
    ensures { result ≡ digit number }
{
    b'0' + (number % 10) as u8
}
