//! What a station counted, as Prometheus reads it (its text format, version 0.0.4).
use crate::documents::way_word;
use crate::shown::{Dropped, Failed, NoteShown, OpenPhases, Status};
use std::alloc::AllocError;

/// A number that a station reports.
#[derive(Clone, Copy)]
struct Metric {
    name: &'static str,
    kind: &'static str,
    help: &'static str,
    value: u64,
}

/// A number that only grows.
fn counter(name: &'static str, help: &'static str, value: u64) -> Metric {
    Metric {
        name,
        kind: "counter",
        help,
        value,
    }
}

/// A number of now.
fn gauge(name: &'static str, help: &'static str, value: u64) -> Metric {
    Metric {
        name,
        kind: "gauge",
        help,
        value,
    }
}

/// Writes all numbers of a station.
///
/// # Errors
///
/// `AllocError` if there is no memory for them.
pub fn write_metrics(out: &mut String, status: &Status) -> Result<(), AllocError> {
    for it in link_metrics(status) {
        write_metric(out, it)?;
    }
    for it in file_metrics(status) {
        write_metric(out, it)?;
    }
    for it in pdu_metrics(status) {
        write_metric(out, it)?;
    }
    write_start(out, status)?;
    write_phases(out, status.phases)?;
    write_failed(out, status.failed.as_slice())?;
    write_notes(out, status.notes.as_slice())?;
    write_dropped(out, status.dropped.as_slice())
}

/// Writes which program it is, when it started, and for how long nothing came.
fn write_start(out: &mut String, status: &Status) -> Result<(), AllocError> {
    let version = status.version;
    writeln!(out, "# HELP cfdp_build_info 1; the label has the version.")?;
    writeln!(out, "# TYPE cfdp_build_info gauge")?;
    writeln!(out, "cfdp_build_info{{version=\"{version}\"}} 1")?;
    if status.time > 0 {
        write_metric(
            out,
            gauge(
                "process_start_time_seconds",
                "When the station started, in seconds since 1970.",
                (status.time / 1_000).saturating_sub(status.seconds),
            ),
        )?;
    }
    match status.link.silent {
        Some(silent) => write_metric(
            out,
            gauge(
                "cfdp_peer_silent_seconds",
                "Seconds since something was last received; absent before.",
                silent,
            ),
        ),
        None => Ok(()),
    }
}

fn write_phases(out: &mut String, phases: OpenPhases) -> Result<(), AllocError> {
    writeln!(
        out,
        "# HELP cfdp_open_transactions_by_phase Open transactions, by phase."
    )?;
    writeln!(out, "# TYPE cfdp_open_transactions_by_phase gauge")?;
    for (phase, count) in [
        ("sending", phases.sending),
        ("cancelling", phases.cancelling),
        ("receiving", phases.receiving),
        ("finishing", phases.finishing),
    ] {
        writeln!(
            out,
            "cfdp_open_transactions_by_phase{{phase=\"{phase}\"}} {count}"
        )?;
    }
    Ok(())
}

fn write_failed(out: &mut String, failed: &[Failed]) -> Result<(), AllocError> {
    writeln!(
        out,
        "# HELP cfdp_failed_transactions_total Failed transactions, by way and condition."
    )?;
    writeln!(out, "# TYPE cfdp_failed_transactions_total counter")?;
    for it in failed {
        let Failed {
            way,
            condition,
            count,
            ..
        } = *it;
        let way = way_word(way);
        writeln!(
            out,
            "cfdp_failed_transactions_total{{way=\"{way}\",condition=\"{condition}\"}} {count}"
        )?;
    }
    Ok(())
}

fn write_notes(out: &mut String, notes: &[NoteShown]) -> Result<(), AllocError> {
    writeln!(
        out,
        "# HELP cfdp_notes_total Notes and errors for the operator, by topic."
    )?;
    writeln!(out, "# TYPE cfdp_notes_total counter")?;
    for it in notes {
        let (topic, count) = (it.topic, it.count);
        let kind = if it.is_error { "error" } else { "note" };
        writeln!(
            out,
            "cfdp_notes_total{{kind=\"{kind}\",topic=\"{topic}\"}} {count}"
        )?;
    }
    Ok(())
}

fn write_metric(out: &mut String, it: Metric) -> Result<(), AllocError> {
    let Metric {
        name,
        kind,
        help,
        value,
    } = it;
    writeln!(out, "# HELP {name} {help}")?;
    writeln!(out, "# TYPE {name} {kind}")?;
    writeln!(out, "{name} {value}")
}

fn link_metrics(status: &Status) -> [Metric; 9] {
    let link = &status.link;
    [
        gauge(
            "cfdp_uptime_seconds",
            "Seconds since the station started.",
            status.seconds,
        ),
        gauge(
            "cfdp_link_frozen",
            "1 if the link is frozen.",
            u64::from(link.is_frozen),
        ),
        gauge(
            "cfdp_link_authenticated",
            "1 if frames are authenticated.",
            u64::from(link.is_authenticated),
        ),
        counter(
            "cfdp_sent_frames_total",
            "Datagrams sent.",
            link.frames.sent,
        ),
        counter(
            "cfdp_received_frames_total",
            "Datagrams received.",
            link.frames.received,
        ),
        counter(
            "cfdp_missing_frames_total",
            "Frames lost on the way here, by their counts.",
            link.frames.missing,
        ),
        counter(
            "cfdp_sent_frame_bytes_total",
            "Octets of the frames that left.",
            link.octets_sent,
        ),
        counter(
            "cfdp_received_frame_bytes_total",
            "Octets of the frames that were received.",
            link.octets_received,
        ),
        counter(
            "cfdp_thrown_away_frames_total",
            "Datagrams received while the link was frozen.",
            link.thrown_away,
        ),
    ]
}

fn file_metrics(status: &Status) -> [Metric; 9] {
    let it = status.counters;
    [
        gauge("cfdp_open_transactions", "Open transactions.", status.open),
        gauge(
            "cfdp_waiting_files",
            "Files that wait to be sent.",
            status.waiting,
        ),
        counter(
            "cfdp_sent_files_total",
            "Files that the peer has received.",
            it.files_sent,
        ),
        counter(
            "cfdp_sent_file_bytes_total",
            "Octets of the files that the peer has received.",
            it.octets_sent,
        ),
        counter(
            "cfdp_received_files_total",
            "Files received.",
            it.files_received,
        ),
        counter(
            "cfdp_received_file_bytes_total",
            "Octets of the files received.",
            it.octets_received,
        ),
        counter(
            "cfdp_failed_files_total",
            "Files of the peer that were not received whole.",
            it.files_failed,
        ),
        counter(
            "cfdp_failed_sends_total",
            "Transactions that ended before the peer had their file.",
            it.sends_failed,
        ),
        counter("cfdp_refused_puts_total", "Refused puts.", it.puts_refused),
    ]
}

fn pdu_metrics(status: &Status) -> [Metric; 4] {
    let it = status.counters;
    [
        counter("cfdp_sent_pdus_total", "PDUs sent.", it.pdus_sent),
        counter(
            "cfdp_sent_file_data_pdus_total",
            "File data PDUs sent for the first time.",
            it.file_data_sent,
        ),
        counter(
            "cfdp_resent_file_data_pdus_total",
            "File data PDUs sent again, as requested by a NAK.",
            it.file_data_sent_again,
        ),
        counter("cfdp_sent_nak_pdus_total", "NAKs sent.", it.naks_sent),
    ]
}

fn write_dropped(out: &mut String, dropped: &[Dropped]) -> Result<(), AllocError> {
    writeln!(
        out,
        "# HELP cfdp_dropped_total Dropped frames and PDUs, by cause."
    )?;
    writeln!(out, "# TYPE cfdp_dropped_total counter")?;
    for it in dropped {
        let Dropped {
            layer,
            cause,
            count,
            ..
        } = it;
        writeln!(
            out,
            "cfdp_dropped_total{{layer=\"{layer}\",cause=\"{cause}\"}} {count}"
        )?;
    }
    Ok(())
}
