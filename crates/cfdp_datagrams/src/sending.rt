//! Sending a datagram though the network reports errors of earlier ones.
ghost use Rattle.cfdp_datagrams.specs.Paced.{Tries};

use crate::reports::{MOST_REPORTS, Reports, is_report};
use crate::transport::Transport;
use std::io::ErrorKind;

/// Sends a datagram, and sends it again each time that the network reports an error of an earlier
/// one, unless too many were reported in a row. Returns the transport's last answer. The reports
/// are counted.
pub fn send_past_reports<T: Transport>(
    transport: &mut T,
    datagram: &[u8],
    reports: &mut Reports,
) -> Result<(), ErrorKind>
    ensures { Tries T.steps datagram.now result transport.old transport.new }
{
    for _report in 1..MOST_REPORTS {
        match transport.send(datagram) {
            Err(kind) if is_report(kind) && reports.may_pass(kind) => {}
            answer => return answer,
        }
    }
    transport.send(datagram)
}
