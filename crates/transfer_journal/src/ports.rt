// A port, as what has a station.
use crate::restoring::Restorable;
use cfdp_extents::Extents;
use cfdp_port::{PeerWire, Port};
use cfdp_receiver::CommittedReceiver;
use cfdp_sender::CommittedSender;
use cfdp_station::RestoreError;
use cfdp_store::{ResumingInbox, SeekingOutbox, StoreError};

impl<O: SeekingOutbox, I: ResumingInbox, W: PeerWire> Restorable for Port<O, I, W> {
    fn look_for(&mut self, name: &[u8]) -> Result<bool, StoreError> {
        Port::look_for(self, name)
    }

    fn restore_forgotten(&mut self, source: u64, start: u64, end: u64) -> Result<(), RestoreError> {
        Port::restore_forgotten(self, source, start, end)
    }

    fn restore_sender(&mut self, kept: CommittedSender, sent: u64) -> Result<(), RestoreError> {
        Port::restore_sender(self, kept, sent)
    }

    fn restore_receiver(
        &mut self,
        kept: CommittedReceiver,
        held: Extents,
    ) -> Result<(), RestoreError> {
        Port::restore_receiver(self, kept, held)
    }
}
