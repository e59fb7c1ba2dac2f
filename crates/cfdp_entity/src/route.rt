use crate::error::EntityDrop;
use crate::stray::Stray;

/// What becomes of a PDU that was heard.
#[derive(Drop)]
pub(crate) enum Route {
    /// It is dropped.
    Drops(EntityDrop),
    /// It is for the record at this index.
    Steps(usize),
    /// It opens a record.
    Opens,
    /// It is answered, and no record is opened.
    Queues(Stray),
    /// It is passed over: its transaction is over, and it needs no answer.
    Passes,
}
