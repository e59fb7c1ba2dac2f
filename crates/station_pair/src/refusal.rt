use cfdp_station::{PutError, RequestError};

/// Why an event of two stations is refused.
#[derive(Clone, Copy, Debug, PartialEq, Eq)]
pub enum Refusal {
    /// The station refused the put.
    Put(PutError),
    /// The station refused the call on a transaction.
    Call(RequestError),
    /// If one more frame of this lane were lost in a row, a frame count could not show that any was
    /// lost: so none may be.
    LossRunTooLong,
    /// The octets are no damaged frame of this lane: if its link has no error control, if they have
    /// another length, or if their check is right.
    NotDamaged,
}
