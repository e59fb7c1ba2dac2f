//! What a user of an entity sees and sets: names, indications, phases, limits and handlers.
pub(crate) mod file_name;
pub(crate) mod handler;
pub(crate) mod indication;
pub(crate) mod limits;
pub(crate) mod phase;
pub(crate) mod policy;
pub(crate) mod telling;
