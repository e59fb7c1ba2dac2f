//! How a journal is read.
use crate::file::{has_batch_behind, read_file, set_aside};
use crate::place::{JournalError, JournalPlace};
use crate::survey::Survey;
use cfdp_directives::Addressing;
use journal_records::{Owner, ReadError, read_journal};
use std::alloc::{AllocError, Global};

/// Why a journal can't be used.
#[derive(Drop)]
pub enum SurveyError {
    /// The file can't be had, or memory ran out.
    File(JournalError),
    /// It is the journal of this entity with this peer.
    OfOthers(u64, u64),
    /// It isn't what a station wrote. It was renamed, with `.damaged` after its name.
    Damaged,
}

impl From<JournalError> for SurveyError {
    fn from(error: JournalError) -> SurveyError {
        SurveyError::File(error)
    }
}

/// Returns what the journal at a place says, which must be of this station; `None` if there is no
/// journal.
///
/// # Errors
///
/// `File` if it can't be read; `OfOthers` if it is another station's; `Damaged` if a batch in it is
/// wrong that a crash didn't cut off.
pub fn read_survey<P: JournalPlace>(
    alloc: Global,
    place: &P,
    owner: Owner,
    addressing: Addressing,
) -> Result<Option<Survey>, SurveyError> {
    let Some(octets) = read_file(alloc, place)? else {
        return Ok(None);
    };
    let survey = match survey_of(alloc, octets.as_slice(), addressing) {
        Ok(survey) => survey,
        Err(ReadError::Memory) => return Err(SurveyError::File(JournalError::from(AllocError))),
        Err(ReadError::Fault(_)) => return Err(damaged(alloc, place)),
    };
    match survey.owner() {
        Some(found) if found.entity == owner.entity && found.peer == owner.peer => {
            Ok(Some(survey))
        }
        Some(found) => Err(SurveyError::OfOthers(found.entity, found.peer)),
        None => Err(damaged(alloc, place)),
    }
}

/// Puts together what the octets of a journal say.
fn survey_of(alloc: Global, octets: &[u8], addressing: Addressing) -> Result<Survey, ReadError> {
    let journal = read_journal(alloc, octets)?;
    if journal.end < octets.len() && has_batch_behind(&octets[journal.end..]) {
        return Err(ReadError::Fault(journal_records::BatchFault::Trailing));
    }
    Ok(Survey::of(alloc, addressing, journal.records)?)
}

/// Keeps a journal aside that can't be read.
fn damaged<P: JournalPlace>(alloc: Global, place: &P) -> SurveyError {
    match set_aside(alloc, place) {
        Ok(()) => SurveyError::Damaged,
        Err(error) => SurveyError::File(JournalError::System(error)),
    }
}
