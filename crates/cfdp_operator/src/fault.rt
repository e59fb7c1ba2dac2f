//! Why a file was refused, in the words of an operator.
use cfdp_report::cause_text;
use cfdp_store::FolderError;
use std::io::ErrorKind;

/// Returns why a file of a folder can't be read or written, as it is reported to an operator.
pub fn fault_text(fault: FolderError) -> &'static str {
    match fault {
        FolderError::Name => "a file cannot have that name here",
        FolderError::Link => "is a symbolic link",
        FolderError::Folder => "is a folder",
        FolderError::NoFile => "not a plain file",
        FolderError::Changed => "the file changed while it was sent",
        FolderError::System(ErrorKind::StaleNetworkFileHandle) => {
            "its part file was removed or replaced"
        }
        FolderError::System(kind) => cause_text(kind),
    }
}
