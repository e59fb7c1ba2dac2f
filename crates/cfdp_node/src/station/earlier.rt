//! The captures and charts of a station's earlier runs, which a later run doesn't replace.
use std::fs;
use std::io::ErrorKind;

/// The most files of earlier runs.
const MOST_EARLIER: u32 = 999;

/// Renames what an earlier run wrote to `path`, to the first of `path.1` to `path.999` that is
/// free. If none is free, or the system refuses, the file stays, and this run replaces it.
pub fn keep_earlier(rt: &HostRuntime, path: &str) {
    let Ok(found) = fs::symlink_metadata(rt, path) else {
        return;
    };
    if !found.is_file() || found.len() == 0 {
        return;
    }
    for number in 1..=MOST_EARLIER {
        let Ok(other) = format!(in rt.alloc(); "{path}.{number}") else {
            return;
        };
        if is_free(rt, other.as_str()) {
            let _ = fs::rename(rt, path, other.as_str());
            return;
        }
    }
}

/// Returns `true` if nothing has this path.
fn is_free(rt: &HostRuntime, path: &str) -> bool {
    match fs::symlink_metadata(rt, path) {
        Ok(_) => false,
        Err(error) => error.kind() == ErrorKind::NotFound,
    }
}
