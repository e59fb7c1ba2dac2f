// How a file is opened, in the C library's words.
use std::fs::OpenOptions;

/// Returns the flags of `open` for options that go together.
pub(crate) fn flags_of(how: &OpenOptions) -> i32 {
    access_of(how) | creation_of(how)
}

fn access_of(how: &OpenOptions) -> i32 {
    let writes = how.asks_write() || how.asks_append();
    let access = match (how.asks_read(), writes) {
        (true, true) => libc::O_RDWR,
        (false, true) => libc::O_WRONLY,
        (_, false) => libc::O_RDONLY,
    };
    if how.asks_append() {
        access | libc::O_APPEND
    } else {
        access
    }
}

fn creation_of(how: &OpenOptions) -> i32 {
    if how.asks_create_new() {
        return libc::O_CREAT | libc::O_EXCL;
    }
    let create = if how.asks_create() { libc::O_CREAT } else { 0 };
    let truncate = if how.asks_truncate() {
        libc::O_TRUNC
    } else {
        0
    };
    create | truncate
}
