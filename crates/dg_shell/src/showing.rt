//! Words of the operator as they are shown.
use dg_messages::shown;
use std::alloc::AllocError;

/// A word as it is shown.
pub(crate) fn shown_word(rt: &HostRuntime, word: &str) -> Result<String, AllocError> {
    let text = shown(rt.alloc(), word)?;
    String::from_str(rt.alloc(), str::from_utf8(&text).unwrap_or(""))
}
