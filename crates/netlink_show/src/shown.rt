//! Messages as lines and as objects.

use crate::manner::Manner;
use crate::message::{Shown, message_fields};
use serde_json::Value;
use std::alloc::AllocError;

/// Appends what `ip` says of a message, which is a line, and of a route by several paths another for
/// each, with their ends. Of a message that `Shown::check` refuses there may be less.
///
/// # Errors
/// `AllocError` where memory is refused; some of the text may stand then.
pub fn append_lines(
    manner: Manner,
    message: Shown<'_>,
    text: &mut String,
) -> Result<(), AllocError> {
    let line = message_fields(manner, message).line("", " ")?;
    text.push_str(line.as_str())?;
    text.push('\n')
}

/// Appends the object of a message as JSON, with the keys of `ip -j -d`, and the end of a line. Of a
/// message that `Shown::check` refuses there may be less.
///
/// # Errors
/// `AllocError` where memory is refused; some of the text may stand then.
pub fn append_object(
    manner: Manner,
    message: Shown<'_>,
    text: &mut String,
) -> Result<(), AllocError> {
    let members = message_fields(manner, message).into_members()?;
    let object = Value::from(members).to_string(manner.alloc)?;
    text.push_str(object.as_str())?;
    text.push('\n')
}
