//! Answers requests for information about a file.

use draw_ops::Rules;
use file_info::{file_info, info_text};
use std::alloc::Global;
use std::io::{self, Write};

/// Writes the length of a file's line, and the line. The file's name is given as bytes.
pub(crate) fn answer_info<W: Write>(
    alloc: Global,
    rules: Rules,
    name: &[u8],
    file: &[u8],
    out: &mut W,
) -> io::Result<()> {
    let Ok(name) = str::from_utf8(name) else {
        return writeln!(out, "no name");
    };
    let Ok(info) = file_info(alloc, rules, file) else {
        return writeln!(out, "OutOfMemory");
    };
    match info_text(alloc, name, &info) {
        Ok(text) => {
            let count = text.len();
            writeln!(out, "informed {count}")?;
            out.write_all(&text)
        }
        Err(_) => writeln!(out, "OutOfMemory"),
    }
}
