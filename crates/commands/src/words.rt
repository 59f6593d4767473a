//! Reads the words of the command line.

use clap::error::ErrorKind;
use command_lines::{Asked, line};
use std::alloc::{AllocError, Global};
use std::env::FillError;
use std::rt::Env;

/// A word is first read with this many bytes, as a power of two.
const LEAST_POWER: u32 = 8;

/// The power of two of the most bytes of a word. Linux has at most 2^17 in one.
const MOST_POWER: u32 = 30;

/// The words of a command line.
#[derive(Drop)]
pub(crate) struct Words {
    /// The words, the program's name first. One that isn't UTF-8 has U+FFFD for each wrong byte, and a NUL at its end as
    /// a mark, since no word of a command line has one.
    pub(crate) words: Vec<String>,
    /// How many words have the mark.
    pub(crate) marked: usize,
}

/// Reads the words of the command line.
pub(crate) fn read_words<R: Env + AllocGlobal>(rt: &R) -> Result<Words, AllocError> {
    let mut words = Vec::new(rt.alloc());
    let mut marked = 0usize;
    for place in 0..usize::MAX {
        let Some(bytes) = read_word(rt, place)? else {
            break;
        };
        match String::from_utf8(bytes) {
            Ok(word) => words.push(word)?,
            Err(wrong) => {
                words.push(with_mark(rt.alloc(), wrong.as_bytes())?)?;
                marked = marked.saturating_add(1);
            }
        }
    }
    Ok(Words { words, marked })
}

/// Whether all words with the mark are names of a task on several files. No other word may have it.
pub(crate) fn has_right_marks(
    alloc: Global,
    words: &[String],
    marked: usize,
) -> Result<bool, AllocError> {
    if marked == 0 {
        return Ok(true);
    }
    match line(alloc, words) {
        Ok(Asked::Batch { names, .. }) => {
            let names = names.iter().filter(|name| name.ends_with('\0'));
            Ok(names.count() == marked)
        }
        Ok(_) => Ok(false),
        Err(error) if error.kind() == ErrorKind::OutOfMemory => Err(AllocError),
        Err(_) => Ok(false),
    }
}

/// Reads the word at a place, if there is one.
fn read_word<R: Env + AllocGlobal>(rt: &R, place: usize) -> Result<Option<Vec<u8>>, AllocError> {
    let mut bytes = Vec::new(rt.alloc());
    for power in LEAST_POWER..=MOST_POWER {
        bytes.resize(1 << power, 0)?;
        match rt.arg(place, &mut bytes) {
            Ok(length) => {
                bytes.truncate(length);
                return Ok(Some(bytes));
            }
            Err(FillError::NotPresent) => return Ok(None),
            Err(FillError::TooLong) => {}
        }
    }
    Err(AllocError)
}

/// These bytes as text, with U+FFFD for each wrong byte, and the mark.
fn with_mark(alloc: Global, bytes: &[u8]) -> Result<String, AllocError> {
    let mut word = String::new(alloc);
    for chunk in bytes.utf8_chunks() {
        word.push_str(chunk.valid())?;
        push_replacements(&mut word, chunk.invalid().len())?;
    }
    word.push('\0')?;
    Ok(word)
}

/// Appends U+FFFD so many times.
fn push_replacements(word: &mut String, count: usize) -> Result<(), AllocError> {
    for _ in 0..count {
        word.push('\u{FFFD}')?;
    }
    Ok(())
}
