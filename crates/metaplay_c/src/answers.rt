//! Answers in the form that C has: structs of numbers.

ghost use Rattle.std.specs.Prelude.{◌≡◌};
ghost use Rattle.metaplay_c.specs.Answers.{answer_of, name_answer, plain_answer, rejected_answer, rows_of};

use buffer_calls::{Outcome, PlacedRows};
use player::RowLayout;
use preflight_cert::Refusal;
use proportions::Sides;

/// The call is done.
pub(crate) const DONE: u32 = 0;

/// The file, the certificate or the size was rejected.
const REJECTED: u32 = 1;

/// The buffer is too short.
const TOO_SHORT: u32 = 2;

/// An allocation failed.
const OUT_OF_MEMORY: u32 = 3;

/// No fault has the code.
const NO_SUCH_FAULT: u32 = 4;

/// How a call ended. Numbers that the outcome doesn't have are 0.
#[repr(C)]
#[derive(Clone, Copy, Debug, PartialEq, Eq)]
pub struct Answer {
    /// One of the five outcomes, by its number in the header.
    pub outcome: u32,
    /// The code of the fault, for a rejection.
    pub fault: u32,
    /// The number of the record that the fault lies in, from 0, if `has_record_number`.
    pub record_number: u32,
    /// The kind of record that the fault refers to, a function or a type, if `has_record_kind`.
    pub record_kind: u32,
    pub has_record_number: bool,
    pub has_record_kind: bool,
    /// The number of bytes that were written, or that the buffer must have.
    pub length: usize,
}

/// The width and the height of a surface in pixels.
#[repr(C)]
#[derive(Clone, Copy, Debug, PartialEq, Eq)]
pub struct SurfaceSides {
    pub width: u32,
    pub height: u32,
}

/// Some rows of a surface of `width` by `height` pixels: `count` rows from row `first` on. In the buffer, each begins
/// `stride` bytes after the row above.
#[repr(C)]
#[derive(Clone, Copy, Debug, PartialEq, Eq)]
pub struct SurfaceRows {
    pub width: u32,
    pub height: u32,
    pub first: u32,
    pub count: u32,
    pub stride: u32,
}

/// What a certificate says of every play: the most pixels that it writes, and the bound in pixels.
#[repr(C)]
#[derive(Clone, Copy, Debug, PartialEq, Eq)]
pub struct CertificateTerms {
    pub writes: u64,
    pub max_width: u32,
    pub max_height: u32,
}

/// The answer for an outcome.
pub(crate) fn answer_of(outcome: Outcome) -> Answer
    ensures { result ≡ answer_of outcome }
{
    match outcome {
        Outcome::Done(count) => plain_answer(DONE, count),
        Outcome::TooShort(count) => plain_answer(TOO_SHORT, count),
        Outcome::Rejected(refusal) => rejected_answer(refusal),
        Outcome::OutOfMemory => plain_answer(OUT_OF_MEMORY, 0),
    }
}

/// The answer for the outcome of copying a fault's name, if there is such a fault.
pub(crate) fn name_answer(found: Option<Outcome>) -> Answer
    ensures { result ≡ name_answer found }
{
    match found {
        Some(outcome) => answer_of(outcome),
        None => plain_answer(NO_SUCH_FAULT, 0),
    }
}

/// An answer without a fault.
pub(crate) fn plain_answer(outcome: u32, length: usize) -> Answer
    ensures { result ≡ plain_answer outcome length }
{
    Answer {
        outcome,
        fault: 0,
        record_number: 0,
        record_kind: 0,
        has_record_number: false,
        has_record_kind: false,
        length,
    }
}

/// The answer for a rejection.
pub(crate) fn rejected_answer(refusal: Refusal) -> Answer
    ensures { result ≡ rejected_answer refusal }
{
    let (number, kind) = (refusal.number, refusal.fault.number());
    Answer {
        outcome: REJECTED,
        fault: u32::from(refusal.fault.code()),
        record_number: number.unwrap_or(0),
        record_kind: kind.unwrap_or(0),
        has_record_number: number.is_some(),
        has_record_kind: kind.is_some(),
        length: 0,
    }
}

/// The rows, as the calls below have them.
pub(crate) fn rows_of(rows: &SurfaceRows) -> PlacedRows
    ensures { result ≡ rows_of rows.now }
{
    PlacedRows {
        surface: Sides {
            width: rows.width,
            height: rows.height,
        },
        layout: RowLayout {
            first: rows.first,
            count: rows.count,
            stride: rows.stride,
        },
    }
}
