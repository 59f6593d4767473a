//! The functions that C calls.

ghost use Rattle.std.specs.Prelude.{◌≡◌};
ghost use Rattle.draw_ops.specs.RuleSets.{allowances_of, core_rules};
ghost use Rattle.buffer_calls.specs.CertifiedTerms.{terms_result};
ghost use Rattle.buffer_calls.specs.Checks.{EndsCheck};
ghost use Rattle.buffer_calls.specs.Fitted.{fitted_result};
ghost use Rattle.buffer_calls.specs.Plays.{EndsOver, EndsPlay, EndsRows};
ghost use Rattle.buffer_calls.specs.Prepares.{EndsPrepare};
ghost use Rattle.metaplay_c.specs.Answers.{Reports, ReportsName, ReportsPrepared, ReportsSides, ReportsTerms, rows_of};

use crate::answers::{
    Answer, CertificateTerms, DONE, SurfaceRows, SurfaceSides, answer_of, name_answer,
    plain_answer, rejected_answer, rows_of,
};
use buffer_calls::{
    check_bytes, copy_fault_name, fitted_for, over_into, play_into, play_rows_into, prepare_into,
    terms_of,
};
use draw_ops::{Allowances, Fault, Rules};
use preflight_cert::Refusal;
use proportions::Sides;
use std::alloc::Global;

/// Checks a certificate against a file.
#[unsafe(no_mangle)]
pub extern "C" fn metaplay_check(alloc: Global, file: &[u8], certificate: &[u8]) -> Answer
    ensures { Reports (EndsCheck file.now certificate.now) result }
{
    answer_of(check_bytes(alloc, file, certificate))
}

/// Prepares the certificate of a file under the core profile for surfaces of at most this size, in a buffer.
#[unsafe(no_mangle)]
pub extern "C" fn metaplay_prepare(
    alloc: Global,
    file: &[u8],
    width: u32,
    height: u32,
    out: &mut [u8],
) -> Answer
    ensures { Reports (EndsPrepare core_rules file.now width height out.old out.new) result }
{
    let bound = Sides { width, height };
    answer_of(prepare_into(alloc, Rules::CORE, file, bound, out))
}

/// The same under the print profile, with what a number allows.
#[unsafe(no_mangle)]
pub extern "C" fn metaplay_prepare_print(
    alloc: Global,
    file: &[u8],
    allowed: u32,
    width: u32,
    height: u32,
    out: &mut [u8],
) -> Answer
    ensures { ReportsPrepared (allowances_of allowed) file.now width height out.old out.new result }
{
    let Some(allowed) = Allowances::from_bits(allowed) else {
        return rejected_answer(Refusal::of_file(Fault::BadBound));
    };
    let sides = Sides { width, height };
    answer_of(prepare_into(alloc, Rules::print(allowed), file, sides, out))
}

/// Checks a certificate against a file, and plays the file into a buffer of samples.
#[unsafe(no_mangle)]
pub extern "C" fn metaplay_play(
    alloc: Global,
    file: &[u8],
    certificate: &[u8],
    width: u32,
    height: u32,
    out: &mut [u8],
) -> Answer
    ensures { Reports (EndsPlay file.now certificate.now width height out.old out.new) result }
{
    let surface = Sides { width, height };
    answer_of(play_into(alloc, file, certificate, surface, out))
}

/// Checks a certificate against a file, and plays some rows of the file into a buffer of samples.
#[unsafe(no_mangle)]
pub extern "C" fn metaplay_play_rows(
    alloc: Global,
    file: &[u8],
    certificate: &[u8],
    rows: &SurfaceRows,
    out: &mut [u8],
) -> Answer
    ensures { Reports (EndsRows file.now certificate.now (rows_of rows.now) out.old out.new) result }
{
    answer_of(play_rows_into(alloc, file, certificate, rows_of(rows), out))
}

/// Checks a certificate against a file, and plays the file over the image in a buffer of samples.
#[unsafe(no_mangle)]
pub extern "C" fn metaplay_over(
    alloc: Global,
    file: &[u8],
    certificate: &[u8],
    width: u32,
    height: u32,
    image: &mut [u8],
) -> Answer
    ensures { Reports (EndsOver file.now certificate.now width height image.old image.new) result }
{
    let surface = Sides { width, height };
    answer_of(over_into(alloc, file, certificate, surface, image))
}

/// The largest sides within a width and a height that are in the proportion of a file's frame.
#[unsafe(no_mangle)]
pub extern "C" fn metaplay_fitted_sides(
    file: &[u8],
    width: u32,
    height: u32,
    sides: &mut SurfaceSides,
) -> Answer
    ensures { ReportsSides (fitted_result file.now width height) sides.old sides.new result }
{
    match fitted_for(file, Sides { width, height }) {
        Ok(fitted) => {
            *sides = SurfaceSides {
                width: fitted.width,
                height: fitted.height,
            };
            plain_answer(DONE, 0)
        }
        Err(fault) => rejected_answer(Refusal::of_file(fault)),
    }
}

/// Reads what a certificate says of every play.
#[unsafe(no_mangle)]
pub extern "C" fn metaplay_certificate_terms(
    certificate: &[u8],
    terms: &mut CertificateTerms,
) -> Answer
    ensures { ReportsTerms (terms_result certificate.now) terms.old terms.new result }
{
    match terms_of(certificate) {
        Ok(read) => {
            *terms = CertificateTerms {
                writes: read.writes,
                max_width: read.max_width,
                max_height: read.max_height,
            };
            plain_answer(DONE, 0)
        }
        Err(fault) => rejected_answer(Refusal::of_file(fault)),
    }
}

/// Copies the name of the fault with this code to a buffer.
#[unsafe(no_mangle)]
pub extern "C" fn metaplay_fault_name(code: u32, out: &mut [u8]) -> Answer
    ensures { ReportsName code out.old out.new result }
{
    name_answer(copy_fault_name(code, out))
}
