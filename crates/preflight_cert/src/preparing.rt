//! Preparing the certificate of a file.

ghost use Rattle.std.specs.Prelude.{◌≡◌, ◌<◌, ◌^◌, ◌⊎◌, IfErr, IfOk, IfSome, false};
ghost use Rattle.draw_ops.specs.RuleSets.{core_rules, in_force};
ghost use Rattle.draw_ops.specs.declared.fault.Fault.TheVariants.{BadBound};
ghost use Rattle.mapping.specs.Limits.{IsSurfaceSide};
ghost use Rattle.preflight_cert.specs.Answer.{IsAnswer, accepted};
ghost use Rattle.preflight_cert.specs.CertificateReading.{rules_in};
ghost use Rattle.preflight_cert.specs.OpenedRecords.{AnswersBytesOf, CountsRecordsOf, PreparesRecordsOf, StopsRecordsOf};
ghost use Rattle.preflight_cert.specs.Preparation.{IsForBound, Prepares, StopsPreparing, is_bound};
ghost use Rattle.preflight_cert.specs.Reached.{OpensAt};
ghost use Rattle.preflight_cert.specs.Refusal.{IsWantOfMemory, ReportsNumber};

use crate::draft::Draft;
use crate::entry_check::Totals;
use crate::entry_gathering::gather;
use crate::laws::{answer_law, need_law, preparation_law, text_law};
use crate::prepared::Prepared;
use crate::refusal::Refusal;
use crate::writing::Head;
use dc_stack::Machine;
use draw_ops::{Fault, Notes, Rules, content_law};
use mapping::{Place, box_law};
use meta_headers::Opened;
use object_tables::FileTable;
use span_fill::OutOfMemory;
use std::alloc::Global;

/// Prepares the certificate of a file for surfaces of at most this size under the core rules, as `prepare_by` does.
pub fn prepare(
    alloc: Global,
    file: &[u8],
    max_width: u32,
    max_height: u32,
) -> Result<Vec<u8>, Refusal>
    ensures text { IfOk result (λ text. Prepares core_rules file.now max_width max_height text.items) }
    ensures accepted { IfOk result (λ text. IsAnswer file.now text.items accepted) }
    ensures refusal { IfErr result (λ r. StopsPreparing core_rules file.now max_width max_height r ⊎ IsWantOfMemory r) }
    ensures bound { IfErr result (λ r. is_bound max_width max_height ≡ false → r.fault ≡ BadBound) }
    ensures memory { IfErr result (λ r. r.fault ≡ Fault.OutOfMemory → OpensAt file.now max_width max_height) }
    ensures number_reported { IfErr result ReportsNumber }
{
    prepare_by(alloc, Rules::CORE, file, max_width, max_height)
}

/// Prepares the certificate of a file under these rules, for surfaces of at most this size: the bounding box and the nib
/// of each drawing, the most pixels that a run writes with these, and its needs. `check` accepts it.
///
/// Under the print profile it is an `MPC3`, which says what is allowed. Under the core profile it is an `MPC1` if each nib
/// is one pixel, otherwise an `MPC2`.
///
/// Fails with `BadBound` if the width or height isn't from 1 to 8,192, or else with the first fault of the file's run
/// at the bound. Memory is allocated only after the file was opened.
pub fn prepare_by(
    alloc: Global,
    rules: Rules,
    file: &[u8],
    max_width: u32,
    max_height: u32,
) -> Result<Vec<u8>, Refusal>
    ensures text { IfOk result (λ text. Prepares rules file.now max_width max_height text.items) }
    ensures accepted { IfOk result (λ text. IsAnswer file.now text.items accepted) }
    ensures rules { IfOk result (λ text. rules_in text.items ≡ in_force rules) }
    ensures refusal { IfErr result (λ r. StopsPreparing rules file.now max_width max_height r ⊎ IsWantOfMemory r) }
    ensures bound { IfErr result (λ r. is_bound max_width max_height ≡ false → r.fault ≡ BadBound) }
    ensures memory { IfErr result (λ r. r.fault ≡ Fault.OutOfMemory → OpensAt file.now max_width max_height) }
    ensures number_reported { IfErr result ReportsNumber }
{
    match Prepared::new(alloc, rules, file, max_width, max_height) {
        Ok(prepared) => {
            let Prepared { text, .. } = prepared;
            Ok(text)
        }
        Err(refusal) => Err(refusal),
    }
}

/// The same for an opened file and a valid bound, with the totals of its records.
pub(crate) fn prepare_opened(
    alloc: Global,
    opened: Opened<'_>,
    max_width: u32,
    max_height: u32,
) -> Result<(Vec<u8>, Totals), Refusal>
    requires wide { IsSurfaceSide max_width }
    requires high { IsSurfaceSide max_height }
    ensures text { IfOk result (λ made. PreparesRecordsOf opened.entry max_width max_height made.0.items) }
    ensures accepted { IfOk result (λ made. AnswersBytesOf opened.entry made.0.items accepted) }
    ensures rules { IfOk result (λ made. rules_in made.0.items ≡ in_force opened.entry.rules) }
    ensures sides { IfOk result (λ made. IsForBound max_width max_height made.0.items) }
    ensures counts { IfOk result (λ made. CountsRecordsOf opened.entry made.1.records made.1.notes.counts made.1.uses) }
    ensures refusal { IfErr result (λ r. StopsRecordsOf opened.entry max_width max_height r ⊎ IsWantOfMemory r) }
    ensures number_reported { IfErr result ReportsNumber }
{
    answer_law();
    box_law();
    content_law();
    handles_law(opened.handles);
    need_law();
    preparation_law();
    text_law();
    let place = Place::new(&opened.fine_frame, max_width, max_height);
    let table = FileTable::new(alloc, opened.handles);
    let mut machine = Machine::new(alloc, &opened, place, table);
    let Ok(mut draft) = Draft::new(alloc, opened.rules) else {
        return Err(Refusal::of_file(Fault::OutOfMemory));
    };
    let noted = Notes::of(opened.notes);
    let totals = match gather(
        &mut opened.source(),
        &mut machine,
        noted,
        opened.rules,
        &mut draft,
    ) {
        Ok(totals) => totals,
        Err(refusal) => return Err(refusal),
    };
    let head = Head {
        max_width,
        max_height,
        writes: totals.writes,
        needs: machine.needs(),
    };
    match draft.finish(alloc, opened.rules, head) {
        Ok(text) => Ok((text, totals)),
        Err(OutOfMemory) => Err(Refusal::of_file(Fault::OutOfMemory)),
    }
}

/// A file's handle count, if it has one, has 16 bits.
fn handles_law(handles: Option<u16>)
    ensures { IfSome handles (λ n. n < 2 ^ 16) }
{}
