//! The memory for playing a file, allocated before the first pixel is drawn.

ghost use Rattle.std.specs.Prelude.{◌≡◌, ◌≤◌, IfErr, IfOk};
ghost use Rattle.player.specs.Bounds.{IsPlayFault, IsWithinBound, ReportsTooLarge};
ghost use Rattle.player.specs.Ready.{IsAtStart, IsReadyToPlay, surface_of_file};

use dc_stack::Machine;
use draw_ops::Fault;
use mapping::Place;
use object_tables::FileTable;
use painting::DrawingScratch;
use preflight_cert::Cleared;
use span_fill::OutOfMemory;
use std::alloc::Global;

/// A machine and memory for drawings, enough for the needs of a cleared file.
#[derive(Drop)]
pub(crate) struct PlayScratch<'a> {
    pub machine: Machine<'a, FileTable<'a>>,
    pub drawings: DrawingScratch,
}

/// Allocates the memory for playing a cleared file from its start on a surface of this size. Returns `SurfaceTooLarge`
/// exactly if the surface exceeds the certificate's bound, and `OutOfMemory` if an allocation fails.
pub(crate) fn play_scratch<'a>(
    alloc: Global,
    cleared: &Cleared<'a>,
    width: u32,
    height: u32,
) -> Result<PlayScratch<'a>, Fault>
    requires wide { 1 ≤ width }
    requires high { 1 ≤ height }
    ensures ready { IfOk result (λ scratch. IsReadyToPlay cleared.now scratch.drawings.rows.capacity scratch.machine) }
    ensures start { IfOk result (λ scratch. IsAtStart cleared.now scratch.machine) }
    ensures surface { IfOk result (λ scratch. scratch.machine.surface ≡ surface_of_file cleared.now width height) }
    ensures too_large { ReportsTooLarge result width height cleared.now.certificate }
    ensures refusal { IfErr result IsPlayFault }
{
    let certificate = &cleared.certificate;
    if certificate.max_width < width || certificate.max_height < height {
        return Err(Fault::SurfaceTooLarge);
    }
    match capacity_within(alloc, cleared, width, height) {
        Ok(scratch) => Ok(scratch),
        Err(OutOfMemory) => Err(Fault::OutOfMemory),
    }
}

/// The same for a surface within the certificate's bound.
fn capacity_within<'a>(
    alloc: Global,
    cleared: &Cleared<'a>,
    width: u32,
    height: u32,
) -> Result<PlayScratch<'a>, OutOfMemory>
    requires wide { 1 ≤ width }
    requires high { 1 ≤ height }
    requires within { IsWithinBound cleared.now.certificate width height }
    ensures ready { IfOk result (λ scratch. IsReadyToPlay cleared.now scratch.drawings.rows.capacity scratch.machine) }
    ensures start { IfOk result (λ scratch. IsAtStart cleared.now scratch.machine) }
    ensures surface { IfOk result (λ scratch. scratch.machine.surface ≡ surface_of_file cleared.now width height) }
{
    let opened = &cleared.opened;
    let needs = cleared.certificate.needs;
    let place = Place::new(&opened.fine_frame, width, height);
    let table = FileTable::new(alloc, opened.handles);
    let mut machine = Machine::new(alloc, opened, place, table);
    let Ok(()) = machine.reserve(
        needs.depth as usize,
        needs.slots as usize,
        needs.pieces as usize,
    ) else {
        return Err(OutOfMemory);
    };
    let has_wide_pens = cleared.certificate.has_wide_nib();
    let Ok(drawings) = DrawingScratch::for_lines(alloc, needs.edges, has_wide_pens) else {
        return Err(OutOfMemory);
    };
    Ok(PlayScratch { machine, drawings })
}
