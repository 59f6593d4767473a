//! What a machine that plays on a small surface reveals about a larger one.

ghost use Rattle.std.specs.Prelude.{◌≡◌, List, Some};
ghost use Rattle.std.specs.Option.{option_map};
ghost use Rattle.mapping.specs.PlaceOf.{surface_of};
ghost use Rattle.mapping.specs.declared.geometry.Point.{Point};
ghost use Rattle.draw_ops.specs.OperationOf.{operation_of};
ghost use Rattle.draw_ops.specs.declared.record_fault.RecordFault.TheVariants.{NibTooWide};
ghost use Rattle.dc_stack.specs.Drawing.{drawing_nib};
ghost use Rattle.dc_stack.specs.Extents.{IsExtent};
ghost use Rattle.dc_stack.specs.MachineState.{GoesOn, HasFullCapacity, drawing_with};
ghost use Rattle.dc_stack.specs.OperationFault.{fault_of, nib_fault, off_plane_fault, wide_fault};
ghost use Rattle.listing.specs.DryRunState.{IsFaultMet, IsLanded, IsPlaceFault, IsRunning, is_painting, without_pen};

use dc_stack::{Draw, Machine, fault_law, fits};
use draw_ops::{Handle, Op, RecordFault};
use mapping::{Place, Rect, nib_law};
use object_tables::FileTable;
use preflight_cert::need_law;

/// The stock pen that draws nothing.
const NO_PEN: Handle = Handle(0x8000_0008);

/// `NibTooWide` if the drawing of the last step has a nib that is too wide on a surface.
fn wide_fault(
    machine: &Machine<'_, FileTable<'_>>,
    draw: &Draw<'_>,
    place: Place,
) -> Option<RecordFault>
    ensures { result ≡ wide_fault (drawing_nib (drawing_with machine.now draw.now) (surface_of place)) }
{
    match machine.nib_on(draw, place) {
        Some(_) => None,
        None => Some(RecordFault::NibTooWide),
    }
}

/// The same, if the step drew.
fn nib_fault(
    machine: &Machine<'_, FileTable<'_>>,
    drawn: &Option<Draw<'_>>,
    place: Place,
) -> Option<RecordFault>
    ensures { result ≡ nib_fault (option_map (drawing_with machine.now) drawn.now) (surface_of place) }
{
    match drawn {
        None => None,
        Some(draw) => wide_fault(machine, draw, place),
    }
}

/// `OffPlane` if the points with this bounding box on the plane don't all land on a surface.
fn off_plane(extent: Option<Rect>, place: Place) -> Option<RecordFault>
    ensures { (points : List Point) → IsExtent extent points → result ≡ off_plane_fault points (surface_of place) }
{
    if fits(extent, place) {
        None
    } else {
        Some(RecordFault::OffPlane)
    }
}

/// The fault that the last step has on a surface because of its points, or else its nib.
fn place_fault(
    machine: &Machine<'_, FileTable<'_>>,
    drawn: &Option<Draw<'_>>,
    place: Place,
) -> Option<RecordFault>
    ensures { IsPlaceFault machine.now drawn.now (surface_of place) result }
{
    match off_plane(machine.plane_extent(), place) {
        Some(fault) => Some(fault),
        None => nib_fault(machine, drawn, place),
    }
}

/// Whether an operation paints a path.
pub(crate) fn is_painting(op: &Op<'_>) -> bool
    ensures { result ≡ is_painting (operation_of op.now) }
{
    match op {
        Op::FillPath | Op::StrokePath | Op::StrokeAndFillPath => true,
        _ => false,
    }
}

/// The fault that runs have on a surface in the operation of the last step, which has no other fault than that of its
/// position. For the painting of a path, its points were checked when they were added.
pub(crate) fn fault_met(
    machine: &Machine<'_, FileTable<'_>>,
    op: &Op<'_>,
    drawn: &Option<Draw<'_>>,
    place: Place,
) -> Option<RecordFault>
    ensures { IsFaultMet (operation_of op.now) machine.now drawn.now (surface_of place) result }
{
    if is_painting(op) {
        nib_fault(machine, drawn, place)
    } else {
        place_fault(machine, drawn, place)
    }
}

/// Selects the pen that draws nothing.
fn select_no_pen<'a>(machine: &mut Machine<'a, FileTable<'a>>)
    requires { HasFullCapacity machine.old }
    ensures state { machine.new.state ≡ without_pen machine.old.state }
    ensures capacity { HasFullCapacity machine.new }
    ensures landed { IsLanded machine.old → IsLanded machine.new }
    ensures goes_on { GoesOn machine.old machine.new }
{
    need_law();
    let mut drawn: Option<Draw<'a>> = None;
    match machine.step_into(&Op::Select(NO_PEN), &mut drawn) {
        Ok(()) | Err(_) => {}
    }
}

/// The fault on a larger surface of an operation whose nib is too wide on the machine's: the same, or `OffPlane`. The
/// run is over, so the operation is played with a null pen, which shows where its points lie.
pub(crate) fn too_wide<'a>(
    machine: &mut Machine<'a, FileTable<'a>>,
    op: &Op<'a>,
    largest: Place,
) -> RecordFault
    requires running { IsRunning machine.old (surface_of largest) }
    requires too_wide { fault_of (operation_of op.now) machine.old.state machine.old.surface ≡ Some NibTooWide }
    ensures fault { fault_of (operation_of op.now) machine.old.state (surface_of largest) ≡ Some result }
    ensures landed { IsLanded machine.old → IsLanded machine.new }
    ensures running { IsRunning machine.new (surface_of largest) }
{
    fault_law();
    need_law();
    nib_law();
    select_no_pen(machine);
    let mut drawn: Option<Draw<'a>> = None;
    match machine.step_into(op, &mut drawn) {
        Ok(()) => {
            if fits(machine.plane_extent(), largest) {
                RecordFault::NibTooWide
            } else {
                RecordFault::OffPlane
            }
        }
        Err(_) => RecordFault::NibTooWide,
    }
}
