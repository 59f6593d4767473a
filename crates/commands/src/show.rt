//! The command `show`.

ghost use Rattle.std.specs.Prelude.{◌≡◌, ◌-◌, ◌^◌, ◌<◌, IfErr, OnErr, OnOk, true};
ghost use Rattle.draw_ops.specs.RuleSets.{core_rules};
ghost use Rattle.mapping.specs.Limits.{IsSurfaceSide};
ghost use Rattle.commands.specs.Ends.{Prints, Writes, WritesDone};
ghost use Rattle.preflight_cert.specs.Reached.{Opens};
ghost use Rattle.commands.specs.Failures.{FailsWith};
ghost use Rattle.commands.specs.Tasks.{show};

use crate::command_end::{CommandEnd, Completion};
use crate::failure::{Failure, ending, failure_of};
use crate::playing::{AskedSurface, write_played};
use crate::preparing::prepare_file;
use canvas::FaultCount;
use draw_ops::Rules;
use meta_headers::opening_law;
use std::alloc::Global;

/// The same as `show_command_by`, under the core rules.
pub fn show_command<O: FaultCount, E: FaultCount>(
    alloc: Global,
    file: &[u8],
    width: u32,
    height: u32,
    out: &mut O,
    err: &mut E,
) -> Completion
    requires wide { IsSurfaceSide width }
    requires high { IsSurfaceSide height }
    requires capacity_out { O.fault_count out.old < 2 ^ 64 - 1 }
    requires capacity_err { E.fault_count err.old < 2 ^ 64 - 1 }
    ensures written { Writes (show core_rules file.now width height) result O.contents out.old out.new }
    ensures printed { Prints (show core_rules file.now width height) result E.contents err.old err.new }
    ensures memory { result.end ≡ CommandEnd.OutOfMemory → Opens file.now }
    ensures cannot_write { result.end ≡ CommandEnd.CannotWrite → O.fault_count out.old < O.fault_count out.new }
    ensures unreported { OnErr result.printed (E.fault_count err.old < E.fault_count err.new) }
    ensures flushed { result.end ≡ CommandEnd.Done → O.is_flushed out.new ≡ true }
{
    show_command_by(alloc, Rules::CORE, file, width, height, out, err)
}

/// Prepares a file under these rules at the size of a surface, plays it on white, and writes the image to `out` as P6
/// text. If the file is rejected, one line goes to `err` and no byte to `out`. A fault of `err` doesn't change the
/// status.
#[inline(never)]
pub fn show_command_by<O: FaultCount, E: FaultCount>(
    alloc: Global,
    rules: Rules,
    file: &[u8],
    width: u32,
    height: u32,
    out: &mut O,
    err: &mut E,
) -> Completion
    requires wide { IsSurfaceSide width }
    requires high { IsSurfaceSide height }
    requires capacity_out { O.fault_count out.old < 2 ^ 64 - 1 }
    requires capacity_err { E.fault_count err.old < 2 ^ 64 - 1 }
    ensures written { Writes (show rules file.now width height) result O.contents out.old out.new }
    ensures printed { Prints (show rules file.now width height) result E.contents err.old err.new }
    ensures memory { result.end ≡ CommandEnd.OutOfMemory → Opens file.now }
    ensures cannot_write { result.end ≡ CommandEnd.CannotWrite → O.fault_count out.old < O.fault_count out.new }
    ensures unreported { OnErr result.printed (E.fault_count err.old < E.fault_count err.new) }
    ensures flushed { result.end ≡ CommandEnd.Done → O.is_flushed out.new ≡ true }
{
    let done = show_file(alloc, rules, file, width, height, out);
    ending(done, err)
}

/// Prepares a file at the size of a surface, and plays it on white by what was prepared. The file's own certificate
/// isn't checked. A file that doesn't open is rejected before any memory is allocated.
fn show_file<O: FaultCount>(
    alloc: Global,
    rules: Rules,
    file: &[u8],
    width: u32,
    height: u32,
    out: &mut O,
) -> Result<(), Failure>
    requires wide { IsSurfaceSide width }
    requires high { IsSurfaceSide height }
    requires capacity { O.fault_count out.old < 2 ^ 64 - 1 }
    ensures done { OnOk result (WritesDone (show rules file.now width height) O.contents out.old out.new) }
    ensures failed { IfErr result (FailsWith (show rules file.now width height) O.contents out.old out.new) }
    ensures memory { IfErr result (λ failure. failure ≡ Failure.OutOfMemory → Opens file.now) }
    ensures fault { IfErr result (λ failure. failure ≡ Failure.CannotWrite → O.fault_count out.old < O.fault_count out.new) }
    ensures flushed { OnOk result (O.is_flushed out.new ≡ true) }
{
    let prepared = match prepare_file(alloc, rules, file, width, height) {
        Ok(prepared) => prepared,
        Err(refusal) => return Err(failure_of(refusal)),
    };
    let asked = AskedSurface {
        width,
        height,
        bands: None,
    };
    opening_law();
    write_played(alloc, &prepared.clear(), asked, out)
}
