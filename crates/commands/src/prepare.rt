//! The command `prepare`.

ghost use Rattle.std.specs.Prelude.{◌≡◌, ◌-◌, ◌^◌, ◌<◌, IfErr, OnErr, OnOk, true};
ghost use Rattle.draw_ops.specs.RuleSets.{core_rules};
ghost use Rattle.mapping.specs.Limits.{IsSurfaceSide};
ghost use Rattle.commands.specs.Ends.{Prints, Writes, WritesDone};
ghost use Rattle.preflight_cert.specs.Reached.{Opens};
ghost use Rattle.commands.specs.Failures.{FailsWith, IsReasonOf};
ghost use Rattle.commands.specs.Stored.{Stores};
ghost use Rattle.preflight_cert.specs.Preparation.{Prepares};
ghost use Rattle.commands.specs.Tasks.{prepare};

use crate::command_end::{CommandEnd, Completion};
use crate::failure::{Failure, ending, failure_of};
use crate::output::NamedOutput;
use crate::output_path::OutputPath;
use crate::preparing::prepare_file;
use canvas::{FaultCount, send_finished};
use draw_ops::Rules;
use std::alloc::Global;
use std::rt::Files;

/// The same as `prepare_command_by`, under the core rules.
pub fn prepare_command<O: FaultCount, E: FaultCount>(
    alloc: Global,
    file: &[u8],
    width: u32,
    height: u32,
    out: &mut O,
    err: &mut E,
) -> Completion
    requires wide { IsSurfaceSide width }
    requires high { IsSurfaceSide height }
    requires capacity_out { O.fault_count out.old < 2 ^ 64 - 1 }
    requires capacity_err { E.fault_count err.old < 2 ^ 64 - 1 }
    ensures written { Writes (prepare core_rules file.now width height) result O.contents out.old out.new }
    ensures printed { Prints (prepare core_rules file.now width height) result E.contents err.old err.new }
    ensures memory { result.end ≡ CommandEnd.OutOfMemory → Opens file.now }
    ensures cannot_write { result.end ≡ CommandEnd.CannotWrite → O.fault_count out.old < O.fault_count out.new }
    ensures unreported { OnErr result.printed (E.fault_count err.old < E.fault_count err.new) }
    ensures flushed { result.end ≡ CommandEnd.Done → O.is_flushed out.new ≡ true }
{
    prepare_command_by(alloc, Rules::CORE, file, width, height, out, err)
}

/// Prepares a file's certificate under these rules for surfaces of at most this size, and writes it to `out` after the
/// whole file has been examined. If the file is rejected, one line goes to `err`. A fault of `err` doesn't change the
/// status.
pub fn prepare_command_by<O: FaultCount, E: FaultCount>(
    alloc: Global,
    rules: Rules,
    file: &[u8],
    width: u32,
    height: u32,
    out: &mut O,
    err: &mut E,
) -> Completion
    requires wide { IsSurfaceSide width }
    requires high { IsSurfaceSide height }
    requires capacity_out { O.fault_count out.old < 2 ^ 64 - 1 }
    requires capacity_err { E.fault_count err.old < 2 ^ 64 - 1 }
    ensures written { Writes (prepare rules file.now width height) result O.contents out.old out.new }
    ensures printed { Prints (prepare rules file.now width height) result E.contents err.old err.new }
    ensures memory { result.end ≡ CommandEnd.OutOfMemory → Opens file.now }
    ensures cannot_write { result.end ≡ CommandEnd.CannotWrite → O.fault_count out.old < O.fault_count out.new }
    ensures unreported { OnErr result.printed (E.fault_count err.old < E.fault_count err.new) }
    ensures flushed { result.end ≡ CommandEnd.Done → O.is_flushed out.new ≡ true }
{
    let done = write_prepared(alloc, rules, file, width, height, out);
    ending(done, err)
}

/// Prepares a file's certificate for surfaces of at most this size, and writes it.
fn write_prepared<O: FaultCount>(
    alloc: Global,
    rules: Rules,
    file: &[u8],
    width: u32,
    height: u32,
    out: &mut O,
) -> Result<(), Failure>
    requires wide { IsSurfaceSide width }
    requires high { IsSurfaceSide height }
    requires capacity { O.fault_count out.old < 2 ^ 64 - 1 }
    ensures done { OnOk result (WritesDone (prepare rules file.now width height) O.contents out.old out.new) }
    ensures failed { IfErr result (FailsWith (prepare rules file.now width height) O.contents out.old out.new) }
    ensures memory { IfErr result (λ failure. failure ≡ Failure.OutOfMemory → Opens file.now) }
    ensures fault { IfErr result (λ failure. failure ≡ Failure.CannotWrite → O.fault_count out.old < O.fault_count out.new) }
    ensures flushed { OnOk result (O.is_flushed out.new ≡ true) }
{
    let prepared = match prepare_file(alloc, rules, file, width, height) {
        Ok(prepared) => prepared,
        Err(refusal) => return Err(failure_of(refusal)),
    };
    match send_finished(out, prepared.text.as_slice()) {
        Ok(()) => Ok(()),
        Err(_) => Err(Failure::CannotWrite),
    }
}

/// Prepares a file's certificate, and writes it to the file of this name.
#[inline(never)]
pub(crate) fn prepare_to_file<R: Files + AllocGlobal, E: FaultCount>(
    rt: &R,
    rules: Rules,
    file: &[u8],
    width: u32,
    height: u32,
    name: &str,
    err: &mut E,
) -> Completion
    requires wide { IsSurfaceSide width }
    requires high { IsSurfaceSide height }
    requires capacity { E.fault_count err.old < 2 ^ 64 - 1 }
    ensures stored { result.end ≡ CommandEnd.Done → Stores R.File.contents (Prepares rules file.now width height) }
    ensures printed { Prints (prepare rules file.now width height) result E.contents err.old err.new }
    ensures unreported { OnErr result.printed (E.fault_count err.old < E.fault_count err.new) }
{
    let stored = store_prepared(rt, rules, file, width, height, name);
    ending(stored, err)
}

/// Prepares a file's certificate, and stores it in the file of this name, which is touched only then.
fn store_prepared<R: Files + AllocGlobal>(
    rt: &R,
    rules: Rules,
    file: &[u8],
    width: u32,
    height: u32,
    name: &str,
) -> Result<(), Failure>
    requires wide { IsSurfaceSide width }
    requires high { IsSurfaceSide height }
    ensures stored { OnOk result (Stores R.File.contents (Prepares rules file.now width height)) }
    ensures failed { IfErr result (IsReasonOf (prepare rules file.now width height)) }
{
    let Ok(path) = OutputPath::new(rt, name) else {
        return Err(Failure::OutOfMemory);
    };
    let prepared = match prepare_file(rt.alloc(), rules, file, width, height) {
        Ok(prepared) => prepared,
        Err(refusal) => return Err(failure_of(refusal)),
    };
    match NamedOutput::open(rt, path) {
        Ok(mut output) => {
            let stored = output.store(prepared.text.as_slice());
            output.remove_first_name();
            stored.map_err(|_| Failure::CannotWrite)
        }
        Err(_) => Err(Failure::CannotWrite),
    }
}
