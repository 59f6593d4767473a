//! The program: the command line, its inputs, and the command.

ghost use Rattle.std.specs.Prelude.{◌≡◌, ◌≢◌, ◌↔◌, ◌-◌, ◌^◌, ◌<◌, OnErr, codes, true};
ghost use Rattle.std.specs.Io.KnownBytes.{Keeps};
ghost use Rattle.clap.specs.Words.{kind_of};
ghost use Rattle.commands.specs.Outputs.{FailsAsked, FailsSome, IsUnreported, OutputFailed, Rises};
ghost use Rattle.commands.specs.Outputs.{FlushesAsked, FlushesRejected, FlushesSome, FlushesSomeRejected, FlushesUnread, FlushesUnstored, OutputFlushed, RejectedFlushed};
ghost use Rattle.commands.specs.Statuses.{status_of};
ghost use Rattle.commands.specs.Faults.{IsUsageEnd, input_end, fault_text};
ghost use Rattle.commands.specs.Lines.{TaskPrints, TaskWrites, PrintsAsked, PrintsLine, PrintsMemory, PrintsSome};
ghost use Rattle.commands.specs.Lines.{CallsForHelp, HasRightWords, PreparesNamed, PreparesNamedFile, ReportsSameFile};
ghost use Rattle.commands.specs.Inputs.{standard_input};
ghost use Rattle.commands.specs.Lines.{WritesAsked, WritesLine, WritesSome};
ghost use Rattle.commands.specs.Report.{Reports};
ghost use Rattle.command_lines.specs.Dimensions.{HasDimensions, file_of};

use crate::batch::batch_command;
use crate::check::check_command;
use crate::command_end::{CommandEnd, Completion};
use crate::fitting::asked_sides;
use crate::input::InputFault;
use crate::inputs::{Inputs, read_inputs};
use crate::list::list_command_by;
use crate::over::over_command;
use crate::play::play_command;
use crate::prepare::prepare_to_file;
use crate::reporting::report;
use crate::same_file::{ComparedLine, compared};
use crate::show::show_command_by;
use crate::shown::show_error;
use crate::version::version_command;
use crate::words::{has_right_marks, read_words};
use canvas::FaultCount;
use clap::error::ErrorKind;
use command_lines::{Asked, CommandLine, line};
use proportions::Sides;
use std::alloc::AllocError;
use std::io::Read;
use std::rt::{Env, Files};

/// A call of the program.
#[derive(Clone, Copy)]
pub struct Call<'a> {
    /// The words of the command line, the program's name first.
    pub words: &'a [String],
    /// The line about the version.
    pub version: &'a str,
}

/// Runs the program, which writes this line if it is asked for its version.
pub fn run<R, I, O, E>(rt: &R, version: &str, input: &mut I, out: &mut O, err: &mut E) -> Completion
where
    R: Env + Files + AllocGlobal,
    I: Read,
    O: FaultCount,
    E: FaultCount,
    requires capacity_out { O.fault_count out.old < 2 ^ 64 - 1 }
    requires capacity_err { E.fault_count err.old < 2 ^ 64 - 1 }
    ensures written { WritesSome (I.remaining input.old) version.now result O.contents out.old out.new }
    ensures printed { PrintsSome (I.remaining input.old) result E.contents err.old err.new }
    ensures usage_unread { status_of result.end ≡ 2 → Keeps (I.remaining input.old) (I.remaining input.new) }
    ensures cannot_write { result.end ≡ CommandEnd.CannotWrite → FailsSome O.fault_count out.old out.new }
    ensures flushed { result.end ≡ CommandEnd.Done → FlushesSome O.is_flushed out.old out.new }
    ensures rejected { result.end ≡ CommandEnd.Rejected → FlushesSomeRejected O.is_flushed out.new }
    ensures unreported { IsUnreported result E.fault_count err.old err.new }
    ensures unshown { result.end ≡ CommandEnd.Help → OnErr result.printed (Rises O.fault_count out.old out.new) }
{
    let read = match read_words(rt) {
        Ok(read) => read,
        Err(AllocError) => return no_input(InputFault::OutOfMemory, err),
    };
    let words = read.words.as_slice();
    match has_right_marks(rt.alloc(), words, read.marked) {
        Ok(true) => run_words(Call { words, version }, rt, input, out, err),
        Ok(false) => not_text(err),
        Err(AllocError) => no_input(InputFault::OutOfMemory, err),
    }
}

/// Does what the words of a command line ask for.
pub fn run_words<R, I, O, E>(
    call: Call<'_>,
    rt: &R,
    input: &mut I,
    out: &mut O,
    err: &mut E,
) -> Completion
where
    R: Files + AllocGlobal,
    I: Read,
    O: FaultCount,
    E: FaultCount,
    requires capacity_out { O.fault_count out.old < 2 ^ 64 - 1 }
    requires capacity_err { E.fault_count err.old < 2 ^ 64 - 1 }
    ensures written { WritesAsked call.entry (I.remaining input.old) result O.contents out.old out.new }
    ensures printed { PrintsAsked call.entry (I.remaining input.old) result E.contents err.old err.new }
    ensures right { HasRightWords call.entry → (status_of result.end ≡ 2 ↔ result.end ≡ CommandEnd.OutIsFile) }
    ensures same_words { result.end ≡ CommandEnd.OutIsFile → PreparesNamed call.entry }
    ensures same_reported { result.end ≡ CommandEnd.OutIsFile → ReportsSameFile result E.contents err.old err.new }
    ensures same_unwritten { result.end ≡ CommandEnd.OutIsFile → Keeps (O.contents out.old) (O.contents out.new) }
    ensures help { result.end ≡ CommandEnd.Help → CallsForHelp call.entry }
    ensures usage_unread { status_of result.end ≡ 2 → Keeps (I.remaining input.old) (I.remaining input.new) }
    ensures cannot_write { result.end ≡ CommandEnd.CannotWrite → FailsAsked call.entry O.fault_count out.old out.new }
    ensures flushed { result.end ≡ CommandEnd.Done → FlushesAsked call.entry O.is_flushed out.old out.new }
    ensures rejected { result.end ≡ CommandEnd.Rejected → FlushesRejected call.entry O.is_flushed out.new }
    ensures unread { result.end ≡ CommandEnd.CannotRead → FlushesUnread call.entry O.is_flushed out.new }
    ensures unstored { result.end ≡ CommandEnd.CannotStore → FlushesUnstored call.entry O.is_flushed out.new }
    ensures unreported { IsUnreported result E.fault_count err.old err.new }
    ensures unshown { result.end ≡ CommandEnd.Help → OnErr result.printed (Rises O.fault_count out.old out.new) }
{
    match line(rt.alloc(), call.words) {
        Ok(Asked::Command(line)) => perform(rt, compared(rt, line), input, out, err),
        Ok(Asked::Batch { names, task }) => {
            batch_command(rt, task, names.as_slice(), input, out, err)
        }
        Ok(Asked::Version) => version_command(call.version, out, err),
        Err(error) => usage(&error, out, err),
    }
}

/// Reads the inputs of a command line, and runs its command, unless OUT is FILE.
fn perform<R, I, O, E>(
    rt: &R,
    asked: ComparedLine<'_>,
    input: &mut I,
    out: &mut O,
    err: &mut E,
) -> Completion
where
    R: Files + AllocGlobal,
    I: Read,
    O: FaultCount,
    E: FaultCount,
    requires dimensions { HasDimensions asked.line }
    requires named { asked.out_is_file ≡ true → PreparesNamedFile asked.line }
    requires capacity_out { O.fault_count out.old < 2 ^ 64 - 1 }
    requires capacity_err { E.fault_count err.old < 2 ^ 64 - 1 }
    ensures same { result.end ≡ CommandEnd.OutIsFile ↔ asked.entry.out_is_file ≡ true }
    ensures written { WritesLine asked.entry.line (I.remaining input.old) result O.contents out.old out.new }
    ensures printed { PrintsLine asked.entry.line (I.remaining input.old) result E.contents err.old err.new }
    ensures unread { file_of asked.entry.line ≢ standard_input → Keeps (I.remaining input.old) (I.remaining input.new) }
    ensures failed { result.end ≡ CommandEnd.CannotWrite → OutputFailed O.fault_count out.old out.new asked.entry.line }
    ensures flushed { result.end ≡ CommandEnd.Done → OutputFlushed O.is_flushed out.old out.new asked.entry.line }
    ensures rejected { result.end ≡ CommandEnd.Rejected → RejectedFlushed O.is_flushed out.new asked.entry.line }
    ensures unreported { OnErr result.printed (E.fault_count err.old < E.fault_count err.new) }
{
    if asked.out_is_file {
        return same_file(err);
    }
    match read_inputs(rt, asked.line, input) {
        Ok(inputs) => run_task(rt, asked.line, &inputs, out, err),
        Err(fault) => no_input(fault, err),
    }
}

/// Reports that OUT is FILE.
fn same_file<E: FaultCount>(err: &mut E) -> Completion
    requires capacity { E.fault_count err.old < 2 ^ 64 - 1 }
    ensures end { result.end ≡ CommandEnd.OutIsFile }
    ensures line { Reports result.printed (E.contents err.old) (E.contents err.new) (codes "OUT is FILE") }
    ensures unreported { OnErr result.printed (E.fault_count err.old < E.fault_count err.new) }
{
    Completion {
        end: CommandEnd::OutIsFile,
        printed: report(err, "OUT is FILE"),
    }
}

/// Runs the command of a command line with the bytes of its inputs. No command is inlined here, so that each takes only
/// its own stack, which must not grow when memory is full.
fn run_task<R: Files + AllocGlobal, O: FaultCount, E: FaultCount>(
    rt: &R,
    line: CommandLine<'_>,
    inputs: &Inputs,
    out: &mut O,
    err: &mut E,
) -> Completion
    requires dimensions { HasDimensions line }
    requires capacity_out { O.fault_count out.old < 2 ^ 64 - 1 }
    requires capacity_err { E.fault_count err.old < 2 ^ 64 - 1 }
    ensures written { TaskWrites line.entry inputs.now result O.contents out.old out.new }
    ensures printed { TaskPrints line.entry inputs.now result E.contents err.old err.new }
    ensures cannot_write { result.end ≡ CommandEnd.CannotWrite → OutputFailed O.fault_count out.old out.new line.entry }
    ensures flushed { result.end ≡ CommandEnd.Done → OutputFlushed O.is_flushed out.old out.new line.entry }
    ensures rejected { result.end ≡ CommandEnd.Rejected → RejectedFlushed O.is_flushed out.new line.entry }
    ensures unreported { OnErr result.printed (E.fault_count err.old < E.fault_count err.new) }
{
    let (file, certificate) = (inputs.file.as_slice(), inputs.certificate.as_slice());
    match line {
        CommandLine::Show {
            rules,
            width,
            height,
            fit,
            ..
        } => {
            let Sides { width, height } = asked_sides(file, width, height, fit);
            show_command_by(rt.alloc(), rules, file, width, height, out, err)
        }
        CommandLine::Prepare {
            rules,
            width,
            height,
            output,
            ..
        } => { prepare_to_file(rt, rules, file, width, height, output, err) }
        CommandLine::Check { .. } => check_command(rt.alloc(), file, certificate, out, err),
        CommandLine::Play {
            width,
            height,
            bands,
            fit,
            ..
        } => {
            let Sides { width, height } = asked_sides(file, width, height, fit);
            let alloc = rt.alloc();
            play_command(alloc, file, certificate, width, height, bands, out, err)
        }
        CommandLine::Over { .. } => {
            let image = inputs.image.as_slice();
            over_command(rt.alloc(), file, certificate, image, out, err)
        }
        CommandLine::List { rules, .. } => list_command_by(rt.alloc(), rules, file, out, err),
    }
}

/// Reports that a word isn't UTF-8, where only names of several files may be so.
fn not_text<E: FaultCount>(err: &mut E) -> Completion
    requires capacity { E.fault_count err.old < 2 ^ 64 - 1 }
    ensures end { result.end ≡ CommandEnd.WrongUsage }
    ensures unreported { OnErr result.printed (E.fault_count err.old < E.fault_count err.new) }
{
    Completion {
        end: CommandEnd::WrongUsage,
        printed: report(err, "the command line is not UTF-8 text"),
    }
}

/// Reports that an input wasn't read.
pub fn no_input<E: FaultCount>(fault: InputFault, err: &mut E) -> Completion
    requires capacity { E.fault_count err.old < 2 ^ 64 - 1 }
    ensures end { result.end ≡ input_end fault }
    ensures line { Reports result.printed (E.contents err.old) (E.contents err.new) (fault_text fault) }
    ensures unreported { OnErr result.printed (E.fault_count err.old < E.fault_count err.new) }
{
    Completion {
        end: fault.end(),
        printed: report(err, fault.text()),
    }
}

/// Shows help on standard output if it was asked for, and otherwise what is wrong on standard error. Returns whether that
/// writer failed.
pub fn usage<O: FaultCount, E: FaultCount>(
    error: &clap::Error,
    out: &mut O,
    err: &mut E,
) -> Completion
    requires capacity_out { O.fault_count out.old < 2 ^ 64 - 1 }
    requires capacity_err { E.fault_count err.old < 2 ^ 64 - 1 }
    ensures memory { result.end ≡ CommandEnd.OutOfMemory ↔ kind_of error.now ≡ ErrorKind.OutOfMemory }
    ensures help { result.end ≡ CommandEnd.Help ↔ kind_of error.now ≡ ErrorKind.DisplayHelp }
    ensures ends { IsUsageEnd result.end }
    ensures unwritten { result.end ≢ CommandEnd.Help → Keeps (O.contents out.old) (O.contents out.new) }
    ensures unprinted { result.end ≡ CommandEnd.Help → Keeps (E.contents err.old) (E.contents err.new) }
    ensures line { result.end ≡ CommandEnd.OutOfMemory → PrintsMemory result E.contents err.old err.new }
    ensures unreported { IsUnreported result E.fault_count err.old err.new }
    ensures unshown { result.end ≡ CommandEnd.Help → OnErr result.printed (Rises O.fault_count out.old out.new) }
{
    if error.kind() == ErrorKind::OutOfMemory {
        return no_input(InputFault::OutOfMemory, err);
    }
    if error.kind() == ErrorKind::DisplayHelp {
        return Completion {
            end: CommandEnd::Help,
            printed: show_error(error, out),
        };
    }
    Completion {
        end: CommandEnd::WrongUsage,
        printed: show_error(error, err),
    }
}
