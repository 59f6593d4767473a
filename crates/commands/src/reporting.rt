//! Lines on standard error.

ghost use Rattle.std.specs.Prelude.{◌≡◌, ◌+◌, ◌-◌, ◌*◌, ◌^◌, ◌<◌, ◌≤◌, ◌++◌, IfSome, IsSome, OnErr, decimal, length};
ghost use Rattle.std.specs.Fmt.InlineText.{inline_text};
ghost use Rattle.draw_ops.specs.Fault.{text_of};
ghost use Rattle.preflight_cert.specs.Refusal.{refusal_text};
ghost use Rattle.commands.specs.Report.{Reports, program_line};

use canvas::{FaultCount, WriteFault, send_counted};
use draw_ops::Fault;
use itoa::Buffer;
use preflight_cert::Refusal;
use std::fmt::InlineText;

/// The capacity of a line. The program's own lines have at most 56 bytes.
const LINE_CAPACITY: usize = 128;

/// The capacity for the message of a line, without the program's name and the line feed.
const TEXT_CAPACITY: usize = 117;

/// Writes one line about what went wrong, and returns an error if it wasn't written in full. A text of more than 117
/// bytes is a `WriteFault` too, and then nothing is written.
pub fn report<E: FaultCount>(err: &mut E, text: &str) -> Result<(), WriteFault>
    requires capacity { E.fault_count err.old < 2 ^ 64 - 1 }
    ensures line { Reports result (E.contents err.old) (E.contents err.new) text.now }
    ensures unreported { length text.now ≤ 117 → OnErr result (E.fault_count err.old < E.fault_count err.new) }
{
    match line(text) {
        Some(line) => send_counted(err, line.as_str().as_bytes()),
        None => Err(WriteFault),
    }
}

/// Writes the line for a rejection, and returns an error if it wasn't written in full.
pub fn report_refusal<E: FaultCount>(err: &mut E, refusal: Refusal) -> Result<(), WriteFault>
    requires capacity { E.fault_count err.old < 2 ^ 64 - 1 }
    ensures line { Reports result (E.contents err.old) (E.contents err.new) (refusal_text refusal) }
    ensures unreported { OnErr result (E.fault_count err.old < E.fault_count err.new) }
{
    report(err, text_of_refusal(refusal).as_str())
}

/// The line for a message, if it fits. It allocates no memory, so that a failed allocation can be reported.
fn line(text: &str) -> Option<InlineText<LINE_CAPACITY>>
    ensures line { IfSome result (λ line. inline_text line ≡ program_line text.now) }
    ensures fits { length text.now ≤ 117 → IsSome result }
{
    if text.len() > TEXT_CAPACITY {
        return None;
    }
    let printed = joined(joined(InlineText::new(), "metaplay: "), text);
    Some(joined(printed, "\n"))
}

/// The message for a rejection.
fn text_of_refusal(refusal: Refusal) -> InlineText<TEXT_CAPACITY>
    ensures text { inline_text result ≡ refusal_text refusal }
    ensures short { length (inline_text result) ≤ 117 }
{
    let text = text_of_fault(refusal.fault);
    match refusal.number {
        Some(number) => with_number(text, " at record ", number),
        None => text,
    }
}

/// The message for a fault.
fn text_of_fault(fault: Fault) -> InlineText<TEXT_CAPACITY>
    ensures text { inline_text result ≡ text_of fault }
    ensures short { length (inline_text result) ≤ 27 }
{
    let text = joined(InlineText::new(), fault.name());
    match fault.number() {
        Some(kind) => with_number(text, " ", kind),
        None => text,
    }
}

/// A text followed by another text and a number.
fn with_number(
    text: InlineText<TEXT_CAPACITY>,
    more: &str,
    number: u32,
) -> InlineText<TEXT_CAPACITY>
    requires { length (inline_text text) + length more.now + 10 ≤ 117 }
    ensures text { inline_text result ≡ inline_text text ++ (more.now ++ decimal number) }
    ensures short { length (inline_text result) ≤ length (inline_text text) + length more.now + 10 }
{
    let mut digits = Buffer::new();
    joined(joined(text, more), digits.format(number))
}

/// A text followed by another text, if it fits.
fn joined<const N: usize>(text: InlineText<N>, more: &str) -> InlineText<N>
    requires { length (inline_text text) + length more.now ≤ N }
    ensures { inline_text result ≡ inline_text text.entry ++ more.now }
{
    text.and_str(more, N)
}
