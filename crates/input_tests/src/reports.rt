//! Lines on standard error.

use crate::same_values::same;
use canvas::{Counting, WriteFault};
use commands::{CommandEnd, Completion, InputFault, no_input, report, report_refusal};
use draw_ops::{Fault, RecordFault};
use preflight_cert::Refusal;
use std::alloc::{AllocError, Global};
use std::test::Fail;

#[test]
fn an_input_that_fails_is_reported_in_one_line(rt: HostRuntime) -> Result<(), Fail> {
    let cases: [(InputFault, CommandEnd, u8, &[u8]); 2] = [
        (
            InputFault::CannotRead,
            CommandEnd::CannotRead,
            3,
            b"metaplay: cannot read\n",
        ),
        (
            InputFault::OutOfMemory,
            CommandEnd::OutOfMemory,
            4,
            b"metaplay: OutOfMemory\n",
        ),
    ];
    for (fault, end, status, text) in cases {
        let mut err = Counting::new(Vec::new(rt.alloc()));
        same(
            &rt,
            no_input(fault, &mut err),
            Completion {
                end,
                printed: Ok(()),
            },
        );
        let err = err.into_writer();
        same(&rt, end.status(), status);
        same(&rt, err.as_slice(), text);
    }
    Ok(())
}

#[test]
fn the_faults_of_an_input_show_their_lines(rt: HostRuntime) -> Result<(), Fail> {
    let read = format!(in rt.alloc(); "{}", InputFault::CannotRead)?;
    same(&rt, read.as_str(), "cannot read");
    let memory = format!(in rt.alloc(); "{}", InputFault::OutOfMemory)?;
    same(&rt, memory.as_str(), "OutOfMemory");
    Ok(())
}

#[test]
fn the_longest_refusal_has_capacity(rt: HostRuntime) -> Result<(), Fail> {
    let refusal = Refusal {
        number: Some(u32::MAX),
        fault: Fault::Record(RecordFault::UnknownRecord(u32::MAX)),
    };
    let mut err = Counting::new(Vec::new(rt.alloc()));
    same(&rt, report_refusal(&mut err, refusal), Ok(()));
    let err = err.into_writer();
    let line = b"metaplay: UnknownRecord 4294967295 at record 4294967295\n";
    same(&rt, err.as_slice(), line.as_slice());
    Ok(())
}

/// Record numbers: each of the first 10,000, and the neighbours of powers of two.
fn some_numbers(alloc: Global) -> Result<Vec<u32>, AllocError> {
    let mut numbers = Vec::new(alloc);
    for number in 0..10_000 {
        numbers.push(number)?;
    }
    let mut power = 16_384u32;
    for _ in 14..32 {
        numbers.push(power.saturating_sub(1))?;
        numbers.push(power)?;
        numbers.push(power.saturating_add(1))?;
        power = power.saturating_mul(2);
    }
    Ok(numbers)
}

#[test]
fn a_refusal_in_each_record_is_printed_whole(rt: HostRuntime) -> Result<(), Fail> {
    let numbers = some_numbers(rt.alloc())?;
    for number in numbers.iter() {
        let refusal = Refusal {
            number: Some(*number),
            fault: Fault::Record(RecordFault::PastEnd),
        };
        let want = format!(in rt.alloc(); "metaplay: PastEnd at record {number}\n")?;
        let mut err = Counting::new(Vec::new(rt.alloc()));
        same(
            &rt,
            (number, report_refusal(&mut err, refusal)),
            (number, Ok(())),
        );
        let err = err.into_writer();
        same(&rt, (number, err.as_slice()), (number, want.as_bytes()));
    }
    Ok(())
}

#[test]
fn a_line_of_each_length_is_printed_whole(rt: HostRuntime) -> Result<(), Fail> {
    // 117 bytes, the program's name and the line feed fill a line exactly.
    let text = "0123456789".repeat(rt.alloc(), 12)?;
    for length in 0..118 {
        let printed = text.as_str().get(..length).ok_or("a front")?;
        let want = format!(in rt.alloc(); "metaplay: {printed}\n")?;
        let mut err = Counting::new(Vec::new(rt.alloc()));
        same(&rt, (length, report(&mut err, printed)), (length, Ok(())));
        let err = err.into_writer();
        same(&rt, (length, err.as_slice()), (length, want.as_bytes()));
    }
    Ok(())
}

#[test]
fn a_line_is_printed_whole_or_not_at_all(rt: HostRuntime) -> Result<(), Fail> {
    // 117 bytes, the program's name and the line feed fill a line exactly.
    let text = "0123456789".repeat(rt.alloc(), 12)?;
    let mut err = Counting::new(Vec::new(rt.alloc()));
    same(&rt, report(&mut err, &text.as_str()[..117]), Ok(()));
    let err = err.into_writer();
    assert!(rt; err.len() == 128);
    same(&rt, &err[..13], b"metaplay: 012".as_slice());
    same(&rt, &err[124..], b"456\n".as_slice());
    let mut err = Counting::new(Vec::new(rt.alloc()));
    same(
        &rt,
        report(&mut err, &text.as_str()[..118]),
        Err(WriteFault),
    );
    assert!(rt; err.into_writer().is_empty());
    Ok(())
}
