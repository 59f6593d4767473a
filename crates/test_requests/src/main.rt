//! A program for tests (tests/request_program.py). It answers requests from standard input, one after another: prepare
//! a file's certificate, check a certificate, play a file by its certificate over an image, count the writes of playing
//! it on white, run a command, or inform about a file, whose name stands in place of the certificate.
//!
//! A request is five little-endian numbers of four bytes, followed by the bytes that they count. The numbers are its
//! kind, a width, a height, and the lengths of the file and the certificate. An image has three bytes per pixel. The
//! upper half of the kind is the number of the rules (`rules_of`).
//!
//! For a command there are six more numbers: the length of an image in P6, the rows of a band or 0, and for each output
//! how many bytes it takes, and 1 if it can be flushed.
#![tactic(auto)]

ghost use Rattle.std.specs.Prelude.{◌-◌, ◌^◌, ◌<◌};

mod informing;
mod rules;

use crate::informing::answer_info;
use crate::rules::rules_of;
use canvas::{Canvas, Counting, FaultCount};
use commands::{
    CommandEnd, Completion, check_command, list_command_by, over_command, play_command,
    prepare_command_by, show_command_by,
};
use draw_ops::Rules;
use mapping::{Colour, MAX_SURFACE_SIDE};
use player::play;
use point_views::u32_at;
use preflight_cert::{Cleared, check, prepare_by};
use std::alloc::Global;
use std::io::{self, Read, Write};
use test_support::limited;

/// A request.
#[derive(Clone, Copy)]
struct Request<'a> {
    kind: u32,
    rules: Rules,
    width: u32,
    height: u32,
    more: Numbers,
    file: &'a [u8],
    certificate: &'a [u8],
    image: &'a [u8],
}

/// The numbers that only a request for a command has.
#[derive(Clone, Copy)]
struct Numbers {
    of_image: u32,
    rows: u32,
    out: u32,
    flushes_out: u32,
    err: u32,
    flushes_err: u32,
}

impl Numbers {
    /// Those of other requests.
    const NONE: Numbers = Numbers {
        of_image: 0,
        rows: 0,
        out: 0,
        flushes_out: 0,
        err: 0,
        flushes_err: 0,
    };
}

/// Splits off this many bytes, if there are that many.
fn split(bytes: &[u8], count: usize) -> Option<(&[u8], &[u8])> {
    if count <= bytes.len() {
        return Some(bytes.split_at(count));
    }
    None
}

/// The first number, and the bytes after it.
fn first_number(bytes: &[u8]) -> Option<(u32, &[u8])> {
    if bytes.len() < 4 {
        return None;
    }
    Some((u32_at(bytes, 0), &bytes[4..]))
}

/// The first numbers of a command, and the bytes after them.
fn command_numbers(bytes: &[u8]) -> Option<(Numbers, &[u8])> {
    if bytes.len() < 24 {
        return None;
    }
    let numbers = Numbers {
        of_image: u32_at(bytes, 0),
        rows: u32_at(bytes, 4),
        out: u32_at(bytes, 8),
        flushes_out: u32_at(bytes, 12),
        err: u32_at(bytes, 16),
        flushes_err: u32_at(bytes, 20),
    };
    Some((numbers, &bytes[24..]))
}

/// The first colour, and the bytes after it.
fn first_colour(bytes: &[u8]) -> Option<(Colour, &[u8])> {
    if bytes.len() < 3 {
        return None;
    }
    let colour = Colour {
        r: bytes[0],
        g: bytes[1],
        b: bytes[2],
    };
    Some((colour, &bytes[3..]))
}

/// The first request, and the bytes after it.
fn next_request(bytes: &[u8]) -> Option<(Request<'_>, &[u8])> {
    let (asked, rest) = first_number(bytes)?;
    let kind = asked & 0xffff;
    let (width, rest) = first_number(rest)?;
    let (height, rest) = first_number(rest)?;
    let (of_file, rest) = first_number(rest)?;
    let (of_certificate, rest) = first_number(rest)?;
    let (more, rest) = if kind < 4 {
        (Numbers::NONE, rest)
    } else {
        command_numbers(rest)?
    };
    let (file, rest) = split(rest, of_file as usize)?;
    let (certificate, rest) = split(rest, of_certificate as usize)?;
    let of_image = if kind == 2 && width <= 4096 && height <= 4096 {
        3 * width * height
    } else {
        more.of_image
    };
    let (image, rest) = split(rest, of_image as usize)?;
    let request = Request {
        kind,
        rules: rules_of(asked >> 16),
        width,
        height,
        more,
        file,
        certificate,
        image,
    };
    Some((request, rest))
}

/// A canvas that shows an image, if the size is valid.
fn shown(alloc: Global, width: u32, height: u32, image: &[u8]) -> Option<Canvas> {
    if width < 1 || MAX_SURFACE_SIDE < width || height < 1 || MAX_SURFACE_SIDE < height {
        return None;
    }
    let mut canvas = Canvas::new(alloc, width, height, Colour::WHITE).ok()?;
    let mut rest = image;
    for y in 0..height {
        for x in 0..width {
            let (colour, after) = first_colour(rest)?;
            rest = after;
            if canvas.has_pixel(x, y) && canvas.writes() < 1 << 62 {
                canvas.put(x, y, colour);
            }
        }
    }
    Some(canvas)
}

/// Plays a file over an image, and writes the number of pixels written and the image.
fn answer_play<W: Write>(
    alloc: Global,
    cleared: &Cleared<'_>,
    request: &Request<'_>,
    out: &mut W,
) -> io::Result<()> {
    let Some(mut canvas) = shown(alloc, request.width, request.height, request.image) else {
        return writeln!(out, "no canvas");
    };
    if canvas.first() != 0 || canvas.writes() > 1 << 62 {
        return writeln!(out, "no canvas");
    }
    match play(alloc, cleared, &mut canvas) {
        Err(fault) => writeln!(out, "{fault}"),
        Ok(writes) => {
            writeln!(out, "played {writes}")?;
            match canvas.write_ppm(out) {
                Ok(()) => Ok(()),
                Err(_) => writeln!(out, "not written"),
            }
        }
    }
}

/// Plays a file on a white surface, and writes the number of pixels written.
fn answer_count<W: Write>(
    alloc: Global,
    cleared: &Cleared<'_>,
    request: &Request<'_>,
    out: &mut W,
) -> io::Result<()> {
    let (width, height) = (request.width, request.height);
    if width < 1 || MAX_SURFACE_SIDE < width || height < 1 || MAX_SURFACE_SIDE < height {
        return writeln!(out, "no canvas");
    }
    let Ok(mut canvas) = Canvas::new(alloc, width, height, Colour::WHITE) else {
        return writeln!(out, "no canvas");
    };
    match play(alloc, cleared, &mut canvas) {
        Err(fault) => writeln!(out, "{fault}"),
        Ok(writes) => writeln!(out, "wrote {writes}"),
    }
}

/// Runs a command. Without a valid size it has wrong usage.
fn run_command<O: FaultCount, E: FaultCount>(
    alloc: Global,
    request: &Request<'_>,
    out: &mut O,
    err: &mut E,
) -> Completion
    requires capacity_out { O.fault_count out.old < 2 ^ 64 - 1 }
    requires capacity_err { E.fault_count err.old < 2 ^ 64 - 1 }
{
    let (width, height) = (request.width, request.height);
    let (rules, file, certificate) = (request.rules, request.file, request.certificate);
    if width < 1 || MAX_SURFACE_SIDE < width || height < 1 || MAX_SURFACE_SIDE < height {
        return Completion {
            end: CommandEnd::WrongUsage,
            printed: Ok(()),
        };
    }
    match request.kind {
        4 => show_command_by(alloc, rules, file, width, height, out, err),
        5 => prepare_command_by(alloc, rules, file, width, height, out, err),
        6 => check_command(alloc, file, certificate, out, err),
        7 => {
            let rows = request.more.rows;
            let bands = if rows == 0 { None } else { Some(rows) };
            play_command(alloc, file, certificate, width, height, bands, out, err)
        }
        8 => over_command(alloc, file, certificate, request.image, out, err),
        _ => list_command_by(alloc, rules, file, out, err),
    }
}

/// Runs a command, and writes its status, 1 if its line was printed or it had none, and what its outputs got.
fn answer_command<W: Write>(alloc: Global, request: &Request<'_>, to: &mut W) -> io::Result<()> {
    let more = request.more;
    let mut out = Counting::new(limited(alloc, more.out as usize, more.flushes_out == 1));
    let mut err = Counting::new(limited(alloc, more.err as usize, more.flushes_err == 1));
    let done = run_command(alloc, request, &mut out, &mut err);
    let (out, err) = (out.into_writer(), err.into_writer());
    let (status, printed) = (done.status(), u8::from(done.printed.is_ok()));
    let (of_out, of_err) = (out.taken.len(), err.taken.len());
    writeln!(to, "ended {status} {printed} {of_out} {of_err}")?;
    to.write_all(&out.taken)?;
    to.write_all(&err.taken)
}

/// Answers a request with a line and the bytes that were made.
fn answer<W: Write>(alloc: Global, request: &Request<'_>, out: &mut W) -> io::Result<()> {
    if request.kind == 10 {
        return answer_info(alloc, request.rules, request.certificate, request.file, out);
    }
    if request.kind >= 4 {
        return answer_command(alloc, request, out);
    }
    if request.kind == 0 {
        let (width, height) = (request.width, request.height);
        return match prepare_by(alloc, request.rules, request.file, width, height) {
            Err(refusal) => writeln!(out, "{refusal}"),
            Ok(text) => {
                let count = text.len();
                writeln!(out, "prepared {count}")?;
                out.write_all(&text)
            }
        };
    }
    match check(alloc, request.file, request.certificate) {
        Err(refusal) => writeln!(out, "{refusal}"),
        Ok(cleared) if request.kind == 1 => {
            let records = cleared.records;
            writeln!(out, "accepted {records}")
        }
        Ok(cleared) if request.kind == 2 => answer_play(alloc, &cleared, request, out),
        Ok(cleared) => answer_count(alloc, &cleared, request, out),
    }
}

fn main(rt: HostRuntime) -> io::Result<()> {
    let alloc = rt.alloc();
    let mut bytes = Vec::new(alloc);
    let mut input = rt.stdin();
    input.read_to_end(&mut bytes)?;
    let mut out = rt.stdout();
    let mut rest: &[u8] = &bytes;
    for _ in 0..1_000_000 {
        let Some((asked, after)) = next_request(rest) else {
            return Ok(());
        };
        answer(alloc, &asked, &mut out)?;
        rest = after;
    }
    Ok(())
}
