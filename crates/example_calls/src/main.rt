//! Lists the records of a file that is rejected. Certifies another file, checks file and certificate as the receiver
//! would, and plays the file on a grey background.
#![tactic(auto)]

use canvas::Canvas;
use draw_ops::Rules;
use listing::{DryRun, write_listing};
use mapping::Colour;
use player::play;
use preflight_cert::{check, prepare};
use std::{fs, io};

const GREY: Colour = Colour {
    r: 128,
    g: 128,
    b: 128,
};

fn main(rt: HostRuntime) -> io::Result<()> {
    let held = fs::read(&rt, "held.wmf")?;
    let Ok(dry_run) = DryRun::new(rt.alloc(), Rules::CORE, &held) else {
        return Err(io::ErrorKind::OutOfMemory.into());
    };
    let Ok(_) = write_listing(&held, dry_run, &mut rt.stdout()) else {
        return Err(io::ErrorKind::WriteZero.into());
    };
    match prepare(rt.alloc(), &held, 256, 256) {
        Ok(_) => println!(rt; "held.wmf plays")?,
        Err(refusal) => println!(rt; "held.wmf is rejected: {refusal}")?,
    }
    let small = fs::read(&rt, "small.wmf")?;
    let certificate = match prepare(rt.alloc(), &small, 256, 256) {
        Ok(certificate) => certificate,
        Err(refusal) => return println!(rt; "small.wmf is rejected: {refusal}"),
    };
    let cleared = match check(rt.alloc(), &small, &certificate) {
        Ok(cleared) => cleared,
        Err(refusal) => return println!(rt; "small.wmf is rejected: {refusal}"),
    };
    let (records, writes) = (cleared.records, cleared.certificate.writes);
    println!(rt; "small.wmf is accepted: {records} records, at most {writes} pixel writes")?;
    let Ok(mut canvas) = Canvas::new(rt.alloc(), 16, 8, GREY) else {
        return Err(io::ErrorKind::OutOfMemory.into());
    };
    match play(rt.alloc(), &cleared, &mut canvas) {
        Ok(_) => canvas
            .write_ppm(&mut rt.stdout())
            .map_err(|_| io::ErrorKind::WriteZero.into()),
        Err(fault) => println!(rt; "{fault}"),
    }
}
