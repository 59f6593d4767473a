//! Finds out what is known of a file without a certificate.

ghost use Rattle.std.specs.Prelude.{◌≡◌, ◌↔◌, IfOk, true};
ghost use Rattle.meta_headers.specs.Opening.{opened};
ghost use Rattle.file_info.specs.Info.{IsInfoOf, IsPlaying, PlaysEverywhere, is_playing, sizes_if};

use crate::counting::count_records;
use crate::description::description;
use crate::info::FileInfo;
use crate::paper::Sizes;
use crate::playing::Playing;
use crate::sizing::sizes;
use canvas::OutOfMemory;
use draw_ops::{Fault, Rules, content_law};
use mapping::MAX_SURFACE_SIDE;
use meta_headers::{FileFormat, open_file, opening_law};
use preflight_cert::{Prepared, run_law, size_law};
use std::alloc::Global;

/// What is known of a file under these rules: its format, the sizes and the text in its headers, its records, notes and
/// faults, and how its run on the largest surface ends. A file whose run there has no fault plays on every surface.
pub fn file_info(alloc: Global, rules: Rules, file: &[u8]) -> Result<FileInfo, OutOfMemory>
    ensures info { IfOk result (IsInfoOf rules file.now) }
    ensures plays { IfOk result (λ info. is_playing info.playing ≡ true ↔ PlaysEverywhere rules file.now) }
{
    let totals = count_records(alloc, rules, file)?;
    let playing = playing(alloc, rules, file)?;
    let format = FileFormat::of(file);
    let Ok(description) = description(alloc, format, file) else {
        return Err(OutOfMemory);
    };
    Ok(FileInfo {
        rules,
        format,
        sizes: sizes_if_opened(file),
        description,
        totals,
        playing,
    })
}

/// The sizes that a file's headers give. `None` if they have a fault.
fn sizes_if_opened(file: &[u8]) -> Option<Sizes>
    ensures { result ≡ sizes_if (opened file.now) file.now }
{
    match open_file(file) {
        Ok(opened) => Some(sizes(file, &opened)),
        Err(_) => None,
    }
}

/// How the file's run under these rules on the largest surface ends.
fn playing(alloc: Global, rules: Rules, file: &[u8]) -> Result<Playing, OutOfMemory>
    ensures is { IfOk result (IsPlaying rules file.now) }
    ensures everywhere { IfOk result (λ playing. is_playing playing ≡ true ↔ PlaysEverywhere rules file.now) }
{
    content_law();
    opening_law();
    run_law();
    size_law();
    match Prepared::new(alloc, rules, file, MAX_SURFACE_SIDE, MAX_SURFACE_SIDE) {
        Ok(prepared) => {
            let cleared = prepared.clear();
            Ok(Playing::Plays {
                drawings: cleared.certificate.len() as u64,
                objects: cleared.certificate.needs.slots,
                uses: cleared.uses,
            })
        }
        Err(refusal) => {
            if refusal.fault == Fault::OutOfMemory {
                return Err(OutOfMemory);
            }
            Ok(Playing::Stops(refusal))
        }
    }
}
