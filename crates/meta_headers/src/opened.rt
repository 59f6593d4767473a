//! Opened files.

ghost use Rattle.std.specs.Prelude.{◌≡◌, ◌*◌, ◌≤◌, length};
ghost use Rattle.draw_ops.specs.Records.{record_limit};
ghost use Rattle.meta_headers.specs.OpeningRules.{parts_of_unit};

use crate::source::Source;
use draw_ops::{NoteSet, Rules};
use emf_records::EmfOps;
use mapping::{Frame, PageMap, part_law};
use wmf_records::WmfOps;

/// The formats of metafiles.
#[derive(Clone, Copy, Debug, PartialEq, Eq)]
pub enum FileFormat {
    /// WMF with a META_PLACEABLE ([MS-WMF] 2.3.2.3) before its header.
    Placeable,
    /// WMF that begins with META_HEADER ([MS-WMF] 2.3.2.2).
    Plain,
    /// EMF, which begins with EMR_HEADER ([MS-EMF] 2.3.4.2).
    Emf,
}

/// An opened file: what its headers say, and its records.
#[derive(Clone, Copy, Debug, PartialEq, Eq)]
pub struct Opened<'a> {
    pub format: FileFormat,
    /// The rules in force.
    pub rules: Rules,
    /// What a surface shows. Its sides count units: pixels of the device, or units of a placeable file's box.
    pub frame: Frame,
    /// The same frame, with its sides counted in parts of a unit. Under the core profile a unit has one part.
    pub fine_frame: Frame,
    /// The page map before the first record.
    pub start_map: PageMap,
    /// For EMF, the number of object indexes that the file may use, including the unused index 0.
    pub handles: Option<u16>,
    /// The notes of the headers.
    pub notes: NoteSet,
    /// The bytes from record 0 on.
    pub records: &'a [u8],
}

impl<'a> Opened<'a> {
    ghost use Rattle.meta_headers.specs.OpeningRules.{reopened};
    ghost use Rattle.meta_headers.specs.OpenedOf.{opened_of};
    ghost use Rattle.meta_headers.specs.Opening.{HasContentOf};
    ghost use Rattle.meta_headers.specs.SourceContent.{source_content};

    /// The same file, opened under other rules.
    pub fn by(self, rules: Rules) -> Opened<'a>
        ensures value { opened_of result ≡ reopened rules (opened_of self.entry) }
        ensures records { result.records.now ≡ self.entry.records.now }
    {
        Opened {
            format: self.format,
            rules: rules.in_force(),
            frame: self.frame,
            fine_frame: frame_by(rules, &self.frame),
            start_map: self.start_map.in_parts(parts_of_unit(rules, &self.frame)),
            handles: self.handles,
            notes: self.notes,
            records: self.records,
        }
    }

    /// How many parts a unit of the frame has.
    pub fn parts(&self) -> u16
        ensures { result ≡ self.now.start_map.parts }
    {
        self.start_map.parts
    }

    /// The source of the file's steps, from record 0 on.
    pub fn source(self) -> Source<'a>
        ensures content { HasContentOf self.entry.format self.entry.records.now (source_content result) }
        ensures short { length (source_content result).steps ≤ record_limit }
    {
        match self.format {
            FileFormat::Placeable => Source::Wmf(WmfOps::new(self.records)),
            FileFormat::Plain => Source::Wmf(WmfOps::new(self.records)),
            FileFormat::Emf => Source::Emf(EmfOps::new(self.records)),
        }
    }
}

/// How many parts a unit of the frame has under these rules.
fn parts_of_unit(rules: Rules, frame: &Frame) -> u16
    ensures value { result ≡ parts_of_unit rules frame.now.width frame.now.height }
    ensures some { 1 ≤ result }
    ensures few { result ≤ 4096 }
{
    part_law();
    if rules.is_print() { frame.parts() } else { 1 }
}

/// The frame, with its sides counted in parts under these rules.
fn frame_by(rules: Rules, frame: &Frame) -> Frame
    ensures width { result.width ≡ frame.now.width * parts_of_unit rules frame.now.width frame.now.height }
    ensures height { result.height ≡ frame.now.height * parts_of_unit rules frame.now.width frame.now.height }
{
    if rules.is_print() {
        frame.fine()
    } else {
        *frame
    }
}
