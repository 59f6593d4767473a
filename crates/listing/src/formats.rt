//! Where the records of a file begin.

ghost use Rattle.std.specs.Prelude.{◌≡◌, ◌≤◌};
ghost use Rattle.meta_headers.specs.Opening.{record_bytes};
ghost use Rattle.listing.specs.Formats.{first_place};

use meta_headers::FileFormat;

/// The offset of record 0 in bytes.
pub fn first_place(format: FileFormat) -> usize
    ensures value { result ≡ first_place format }
    ensures few { result ≤ 40 }
{
    match format {
        FileFormat::Placeable => 40,
        FileFormat::Plain => 18,
        FileFormat::Emf => 0,
    }
}

/// The bytes of a file from record 0 on. Empty if the file is shorter.
pub fn records_in(format: FileFormat, file: &[u8]) -> &[u8]
    ensures { result.now ≡ record_bytes format file.now }
{
    let place = first_place(format);
    if file.len() < place {
        return &[];
    }
    let (_, records) = file.split_at(place);
    records
}
