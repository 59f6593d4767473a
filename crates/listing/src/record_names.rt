//! The standard's names of records.

ghost use Rattle.std.specs.Prelude.{◌≡◌, ◌≤◌, IfSome, length};
ghost use Rattle.std.specs.Option.{option_map};
ghost use Rattle.listing.specs.RecordNames.{record_name};

use crate::emf_names::type_name;
use crate::wmf_names::function_name;
use meta_headers::FileFormat;

/// The standard's name of a function or a type in a file of this format. `None` exactly if it has none.
pub fn record_name(format: FileFormat, kind: u32) -> Option<&'static str>
    ensures name { option_map (λ name. name.now) result ≡ record_name format kind }
    ensures short { IfSome result (λ name. length name.now ≤ 27) }
{
    match format {
        FileFormat::Placeable => function_name(kind),
        FileFormat::Plain => function_name(kind),
        FileFormat::Emf => type_name(kind),
    }
}
