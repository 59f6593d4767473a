//! The path of a file's certificate.

ghost use Rattle.std.specs.Prelude.{◌≡◌, IfOk, option_map, string_bytes};
ghost use Rattle.commands.specs.CertifyLines.{certificate_path};

use std::alloc::{AllocError, Global};
use std::path::Path;

/// The path of a file's certificate in a folder: the last part of the file's name, and `.mpc`. `None` if a path has no
/// such part, as `..` has none.
pub(crate) fn certificate_path(
    alloc: Global,
    folder: &str,
    name: &str,
) -> Result<Option<String>, AllocError>
    ensures { IfOk result (λ path. option_map string_bytes path ≡ certificate_path folder.now name.now) }
{
    let Some(last) = Path::new(name).file_name() else {
        return Ok(None);
    };
    let mut last = String::from_str(alloc, last)?;
    last.push_str(".mpc")?;
    let path = Path::new(folder).join(alloc, last.as_str())?;
    Ok(Some(path.into_string()))
}
