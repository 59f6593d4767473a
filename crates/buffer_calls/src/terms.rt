//! What a certificate says of every play.

ghost use Rattle.std.specs.Prelude.{◌≡◌};
ghost use Rattle.buffer_calls.specs.CertifiedTerms.{terms_result};

use draw_ops::Fault;
use preflight_cert::Certificate;

/// The bound of a certificate in pixels, and the most pixels that a play by it writes. A pixel that is written twice
/// counts twice.
#[derive(Clone, Copy, Debug, PartialEq, Eq)]
pub struct Terms {
    pub max_width: u32,
    pub max_height: u32,
    pub writes: u64,
}

/// Reads what a certificate says of every play, without a file. Fails with the first fault of its bytes.
pub fn terms_of(certificate: &[u8]) -> Result<Terms, Fault>
    ensures { result ≡ terms_result certificate.now }
{
    match Certificate::read(certificate) {
        Ok(read) => Ok(Terms {
            max_width: read.max_width,
            max_height: read.max_height,
            writes: read.writes,
        }),
        Err(fault) => Err(fault),
    }
}
