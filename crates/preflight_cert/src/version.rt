//! The versions of certificates.

ghost use Rattle.std.specs.Prelude.{◌≡◌};
ghost use Rattle.preflight_cert.specs.CertificateReading.{entry_size, signature_of, version_of};

/// What the entries of a certificate contain. Its first four bytes determine the version.
#[derive(Clone, Copy, Debug, PartialEq, Eq)]
pub enum Version {
    /// `MPC1`: an entry takes 20 bytes and has no nib. The nib of each drawing is one pixel.
    Mpc1,
    /// `MPC2`: an entry takes 24 bytes, and the last four are its nib.
    Mpc2,
}

impl Version {
    /// The version of a certificate by its first four bytes, read as a number.
    #[tactic(auto, unfolding(crate::specs::CertificateReading::signature_of))]
    pub(crate) fn of_signature(signature: u32) -> Option<Version>
        ensures { result ≡ version_of signature }
    {
        if signature == Version::Mpc1.signature() {
            Some(Version::Mpc1)
        } else if signature == Version::Mpc2.signature() {
            Some(Version::Mpc2)
        } else {
            None
        }
    }

    /// The first four bytes, as a number.
    #[tactic(auto, unfolding(crate::specs::CertificateReading::signature_of))]
    pub(crate) fn signature(self) -> u32
        ensures { result ≡ signature_of self }
    {
        match self {
            Version::Mpc1 => 0x3143_504d,
            Version::Mpc2 => 0x3243_504d,
        }
    }

    /// The number of bytes in an entry.
    pub(crate) fn entry_size(self) -> usize
        ensures { result ≡ entry_size self }
    {
        match self {
            Version::Mpc1 => 20,
            Version::Mpc2 => 24,
        }
    }
}
