//! The program's version. This file is written by `launcher/version`.

/// The line that `--version` writes: the version, and the checksum of all sources but this one.
pub(crate) const VERSION: &str =
    "metaplay 1.1.0 (sources b917e58eda7855ba57e55e33b327efd7ba5c9ebf5e9be615f3ff7b509ef598ce)\n";
