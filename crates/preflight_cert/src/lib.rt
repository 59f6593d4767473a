//! What drawings paint, how the records of a file change an image, why a file is rejected, and certificates.
//!
//! # What is promised
//!
//! - A run ends in only one way, and whether it is rejected doesn't depend on the image that it starts from. At any
//!   point of it the objects are sorted by index (`run_law`).
//! - A drawing writes only pixels of a box that contains its points, and so at most the budget of its layers by that
//!   box, on this surface and on each that is no larger (`drawing_box_law`).
//! - Records without a fault at one size have none at a smaller one, and their drawings write no more pixels there than
//!   the budget of entries that cover them (`size_law`).
//! - Drawing on two consecutive parts of some rows separately gives the same image as drawing on all of these rows at
//!   once, and the counts of writes add up (`rows_law`). Rows that a drawing's box misses are unchanged, and nothing is
//!   counted there (`missed_rows_law`).
//! - Capacity for an operation's needs is enough for it, and full capacity is enough for any operation (`need_law`).
//! - A certificate is read in full or rejected with the first fault of its bytes (`Certificate::read`), and its entries
//!   are those in the bytes, by index and from the first one on (`Certificate::entry`, `Entries`). Whether a nib has more
//!   than one pixel is found by reading them (`Certificate::has_wide_nib`).
//! - There is exactly one answer to a file and a certificate. It is `accepted` exactly if the certificate fits the
//!   file's records, and then the file is sound within the certificate's bound and writes (`answer_law`). `check`
//!   returns that answer, or `OutOfMemory`, which is possible only if the file opens and the certificate can be read.
//! - A file and a certificate that was accepted for it (`Cleared`) carry the result of `check`: the certificate fits
//!   the file's records, and these are counted. The file was opened under the certificate's rules. So it is sound within
//!   the certificate's bound and writes (`cleared_law`).
//! - A prepared certificate is accepted. There is only one for a file and a bound, and no other accepted one asks for
//!   less (`prepare`, `preparation_law`). So it is cleared without a check (`Prepared::clear`).
//! - A file that plays at a bound has a certificate for it. What is prepared for a file is a certificate with all
//!   numbers within their limits, and is accepted (`prepared_law`).
//! - Under the core profile a run stops only in a step, or where the records break, and uses nothing that can be
//!   allowed. A unit has one part throughout, and a certificate's text is that of its version (`core_law`).
//! - Reading returns what was written, and bytes that are read are the text of what they describe (`text_law`).
#![tactic(auto)]

mod budget;
mod certificate;
mod certificate_entry;
mod certificate_reading;
mod checking;
mod cleared;
mod covering;
mod draft;
mod emf_plus;
mod entry_check;
mod entry_gathering;
mod laws;
mod prepared;
mod preparing;
mod refusal;
mod stepping;
mod uses;
mod version;
mod widening;
mod writing;

pub use certificate::Certificate;
pub use certificate_entry::{Entries, Entry};
pub use checking::check;
pub use cleared::Cleared;
pub use emf_plus::EmfPlus;
pub use laws::{
    answer_law, cleared_law, core_law, drawing_box_law, missed_rows_law, need_law, preparation_law,
    prepared_law, rows_law, run_law, size_law, text_law,
};
pub use prepared::Prepared;
pub use preparing::{prepare, prepare_by};
pub use refusal::Refusal;
pub use uses::Uses;
pub use version::Version;
