//! The library for C. Its header, `include/metaplay.h`, declares these functions and says what they assume of a caller.
//!
//! # What is promised
//!
//! - Each function calls one of `buffer_calls`, and its contract is that of the call: the answer has the numbers of an
//!   outcome that the call may have (`metaplay_check`, `metaplay_prepare`, `metaplay_play`, `metaplay_play_rows`, `metaplay_over`, by `Reports`;
//!   `metaplay_prepare_print`, by `ReportsPrepared`; `metaplay_fault_name`, by `ReportsName`).
//! - The sides that fit a file's frame are written only if there are such sides (`metaplay_fitted_sides`, by
//!   `ReportsSides`).
//! - What a certificate says of every play is written only if its bytes are a certificate
//!   (`metaplay_certificate_terms`, by `ReportsTerms`).
//! - No function has a `requires`: each answers for any bytes, lengths, numbers and buffers.
#![tactic(auto)]

mod answers;
mod calls;

pub use answers::{Answer, CertificateTerms, SurfaceRows, SurfaceSides};
pub use calls::{
    metaplay_certificate_terms, metaplay_check, metaplay_fault_name, metaplay_fitted_sides,
    metaplay_over, metaplay_play, metaplay_play_rows, metaplay_prepare, metaplay_prepare_print,
};
