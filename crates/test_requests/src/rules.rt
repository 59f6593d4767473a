//! The rules of a request.

use draw_ops::{Allowances, Rules};

/// The rules with a number: the core profile's is 0; the print profile's is 4, with 1 more if held deletions are allowed,
/// and 2 more if EMF+ alone is.
pub(crate) fn rules_of(number: u32) -> Rules {
    match Allowances::from_bits(number % 4) {
        Some(allowed) if number >= 4 => Rules::print(allowed),
        _ => Rules::CORE,
    }
}
