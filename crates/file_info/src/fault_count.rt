//! How often a fault occurs.

use draw_ops::Fault;

/// How often a fault occurs.
#[derive(Clone, Copy, Debug, PartialEq, Eq)]
pub struct FaultCount {
    pub fault: Fault,
    pub count: u32,
}
