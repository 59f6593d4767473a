//! What a file uses of what its rules can allow.

/// How often a file does what only rules that allow it accept. Under the core profile both are 0.
#[derive(Clone, Copy, Debug, PartialEq, Eq)]
pub struct Uses {
    /// The number of deletions of objects that were selected.
    pub held_deletion: u32,
    /// 1 if the file contains EMF+ and its own records draw nothing, otherwise 0.
    pub emf_plus: u32,
}

impl Uses {
    /// Nothing is used.
    pub const NONE: Uses = Uses {
        held_deletion: 0,
        emf_plus: 0,
    };
}
