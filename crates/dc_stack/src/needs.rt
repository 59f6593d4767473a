//! The memory needs of a run.

ghost use Rattle.std.specs.Prelude.{◌≡◌, ◌<◌, ◌^◌};

/// The needs of a run, each the greatest that occurred: saved states at a time, slots of objects (the greatest index
/// plus 1), points of one drawing, and pieces of a path at a time.
#[derive(Clone, Copy, Debug, PartialEq, Eq)]
pub struct Needs {
    pub depth: u32,
    pub slots: u32,
    pub edges: u32,
    pub pieces: u32,
}

impl Needs {
    ghost use Rattle.dc_stack.specs.Needs.{depth_needed, greater_needs, no_needs, pieces_needed, points_needed, slots_needed};

    /// No needs.
    pub(crate) fn none() -> Needs
        ensures { result ≡ no_needs }
    {
        Needs {
            depth: 0,
            slots: 0,
            edges: 0,
            pieces: 0,
        }
    }

    /// Raises the number of saved states at a time to at least this.
    pub(crate) fn raise_depth(&mut self, depth: u32)
        ensures { self.new ≡ greater_needs self.old (depth_needed depth) }
    {
        self.depth = self.depth.max(depth);
    }

    /// Raises the number of slots so that this index has one.
    pub(crate) fn raise_slots(&mut self, index: u32)
        requires { index < 2 ^ 16 }
        ensures { self.new ≡ greater_needs self.old (slots_needed index) }
    {
        self.slots = self.slots.max(index + 1);
    }

    /// Raises the number of points of one drawing to at least this.
    pub(crate) fn raise_edges(&mut self, edges: u32)
        ensures { self.new ≡ greater_needs self.old (points_needed edges) }
    {
        self.edges = self.edges.max(edges);
    }

    /// Raises the number of pieces of a path at a time to at least this.
    pub(crate) fn raise_pieces(&mut self, pieces: u32)
        ensures { self.new ≡ greater_needs self.old (pieces_needed pieces) }
    {
        self.pieces = self.pieces.max(pieces);
    }
}
