//! The clip: which pixels drawings may write.

ghost use Rattle.std.specs.Prelude.{◌≡◌, ◌<◌, length, nat_lt, take};
ghost use Rattle.std.specs.List.{list_any};
ghost use Rattle.mapping.specs.PixelBoxes.{in_box};
ghost use Rattle.dc_stack.specs.Clip.{cut_limit, in_boxes, in_kept, unclipped, with_cut, with_kept};

use mapping::Rect;

/// The most boxes that are cut out at a time.
const CUT_LIMIT: usize = 16;

/// A box of the plane, and its position on the surface, which includes its left and top edges and excludes its right
/// and bottom ones. The edges of an empty box may be out of order.
#[derive(Clone, Copy, Debug, PartialEq, Eq)]
pub struct ClipBox {
    pub plane: Rect,
    pub placed: Rect,
}

/// One kept box or none, and up to sixteen boxes that are cut out of it.
#[derive(Clone, Copy, Debug)]
pub struct Clip {
    /// The kept box. `None` if everything is kept except what the cuts remove.
    pub kept: Option<ClipBox>,
    /// The boxes that are cut out: the first `count` of these.
    pub cuts: [ClipBox; CUT_LIMIT],
    pub count: usize,
}

impl Clip {
    ghost use Rattle.dc_stack.specs.Values.{clip_value, cuts_of, placed_value};

    /// The clip that clips nothing.
    pub(crate) fn none() -> Clip
        ensures plane { clip_value result ≡ unclipped }
        ensures placed { placed_value result ≡ unclipped }
    {
        let nothing = Rect {
            l: 0,
            t: 0,
            r: 0,
            b: 0,
        };
        let unused = ClipBox {
            plane: nothing,
            placed: nothing,
        };
        Clip {
            kept: None,
            cuts: [unused; CUT_LIMIT],
            count: 0,
        }
    }

    /// Whether one more box can be cut out.
    pub(crate) fn may_be_cut(&self) -> bool
        ensures test { result ≡ nat_lt (length (clip_value self.now).cuts) cut_limit }
        ensures place { result ≡ nat_lt self.now.count cut_limit }
    {
        self.count < CUT_LIMIT
    }

    /// Intersects the clip with a box.
    pub(crate) fn keep(&mut self, kept: ClipBox)
        ensures plane { clip_value self.new ≡ with_kept kept.plane (clip_value self.old) }
        ensures placed { placed_value self.new ≡ with_kept kept.placed (placed_value self.old) }
    {
        self.kept = Some(match self.kept {
            None => kept,
            Some(before) => ClipBox {
                plane: before.plane.common(kept.plane),
                placed: before.placed.common(kept.placed),
            },
        });
    }

    /// Cuts a box out.
    pub(crate) fn cut(&mut self, cut: ClipBox)
        requires { self.old.count < cut_limit }
        ensures plane { clip_value self.new ≡ with_cut cut.plane (clip_value self.old) }
        ensures placed { placed_value self.new ≡ with_cut cut.placed (placed_value self.old) }
    {
        self.cuts[self.count] = cut;
        self.count += 1;
    }

    /// Whether drawings may write the pixel `(x, y)` of the surface.
    pub fn has(&self, x: u32, y: u32) -> bool
        ensures { result ≡ in_boxes (placed_value self.now) x y }
    {
        self.keeps(x, y) && !self.cuts_out(x, y)
    }

    /// The boxes that are cut out, in the order in which they were.
    pub fn cut_boxes(&self) -> &[ClipBox]
        ensures { result.now ≡ cuts_of self.now }
    {
        let count = self.count.min(CUT_LIMIT);
        &self.cuts[..count]
    }

    /// Whether the kept box contains the pixel; true if there is none.
    fn keeps(&self, x: u32, y: u32) -> bool
        ensures { result ≡ in_kept (placed_value self.now).kept x y }
    {
        match self.kept {
            None => true,
            Some(kept) => kept.placed.has_pixel(x, y),
        }
    }

    /// Whether a box that is cut out contains the pixel.
    fn cuts_out(&self, x: u32, y: u32) -> bool
        ensures { result ≡ list_any (λ cut. in_box cut x y) (placed_value self.now).cuts }
    {
        any_contains(&self.cuts, self.count, x, y)
    }
}

/// Whether one of the first `count` boxes contains the pixel `(x, y)`.
fn any_contains(boxes: &[ClipBox], count: usize, x: u32, y: u32) -> bool
    ensures { result ≡ list_any (λ cut. in_box cut.placed x y) (take count boxes.now) }
{
    boxes
        .iter()
        .take(count)
        .any(|cut| cut.placed.has_pixel(x, y))
}
