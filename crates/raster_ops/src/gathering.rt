//! Reading source colours along a row.

ghost use Rattle.std.specs.Prelude.{◌≡◌, ◌<◌, ◌≤◌, ◌+◌, pos, ◌+ℤ◌, ◌≤ℤ◌, true, false, length};
ghost use Rattle.raster_ops.specs.Gathered.{AreAt, AreKeptOutside, HaveBytes};

use crate::sources::AxisReading;
use crate::steps::ColumnSteps;
use dib_views::DibRow;
use mapping::Colour;

impl AxisReading {
    ghost use Rattle.raster_ops.specs.Readers.{colour_in};

    /// Writes the colours that the columns from one to before another read in a bitmap's row to `out`, each at its
    /// column.
    pub(crate) fn gather(self, line: &DibRow<'_>, from: u32, to: u32, out: &mut [Colour])
        requires wide { self.first + self.count ≤ line.now.width }
        requires ordered { from ≤ to }
        requires capacity { to ≤ length out.old }
        requires from { self.near ≤ℤ pos from }
        requires to { pos to ≤ℤ (self.near +ℤ pos self.side) }
        ensures colours { AreAt (colour_in self line.now) from to out.new }
        ensures parts { HaveBytes from to out.new }
        ensures others { AreKeptOutside from to out.old out.new }
    {
        if from == to {
            return;
        }
        if self.mirrored {
            self.gather_mirrored(line, from, to, out);
        } else {
            self.gather_straight(line, from, to, out);
        }
    }

    /// The same, if the bitmap isn't mirrored.
    fn gather_straight(self, line: &DibRow<'_>, from: u32, to: u32, out: &mut [Colour])
        requires straight { self.mirrored ≡ false }
        requires wide { self.first + self.count ≤ line.now.width }
        requires ordered { from < to }
        requires capacity { to ≤ length out.old }
        requires from { self.near ≤ℤ pos from }
        requires to { pos to ≤ℤ (self.near +ℤ pos self.side) }
        ensures colours { AreAt (colour_in self line.now) from to out.new }
        ensures parts { HaveBytes from to out.new }
        ensures others { AreKeptOutside from to out.old out.new }
    {
        let mut steps = ColumnSteps::new(self.count, self.side, self.place(from));
        for x in from..to {
            out[x as usize] = line.colour(self.first + steps.column());
            steps = steps.next();
        }
    }

    /// The same, if it is mirrored: the bitmap's columns are read in order, for the surface's columns in descending
    /// order.
    fn gather_mirrored(self, line: &DibRow<'_>, from: u32, to: u32, out: &mut [Colour])
        requires mirrored { self.mirrored ≡ true }
        requires wide { self.first + self.count ≤ line.now.width }
        requires ordered { from < to }
        requires capacity { to ≤ length out.old }
        requires from { self.near ≤ℤ pos from }
        requires to { pos to ≤ℤ (self.near +ℤ pos self.side) }
        ensures colours { AreAt (colour_in self line.now) from to out.new }
        ensures parts { HaveBytes from to out.new }
        ensures others { AreKeptOutside from to out.old out.new }
    {
        let last = to - 1;
        let mut steps = ColumnSteps::new(self.count, self.side, self.side - 1 - self.place(last));
        for k in 0..to - from {
            out[(last - k) as usize] = line.colour(self.first + steps.column());
            steps = steps.next();
        }
    }
}
