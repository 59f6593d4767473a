//! The pixels of a line within a region, step by step.

ghost use Rattle.std.specs.Prelude.{◌≡◌, ◌↔◌, ◌<◌, ◌≤◌, IsTrue};
ghost use Rattle.span_fill.specs.Lines.{HasNearEnds};
ghost use Rattle.span_fill.specs.Steps.{GivesNumbered, GivesPixel, HasAllSteps, TakesNumbered};

use crate::axes::{
    fixed_within, major_along, numbered_within, runs_y_major, steps_within, walk_within,
};
use crate::fixed_walk::{FixedWalk, pixel_at};
use crate::grid::Grid;
use crate::line::Line;
use crate::numbering::Numbering;
use crate::pixel::{NumberedPixel, Pixel};
use crate::span::Region;
use std::marker::Model;

/// The pixels of a line within a region, in the order of the line's steps along its major axis, from its first point
/// on.
///
/// # Guarantees
///
/// - The pixel of each remaining step is within the region.
#[derive(Debug, Drop)]
pub struct LineSteps {
    line: Line,
    region: Region,
    grid: Grid,
    /// The position of the pixel of step `next`, if a step remains.
    position: FixedWalk,
    /// The number on the grid of the pixel at that position.
    numbering: Numbering,
    next: u32,
    end: u32,
    y_major: bool,
}

impl Model for LineSteps {
    ghost use Rattle.span_fill.specs.Steps.{StepsState};

    ghost Value = { StepsState };

    ghost view = { λ a. record { line = a.line; region = a.region; grid = a.grid; next = a.next; end = a.end } };

    ghost use Rattle.span_fill.specs.StepsInside.{AreSteps};

    ghost invariant = { AreSteps };
}

impl LineSteps {
    /// The pixels of a line that lie in a region. A line of at most 16,384 steps with both ends in the region costs one
    /// division, and any other at most seven.
    pub fn new(line: Line, region: Region) -> LineSteps
        requires near { HasNearEnds line }
        requires columns { region.columns.to ≤ 8192 }
        requires rows { region.rows.to ≤ 8192 }
        ensures line { result.line ≡ line }
        ensures region { result.region ≡ region }
        ensures all { HasAllSteps result }
    {
        LineSteps::numbered(
            line,
            region,
            Grid {
                stride: 0,
                first: 0,
            },
        )
    }

    /// The same pixels, with their numbers on a grid.
    pub fn numbered(line: Line, region: Region, grid: Grid) -> LineSteps
        requires near { HasNearEnds line }
        requires columns { region.columns.to ≤ 8192 }
        requires rows { region.rows.to ≤ 8192 }
        ensures line { result.line ≡ line }
        ensures region { result.region ≡ region }
        ensures grid { result.grid ≡ grid }
        ensures all { HasAllSteps result }
    {
        let y_major = runs_y_major(line);
        let major = major_along(line, y_major);
        let clip = steps_within(major, region, y_major);
        let walk = walk_within(major, clip);
        let position = fixed_within(clip, walk);
        LineSteps {
            line,
            region,
            grid,
            position,
            numbering: numbered_within(grid, clip, position, y_major),
            next: clip.from,
            end: clip.to,
            y_major,
        }
    }

    /// Whether no step remains.
    pub fn is_empty(&self) -> bool
        ensures { IsTrue result ↔ (self.now.end ≤ self.now.next) }
    {
        self.next >= self.end
    }

    /// The pixel of the next step, or `None` after the last one.
    pub fn next(&mut self) -> Option<Pixel>
        ensures { GivesPixel self.old result self.new }
    {
        match self.next_numbered() {
            Some(numbered) => Some(numbered.pixel),
            None => None,
        }
    }

    /// The pixel of the next step with its number on the grid, or `None` after the last one.
    pub fn next_numbered(&mut self) -> Option<NumberedPixel>
        ensures { GivesNumbered self.old result self.new }
    {
        if self.next >= self.end {
            return None;
        }
        Some(self.take())
    }

    /// The pixel of the next step, with its number.
    fn take(&mut self) -> NumberedPixel
        requires { self.old.next < self.old.end }
        ensures { TakesNumbered self.old self.new result }
    {
        let v = self.position.v();
        let numbered = NumberedPixel {
            pixel: pixel_at(self.position.u, v, self.y_major),
            number: self.numbering.at(v),
        };
        self.position = self.position.advanced();
        self.numbering = self.numbering.moved();
        self.next += 1;
        numbered
    }
}
