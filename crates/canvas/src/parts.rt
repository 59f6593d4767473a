//! Filling and changing the colours of a part of a row.

ghost use Rattle.std.specs.Prelude.{◌≡◌, ℕ, ◌+◌, ◌-◌, ◌%◌, ◌<◌, ◌≤◌, ◌==◌, length, slice_index_or, if◌then◌else◌};
ghost use Rattle.std.specs.Int.{bit_at};
ghost use Rattle.mapping.specs.declared.geometry.Colour.{Colour};
ghost use Rattle.mapping.specs.Mixes.{mixed_by};
ghost use Rattle.mapping.specs.Pixels.{count_indexes, is_cell};
ghost use Rattle.canvas.specs.MixRows.{mix_at};
ghost use Rattle.canvas.specs.PartsMade.{ChangedWhere, EachIs, EachMixed};

use crate::pixel_change::PixelChange;
use crate::splat::Splat;
use crate::stripes::Stripes;
use mapping::{Colour, Mix};

/// The number of repeating colours.
const PERIOD: usize = 8;

/// With so many colours a copy of any size takes less time than copies of eight.
const BLOCK: usize = 256;

/// Fills the part, whose first colour is in this column, with the stripes' colours, each at its column modulo 8, by
/// copies of eight. The last copy is aligned to the end of the part.
pub(crate) fn fill_with_stripes(part: &mut [Colour], column: u32, stripes: &Stripes)
    ensures { EachIs (length part.old) part.new (λ k any. slice_index_or stripes.now.twice ((column + k) % 8) any) }
{
    if part.len() < PERIOD {
        put_few_stripes(part, column, stripes);
        return;
    }
    repeat_whole(part, stripes.eight_from(rotated(column, 0)));
    let last = part.len() - PERIOD;
    copy_at(
        part,
        last,
        stripes.eight_from(rotated(column, last % PERIOD)),
    );
}

/// The same for a few colours.
fn put_few_stripes(part: &mut [Colour], column: u32, stripes: &Stripes)
    requires { length part.old ≤ 8 }
    ensures { EachIs (length part.old) part.new (λ k any. slice_index_or stripes.now.twice ((column + k) % 8) any) }
{
    let first = rotated(column, 0);
    for k in 0..part.len() {
        part[k] = stripes.twice[first + k];
    }
}

/// Fills the part with one colour: some of it by copies of eight, then the rest by copies of these.
pub(crate) fn fill_with(part: &mut [Colour], splat: &Splat)
    ensures { EachIs (length part.old) part.new (λ k any. splat.now.colour) }
{
    if part.len() < PERIOD {
        put_few(part, splat.colour);
        return;
    }
    let first = part.len().min(BLOCK);
    fill_by_eights(&mut part[..first], splat);
    repeat_first(part, first);
}

/// Fills the part with one colour, by copies of eight. The last copy is aligned to the end of the part.
fn fill_by_eights(part: &mut [Colour], splat: &Splat)
    requires { 8 ≤ length part.old }
    ensures { EachIs (length part.old) part.new (λ k any. splat.now.colour) }
{
    repeat_whole(part, &splat.eight);
    let last = part.len() - PERIOD;
    copy_at(part, last, &splat.eight);
}

/// Fills the part with the colour that all of the first colours have.
fn repeat_first(part: &mut [Colour], first: usize)
    requires some { 1 ≤ first }
    requires within { first ≤ length part.old }
    ensures { (ink : Colour) → EachIs first part.old (λ k any. ink) → EachIs (length part.old) part.new (λ k any. ink) }
{
    let mut filled = first;
    while filled < part.len() {
        let (done, rest) = part.split_at_mut(filled);
        let count = first.min(rest.len());
        rest[..count].copy_from_slice(&done[..count]);
        filled += count;
    }
}

/// Sets a few colours to this one.
fn put_few(part: &mut [Colour], colour: Colour)
    ensures { EachIs (length part.old) part.new (λ k any. colour) }
{
    for k in 0..part.len() {
        part[k] = colour;
    }
}

/// Fills the part with whole copies of the eight colours, and returns how many colours were filled. The compiler knows
/// their size, so this is faster than single colours or copies of other sizes.
fn repeat_whole(part: &mut [Colour], colours: &[Colour; PERIOD]) -> usize
    ensures within { result ≤ length part.old }
    ensures all_but_few { length part.old < result + 8 }
    ensures colours { EachIs result part.new (λ k any. slice_index_or colours.now (k % 8) any) }
{
    let mut filled = 0;
    while filled + PERIOD <= part.len() {
        copy_at(part, filled, colours);
        filled += PERIOD;
    }
    filled
}

/// Copies the eight colours to this index of the part.
fn copy_at(part: &mut [Colour], at: usize, colours: &[Colour; PERIOD])
    requires { at + 8 ≤ length part.old }
    ensures before { (k : ℕ) (d : Colour) → k < at → slice_index_or part.new k d ≡ slice_index_or part.old k d }
    ensures here { (k : ℕ) (d : Colour) → k < 8 → slice_index_or part.new (at + k) d ≡ slice_index_or colours.now k d }
    ensures after { (k : ℕ) (d : Colour) → at + 8 ≤ k → slice_index_or part.new k d ≡ slice_index_or part.old k d }
{
    put_eight(&mut part[at..at + PERIOD], colours);
}

/// Replaces eight colours. As an array they are copied by two moves, without a call.
fn put_eight(part: &mut [Colour], colours: &[Colour; PERIOD])
    requires { length part.old ≡ 8 }
    ensures { part.new ≡ colours.now }
{
    if let Some(eight) = part.as_mut_array() {
        *eight = *colours;
    }
}

/// Changes each colour by the mix.
pub(crate) fn mix_all(part: &mut [Colour], mix: Mix)
    ensures { EachMixed (length part.old) (λ k. mix) part.old part.new }
{
    for colour in part.iter_mut() {
        *colour = mix.apply(*colour);
    }
}

/// Changes each colour by the mix at its index, made of the bits to keep and the bits to flip. All but the last few are
/// handled eight at a time: the compiler knows that size, and all eight are read before any is written, so it uses
/// vector instructions. This takes a third of the time of one colour at a time.
pub(crate) fn mix_all_by(part: &mut [Colour], keeps: &[Colour], flips: &[Colour])
    requires keeps { length keeps.now ≡ length part.old }
    requires flips { length flips.now ≡ length part.old }
    ensures { EachMixed (length part.old) (mix_at keeps.now flips.now) part.old part.new }
{
    let done = mix_eights(part, keeps, flips);
    for k in done..part.len() {
        let (keep, flip) = (keeps[k], flips[k]);
        part[k] = Mix { keep, flip }.apply(part[k]);
    }
}

/// Changes whole groups of eight colours, each by the mix at its index, and returns how many colours were changed.
fn mix_eights(part: &mut [Colour], keeps: &[Colour], flips: &[Colour]) -> usize
    requires keeps { length keeps.now ≡ length part.old }
    requires flips { length flips.now ≡ length part.old }
    ensures eights { result ≡ length part.old - length part.old % 8 }
    ensures mixed { EachMixed result (mix_at keeps.now flips.now) part.old part.new }
    ensures left { (k : ℕ) (d : Colour) → result ≤ k → slice_index_or part.new k d ≡ slice_index_or part.old k d }
{
    let mut done = 0;
    while done + PERIOD <= part.len() {
        let colours = mixed_eight(part, keeps, flips, done);
        copy_at(part, done, &colours);
        done += PERIOD;
    }
    done
}

/// The results of the mixes on the eight colours at this index.
fn mixed_eight(part: &[Colour], keeps: &[Colour], flips: &[Colour], at: usize) -> [Colour; 8]
    requires colours { at + 8 ≤ length part.now }
    requires keeps { at + 8 ≤ length keeps.now }
    requires flips { at + 8 ≤ length flips.now }
    ensures { EachIs 8 result (λ k d. mixed_by (mix_at keeps.now flips.now (at + k)) (slice_index_or part.now (at + k) d)) }
{
    let mut colours = [part[at]; PERIOD];
    for k in 0..PERIOD {
        let (keep, flip) = (keeps[at + k], flips[at + k]);
        colours[k] = Mix { keep, flip }.apply(part[at + k]);
    }
    colours
}

/// Changes the colours whose column has its bit set in `cells`, and returns how many there are. The part's first colour
/// is in this column.
pub(crate) fn change_cells_of<C: PixelChange>(
    part: &mut [Colour],
    column: u32,
    cells: u8,
    change: C,
) -> usize
    ensures colours { ChangedWhere (λ k. is_cell cells (column + k)) (C.made change) part.old part.new }
    ensures count { result ≡ count_indexes (λ k. is_cell cells (column + k)) 0 (length part.old) }
    ensures most { result ≤ length part.old }
{
    let mut count = 0;
    for offset in 0..PERIOD {
        if has_bit(cells, rotated(column, offset)) {
            count += change_each_eighth(part, offset, change);
        }
    }
    count
}

/// Changes every eighth colour, from this one on, and returns how many there are.
fn change_each_eighth<C: PixelChange>(part: &mut [Colour], offset: usize, change: C) -> usize
    requires { offset < 8 }
    ensures colours { ChangedWhere (λ k. k % 8 == offset) (C.made change) part.old part.new }
    ensures count { result ≡ count_indexes (λ k. k % 8 == offset) 0 (length part.old) }
{
    let mut at = offset;
    while at < part.len() {
        part[at] = change.of(part[at]);
        at += PERIOD;
    }
    (part.len() + 7 - offset) / PERIOD
}

/// The index in a pattern of the column this far after another.
fn rotated(column: u32, offset: usize) -> usize
    requires { offset < 8 }
    ensures place { result ≡ (column + offset) % 8 }
    ensures below { result < 8 }
{
    (column as usize + offset) & 7
}

/// Whether this bit of the cells is 1.
fn has_bit(cells: u8, place: usize) -> bool
    requires { place < 8 }
    ensures { result ≡ (bit_at cells place == 1) }
{
    cells >> place & 1 == 1
}
