//! What the arguments of a command are.

ghost use Rattle.std.specs.Prelude.{◌≡◌, IfSome, IsSome};
ghost use Rattle.clap.specs.Words.{first_of, found_of, rows_of};
ghost use Rattle.mapping.specs.Limits.{IsSurfaceSide};
ghost use Rattle.command_lines.specs.CommandLine.{GivesAll, GivesArgument, GivesBands, GivesDimensions, GivesFlag, GivesName, GivesNumber, GivesSide, bands_rule, side_rules};
ghost use Rattle.command_lines.specs.Dimensions.{AreDimensions};

use clap::ArgMatches;
use mapping::MAX_SURFACE_SIDE;

/// The text of an argument, as a file's name.
pub(crate) fn name_of<'a>(given: &ArgMatches<'a>, id: &str) -> Option<&'a str>
    ensures given { IfSome result (λ name. GivesName (rows_of (found_of given.now)) id.now name.now) }
    ensures taken { IsSome (first_of id.now (rows_of (found_of given.now))) → IsSome result }
{
    given.get_str(id)
}

/// The width and height of a surface, if they are in range.
pub(crate) fn dimensions_of(given: &ArgMatches<'_>) -> Option<(u32, u32)>
    ensures dimensions { IfSome result (λ dimensions. AreDimensions dimensions.0 dimensions.1) }
    ensures given { IfSome result (λ dimensions. GivesDimensions (rows_of (found_of given.now)) dimensions.0 dimensions.1) }
    ensures taken { GivesAll side_rules (rows_of (found_of given.now)) → IsSome result }
{
    let Some(width) = side_of(given, "W") else {
        return None;
    };
    let Some(height) = side_of(given, "H") else {
        return None;
    };
    Some((width, height))
}

/// The number of rows in a band, if it is given. It must be in range, which the parser ensures.
pub(crate) fn bands_of(given: &ArgMatches<'_>) -> Option<Option<u32>>
    ensures range { IfSome result (λ bands. IfSome bands IsSurfaceSide) }
    ensures given { IfSome result (GivesBands (rows_of (found_of given.now))) }
    ensures taken { GivesArgument bands_rule (rows_of (found_of given.now)) → IsSome result }
{
    let Some(_) = name_of(given, "ROWS") else {
        return Some(None);
    };
    let Some(rows) = side_of(given, "ROWS") else {
        return None;
    };
    Some(Some(rows))
}

/// Whether an option without a value is given.
pub(crate) fn flag_of(given: &ArgMatches<'_>, id: &str) -> bool
    ensures { GivesFlag (rows_of (found_of given.now)) id.now result }
{
    given.get_flag(id)
}

/// A width or a height, if it is in range, which the parser ensures.
fn side_of(matches: &ArgMatches<'_>, id: &str) -> Option<u32>
    ensures side { IfSome result IsSurfaceSide }
    ensures given { IfSome result (GivesNumber (rows_of (found_of matches.now)) id.now) }
    ensures taken { GivesSide (rows_of (found_of matches.now)) id.now → IsSome result }
{
    let Some(side) = matches.get_one::<u32>(id) else {
        return None;
    };
    (1 <= side && side <= MAX_SURFACE_SIDE).then_some(side)
}
