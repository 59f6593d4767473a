//! Command lines with their sizes.

use crate::same_values::same;
use command_lines::{Asked, CommandLine, line};
use draw_ops::Rules;
use std::alloc::{AllocError, Global};
use std::test::Fail;

/// The words of a command line.
pub(crate) fn words(alloc: Global, words: &[&str]) -> Result<Vec<String>, AllocError> {
    let mut list = Vec::new(alloc);
    for word in words {
        list.push(String::from_str(alloc, word)?)?;
    }
    Ok(list)
}

/// The command on one file that the words ask for, if they do.
fn command(alloc: Global, words: &[String]) -> Option<CommandLine<'_>> {
    match line(alloc, words) {
        Ok(Asked::Command(line)) => Some(line),
        Ok(Asked::Batch { .. }) | Ok(Asked::Version) => None,
        Err(_) => None,
    }
}

#[test]
fn each_side_from_1_to_8192_is_taken_in_both_places(rt: HostRuntime) -> Result<(), Fail> {
    for side in 0..=8193u32 {
        let text = format!(in rt.alloc(); "{side}")?;
        let wide = words(
            rt.alloc(),
            &["metaplay", "show", "a.wmf", text.as_str(), "4"],
        )?;
        let high = words(
            rt.alloc(),
            &["metaplay", "show", "a.wmf", "5", text.as_str()],
        )?;
        let taken = (
            command(rt.alloc(), wide.as_slice()),
            command(rt.alloc(), high.as_slice()),
        );
        let want = if side == 0 || side == 8193 {
            (None, None)
        } else {
            (Some(shown(side, 4)), Some(shown(5, side)))
        };
        assert!(rt; taken == want, "{side}");
    }
    Ok(())
}

/// The command line that shows a file at this size.
fn shown(width: u32, height: u32) -> CommandLine<'static> {
    CommandLine::Show {
        file: "a.wmf",
        rules: Rules::CORE,
        width,
        height,
        fit: false,
    }
}

#[test]
fn a_command_line_under_failed_growth(rt: HostRuntime) -> Result<(), Fail> {
    // If the allocation for the test's own words fails, no command line is parsed.
    let Ok(asked) = words(rt.alloc(), &["metaplay", "show", "a.wmf", "4", "5"]) else {
        return Ok(());
    };
    match line(rt.alloc(), asked.as_slice()) {
        Ok(_) => {
            // Parsing it once more may fail too.
            if let Some(found) = command(rt.alloc(), asked.as_slice()) {
                same(&rt, found, shown(4, 5));
            }
        }
        Err(error) => assert!(rt; error.kind() == clap::error::ErrorKind::OutOfMemory),
    }
    Ok(())
}
