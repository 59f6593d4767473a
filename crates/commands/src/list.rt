//! The command `list`.

ghost use Rattle.std.specs.Prelude.{◌≡◌, ◌⊎◌, ◌-◌, ◌^◌, ◌<◌, IfOk, OnErr, OnOk, true};
ghost use Rattle.commands.specs.Ends.{Prints, Writes, WritesPrefixWith, WritesWith};
ghost use Rattle.draw_ops.specs.RuleSets.{core_rules};
ghost use Rattle.preflight_cert.specs.Reached.{Opens};
ghost use Rattle.commands.specs.Listings.{IsListing, Lists};
ghost use Rattle.commands.specs.Tasks.{list};
ghost use Rattle.listing.specs.DryRunState.{dry_run_state_of};
ghost use Rattle.listing.specs.ListingLaws.{ReportsEachRefusal, ReportsEachStop};

use crate::command_end::{CommandEnd, Completion};
use crate::reporting::report;
use canvas::{FaultCount, WriteFault, flush_sent};
use draw_ops::Rules;
use listing::{DryRun, ListingEnd, listing_law, write_listing_to};
use std::alloc::Global;

/// The same as `list_command_by`, under the core rules.
pub fn list_command<O: FaultCount, E: FaultCount>(
    alloc: Global,
    file: &[u8],
    out: &mut O,
    err: &mut E,
) -> Completion
    requires capacity_out { O.fault_count out.old < 2 ^ 64 - 1 }
    requires capacity_err { E.fault_count err.old < 2 ^ 64 - 1 }
    ensures written { Writes (list core_rules file.now) result O.contents out.old out.new }
    ensures printed { Prints (list core_rules file.now) result E.contents err.old err.new }
    ensures memory { result.end ≡ CommandEnd.OutOfMemory → Opens file.now }
    ensures each_stop { ReportsEachStop file.now }
    ensures each_refusal { ReportsEachRefusal file.now }
    ensures cannot_write { result.end ≡ CommandEnd.CannotWrite → O.fault_count out.old < O.fault_count out.new }
    ensures unreported { OnErr result.printed (E.fault_count err.old < E.fault_count err.new) }
    ensures flushed { result.end ≡ CommandEnd.Done ⊎ result.end ≡ CommandEnd.Rejected → O.is_flushed out.new ≡ true }
{
    list_command_by(alloc, Rules::CORE, file, out, err)
}

/// Lists the records of a file to `out`, one line per record, with the faults that runs of the file under these rules
/// have there on surfaces of any size. How the command ends says whether the records end with an end record. A listing
/// writes nothing to `err`, and a fault of `err` doesn't change the status.
#[inline(never)]
pub fn list_command_by<O: FaultCount, E: FaultCount>(
    alloc: Global,
    rules: Rules,
    file: &[u8],
    out: &mut O,
    err: &mut E,
) -> Completion
    requires capacity_out { O.fault_count out.old < 2 ^ 64 - 1 }
    requires capacity_err { E.fault_count err.old < 2 ^ 64 - 1 }
    ensures written { Writes (list rules file.now) result O.contents out.old out.new }
    ensures printed { Prints (list rules file.now) result E.contents err.old err.new }
    ensures memory { result.end ≡ CommandEnd.OutOfMemory → Opens file.now }
    ensures each_stop { ReportsEachStop file.now }
    ensures each_refusal { ReportsEachRefusal file.now }
    ensures cannot_write { result.end ≡ CommandEnd.CannotWrite → O.fault_count out.old < O.fault_count out.new }
    ensures unreported { OnErr result.printed (E.fault_count err.old < E.fault_count err.new) }
    ensures flushed { result.end ≡ CommandEnd.Done ⊎ result.end ≡ CommandEnd.Rejected → O.is_flushed out.new ≡ true }
{
    listing_law();
    match DryRun::new(alloc, rules, file) {
        Ok(dry_run) => match send_listing(rules, file, dry_run, out) {
            Ok(ListingEnd::Ended) => Completion {
                end: CommandEnd::Done,
                printed: Ok(()),
            },
            Ok(ListingEnd::Broken) => Completion {
                end: CommandEnd::Rejected,
                printed: Ok(()),
            },
            Err(_) => Completion {
                end: CommandEnd::CannotWrite,
                printed: report(err, "cannot write"),
            },
        },
        Err(_) => Completion {
            end: CommandEnd::OutOfMemory,
            printed: report(err, "OutOfMemory"),
        },
    }
}

/// Writes a listing and flushes the writer.
fn send_listing<'a, O: FaultCount>(
    rules: Rules,
    file: &'a [u8],
    dry_run: DryRun<'a>,
    out: &mut O,
) -> Result<ListingEnd, WriteFault>
    requires dry_run { dry_run ≡ dry_run_state_of rules file.now }
    requires capacity { O.fault_count out.old < 2 ^ 64 - 1 }
    ensures ok { IfOk result (λ listed. WritesWith (Lists rules file.now listed) O.contents out.old out.new) }
    ensures err { OnErr result (WritesPrefixWith (IsListing rules file.now) O.contents out.old out.new) }
    ensures fault { OnErr result (O.fault_count out.old < O.fault_count out.new) }
    ensures flushed { OnOk result (O.is_flushed out.new ≡ true) }
{
    let listed = write_listing_to(file, dry_run, out)?;
    flush_sent(out)?;
    Ok(listed)
}
