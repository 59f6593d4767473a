//! Counts of faults.

ghost use Rattle.std.specs.Prelude.{◌≡◌, OnOk, [], option_map};
ghost use Rattle.file_info.specs.FaultCounts.{CountsOneMore, count_with, fault_key};

use crate::fault_count::FaultCount;
use canvas::OutOfMemory;
use draw_ops::Fault;
use std::alloc::Global;
use std::collections::BTreeMap;
use std::marker::Model;

/// How often each fault occurs, in the order of the faults' codes, and then of the kinds of record that they refer to.
#[derive(Drop)]
pub struct FaultCounts {
    pub(crate) counts: BTreeMap<u64, FaultCount>,
}

impl Model for FaultCounts {
    ghost use Rattle.std.specs.Prelude.{ℕ, List};
    ghost use Rattle.file_info.specs.declared.fault_count.FaultCount.{FaultCount as TheCount};

    ghost Value = { List (ℕ × TheCount) };

    ghost view = { λ a. a.counts.entries };
}

impl FaultCounts {
    /// No faults.
    pub fn new(alloc: Global) -> FaultCounts
        ensures { result ≡ [] }
    {
        FaultCounts {
            counts: BTreeMap::new(alloc),
        }
    }

    /// Counts one more fault. A count stops at 2^32 - 1, which no file reaches.
    pub fn add(&mut self, fault: Fault) -> Result<(), OutOfMemory>
        ensures { OnOk result (CountsOneMore self.old fault self.new) }
    {
        let key = fault_key(fault);
        let count = count_with(self.counts.get(&key));
        let Ok(_) = self.counts.insert(key, FaultCount { fault, count }) else {
            return Err(OutOfMemory);
        };
        Ok(())
    }
}

/// The count of a fault that occurs once more.
fn count_with(found: Option<&FaultCount>) -> u32
    ensures { result ≡ count_with (option_map (λ counted. counted.now) found.entry) }
{
    match found {
        Some(counted) => counted.count.saturating_add(1),
        None => 1,
    }
}

/// A fault's place in reports: by its code, and then by the kind of record that it refers to.
fn fault_key(fault: Fault) -> u64
    ensures { result ≡ fault_key fault }
{
    let kind = match fault.number() {
        Some(kind) => kind,
        None => 0,
    };
    u64::from(fault.code()) * 4294967296 + u64::from(kind)
}
