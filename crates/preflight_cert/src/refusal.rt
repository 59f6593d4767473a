//! Why a file isn't played, and where the fault is in it.

ghost use Rattle.std.specs.Prelude.{◌≡◌, Some, None};
ghost use Rattle.draw_ops.specs.Fault.{IsInRecord};
ghost use Rattle.draw_ops.specs.declared.fault.Fault.TheVariants.{Record};
ghost use Rattle.preflight_cert.specs.Refusal.{ReportsNumber, number_reported};

use draw_ops::{Fault, RecordFault};
use std::error::Error;
use std::fmt;

/// A fault, and the number of the record that it lies in, from 0, if it lies in one.
#[derive(Clone, Copy, Debug, PartialEq, Eq)]
pub struct Refusal {
    pub number: Option<u32>,
    pub fault: Fault,
}

impl Refusal {
    /// A fault that lies in no record.
    pub fn of_file(fault: Fault) -> Refusal
        ensures number { result.number ≡ None }
        ensures fault { result.fault ≡ fault }
        ensures number_reported { (IsInRecord fault → ⊥) → ReportsNumber result }
    {
        Refusal {
            number: None,
            fault,
        }
    }

    /// A fault in a record.
    pub fn at(number: u32, fault: RecordFault) -> Refusal
        ensures number { result.number ≡ Some number }
        ensures fault { result.fault ≡ Record fault }
        ensures number_reported { ReportsNumber result }
    {
        Refusal {
            number: Some(number),
            fault: Fault::Record(fault),
        }
    }

    /// Why a step of the record with this number is rejected: a fault in that record, or one that lies in none.
    pub fn of_step(number: u32, fault: Fault) -> Refusal
        ensures number { result.number ≡ number_reported number fault }
        ensures fault { result.fault ≡ fault }
        ensures number_reported { ReportsNumber result }
    {
        match fault {
            Fault::Record(fault) => Refusal::at(number, fault),
            _ => Refusal::of_file(fault),
        }
    }
}

impl fmt::Display for Refusal {
    ghost use Rattle.preflight_cert.specs.Refusal.{refusal_text};

    ghost output = { λ refusal. Some (refusal_text refusal) };

    /// The fault, followed by ` at record` and the number, if there is one.
    fn fmt<W: fmt::Write>(&self, f: &mut fmt::Formatter<W>) -> fmt::Result {
        let fault = self.fault;
        match self.number {
            Some(number) => write!(f, "{fault} at record {number}"),
            None => write!(f, "{fault}"),
        }
    }
}

impl Error for Refusal {}
