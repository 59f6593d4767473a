//! Running a source to its end.

ghost use Rattle.std.specs.Prelude.{◌≡◌, ◌<◌, ◌^◌, length};
ghost use Rattle.draw_ops.specs.Counted.{counted, after_steps};

use crate::record_fault::RecordFault;
use crate::source::OpSource;
use crate::step::Step;

/// The number of steps that a source has left, or the fault at which they break. Afterwards the source has nothing left
/// except that fault.
pub fn count_steps<'a, S: OpSource<'a>>(source: &mut S) -> Result<u64, RecordFault>
    requires { length (S.content source.old).steps < 2 ^ 64 }
    ensures count { result ≡ counted (S.content source.old) }
    ensures left { S.content source.new ≡ after_steps (S.content source.old) }
{
    let mut count: u64 = 0;
    let mut step: Step<'a> = Step::without_effect();
    loop {
        match source.next_into(&mut step) {
            Ok(true) => count += 1,
            Ok(false) => return Ok(count),
            Err(fault) => return Err(fault),
        }
    }
}
