//! `metaplay`: checks Windows metafiles, and shows what they draw. Its promises are those of `commands::run`.
#![tactic(auto)]

mod version;

use canvas::Counting;
use std::process::ExitCode;
use version::VERSION;

fn main(rt: HostRuntime) -> ExitCode {
    let mut out = Counting::new(rt.stdout());
    let mut err = Counting::new(rt.stderr());
    let answer = commands::run(&rt, VERSION, &mut rt.stdin(), &mut out, &mut err);
    ExitCode::from(answer.status())
}
