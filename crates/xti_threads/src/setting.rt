//! Worker 0's lines, made on the main thread before any other worker's.

ghost use Rattle.std.specs.Prelude.{◌≡◌, None, true};
ghost use Rattle.xti_threads.specs.declared.setting.Setting.TheVariants.{Finished, Made};
ghost use Rattle.xti_threads.specs.Setting.{AllMade, HasSetUp, LineMade, SetsUp};

use crate::stage::Stage;
use crate::working::make_call;
use std::sync::Wait;
use xti_calls::{Gate, Seat, Xti};
use xti_replay::Worker;

/// How worker 0 stands after it was asked for its next line.
enum Setting {
    /// It has made the line's call.
    Made,
    /// It has no line left.
    Finished,
    /// Its call stopped.
    Stopped,
}

/// Makes the call of worker 0's next line.
fn make_line<G: Gate, R: Wait + Sync>(
    stage: &Stage<'_, G, R>,
    xti: &Xti,
    main: &mut Seat,
    worker: &mut Worker,
) -> Setting
    requires sets { SetsUp xti.now stage.now.lines.now main.old worker.old }
    requires whole { worker.old.part ≡ None }
    ensures sets { HasSetUp xti.now stage.now.lines.now main.new }
    ensures made { result ≡ Made → LineMade xti.now stage.now.lines.now main.new worker.new }
    ensures finished { result ≡ Finished → AllMade xti.now stage.now.lines.now main.new worker.new }
{
    let Ok(next) = worker.next_call(stage.lines, worker) else {
        return Setting::Stopped;
    };
    let Some(next) = next else {
        return Setting::Finished;
    };
    if make_call(stage, xti, main, worker, next) {
        Setting::Made
    } else {
        Setting::Stopped
    }
}

/// Makes worker 0's lines; true where it is finished.
pub(crate) fn set_up<G: Gate, R: Wait + Sync>(
    stage: &Stage<'_, G, R>,
    xti: &Xti,
    main: &mut Seat,
    worker: &mut Worker,
) -> bool
    requires sets { SetsUp xti.now stage.now.lines.now main.old worker.old }
    requires whole { worker.old.part ≡ None }
    ensures sets { HasSetUp xti.now stage.now.lines.now main.new }
    ensures finished { result ≡ true → AllMade xti.now stage.now.lines.now main.new worker.new }
{
    for _ in stage.rt.forever() {
        match make_line(stage, xti, main, worker) {
            Setting::Made => {}
            Setting::Finished => return true,
            Setting::Stopped => return false,
        }
    }
    unreachable!()
}
