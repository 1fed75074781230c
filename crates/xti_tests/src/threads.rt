//! A run by threads, with a gate that tells whether the workers' steps are made beside each other.

use crate::cases::expect;
use crate::running::{NO_FAULTS, Run, holds};
use crate::waiting::comes;
use std::sync::Wait;
use std::sync::atomic::{AtomicBool, Ordering};
use xti_gather::Cell;
use xti_hall::Seat;
use xti_model::Call;
use xti_run::Gate;

/// Holds worker 1 at its first step until worker 2 comes to its second.
///
/// Where one lock is round everything, or a worker's calls are made after another's, worker 1 gives up; where no thread makes
/// calls, nobody comes.
#[derive(Drop)]
struct Beside {
    came: AtomicBool,
    gave_up: AtomicBool,
}

impl Gate for Beside {
    fn pause<R: Wait + Sync>(
        &self,
        _rt: &R,
        worker: u32,
        point: u64,
        _seat: &Seat<Cell>,
        _call: &Call,
    ) {
        match (worker, point) {
            (1, 0) => {
                if !comes(&self.came) {
                    self.gave_up.store(true, Ordering::SeqCst);
                }
            }
            (2, 1) => self.came.store(true, Ordering::SeqCst),
            _ => {}
        }
    }
}

/// Two workers on endpoints of their own.
const ENDPOINTS: &[u8] = b"xti-script 1
0 open a ticlts
0 open b ticlts
1 look a
2 look b
2 look b
";

const ENDPOINTS_SUMMARY: &[u8] = b"entries 5 ok 5 err 0 part 0 sent 0 got 0 stalled 0\n";

/// Two workers, each of which sends on a connection of its own.
const CONNECTIONS: &[u8] = b"xti-script 1
0 open l ticotsord nonblock
0 bind l addr=t:l qlen=1
0 open a ticotsord nonblock
0 bind a
0 open b ticotsord
0 connect a addr=t:l
0 listen l p
0 accept l b p
0 rcvconnect a
0 open c ticotsord nonblock
0 bind c
0 open d ticotsord
0 connect c addr=t:l
0 listen l q
0 accept l d q
0 rcvconnect c
1 snd a data=t:one
2 snd c data=t:two
2 snd c data=t:three
";

const CONNECTIONS_SUMMARY: &[u8] = b"entries 19 ok 17 err 2 part 0 sent 11 got 0 stalled 0\n";

/// Scripts, each with its summary.
static SCRIPTS: [(&'static [u8], &'static [u8]); 2] = [
    (ENDPOINTS, ENDPOINTS_SUMMARY),
    (CONNECTIONS, CONNECTIONS_SUMMARY),
];

#[test]
fn steps_beside_each_other(rt: HostRuntime) {
    for (number, (script, summary)) in SCRIPTS.iter().enumerate() {
        let gate = Beside {
            came: AtomicBool::new(false),
            gave_up: AtomicBool::new(false),
        };
        let run = Run {
            command: "run --summary",
            input: script,
            read: 7,
            faults: NO_FAULTS,
            status: 0,
            output: summary,
        };
        let holds = holds(&rt, rt.alloc(), run, &gate);
        let came = gate.came.load(Ordering::SeqCst);
        let gave_up = gate.gave_up.load(Ordering::SeqCst);
        drop(gate);
        expect(&rt, holds && came && !gave_up, &number);
    }
}
