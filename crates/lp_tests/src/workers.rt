// A script of two sessions by two workers beside each other, of which the one finds what the other has published.
use lp_base::{Bytes, MemSink, MemSource, Texts};
use lp_script::{Gate, run_script};
use std::alloc::{AllocError, Global};
use std::sync::Wait;
use std::sync::atomic::{AtomicU64, Ordering};
use std::test::Fail;
use std::thread;

// The greatest 9 x where 4 x is at most 27 and x at most 7.
const MODEL: &str =
    "NAME a\nOBJSENSE MAX\nROWS\n N value\n L R1\nCOLUMNS\n x value 9 R1 4\nRHS\n R1 27\nBOUNDS\n UP x 7\nENDATA\n";

// Each session holds the model and solves it twice. In between it is asked how the first answer was found.
const SCRIPT: [&str; 6] = [
    "1 LOAD FREE\n",
    MODEL,
    "1 SOLVE\n1 HOW\n1 SOLVE\n",
    "2 LOAD FREE\n",
    MODEL,
    "2 SOLVE\n2 HOW\n2 SOLVE\n",
];

// Session 2 solves first, without a basis, and publishes one. Session 1 is let go after that, and begins with it.
const REPLIES: &str =
    "1 LOADED 1 1\n1 OPTIMAL 60.75\n1 HOW BASIS 0 PIVOTS 0 SAME\n1 OPTIMAL 60.75\n\
     2 LOADED 1 1\n2 OPTIMAL 60.75\n2 HOW COLD PIVOTS 1 PUBLISHED 0\n2 OPTIMAL 60.75\n";

// The most turns that a solve is held.
const TURNS: u32 = 20_000_000;

// Holds the first solve of session 2 until session 1 is about to solve, and the first one of session 1 until session 2
// is about to solve again.
#[derive(Drop)]
struct Handshake {
    one_began: AtomicU64,
    two_goes_on: AtomicU64,
    given_up: AtomicU64,
}

impl Handshake {
    // Waits until the flag is raised, or gives up after so many turns.
    fn hold(&self, until: &AtomicU64) {
        for _ in 0..TURNS {
            if until.load(Ordering::SeqCst) == 1 {
                return;
            }
            thread::yield_now();
        }
        self.given_up.store(1, Ordering::SeqCst);
    }
}

impl Gate for Handshake {
    // Holds the solve that is about to begin, as the two sessions wait for each other.
    fn before<R: Wait>(&self, _rt: &R, session: u32, nth: u64) {
        if session == 1 && nth == 1 {
            self.one_began.store(1, Ordering::SeqCst);
            self.hold(&self.two_goes_on);
        }
        if session == 2 && nth == 1 {
            self.hold(&self.one_began);
        }
        if session == 2 && nth == 2 {
            self.two_goes_on.store(1, Ordering::SeqCst);
        }
    }
}

// A source that gives the script.
fn script(alloc: Global) -> Result<MemSource, AllocError> {
    let mut pieces = Texts::new(alloc);
    for piece in SCRIPT {
        pieces.push(Bytes::from_slice(alloc, piece.as_bytes())?)?;
    }
    Ok(MemSource::new(pieces, Vec::new(alloc)))
}

// Two workers run a script at the same time, and a session begins with the basis that the other one's worker published.
#[test]
fn two_workers_run_beside_each_other(rt: HostRuntime) -> Result<(), Fail> {
    let alloc = rt.alloc();
    let gate = Handshake {
        one_began: AtomicU64::new(0),
        two_goes_on: AtomicU64::new(0),
        given_up: AtomicU64::new(0),
    };
    let mut source = script(alloc)?;
    let mut out = MemSink::new(alloc, Vec::new(alloc));
    let run = run_script(&rt, alloc, &mut source, &mut out, 2, 4, &gate);
    let are_replies = out.written() == REPLIES.as_bytes();
    drop(out);
    drop(source);
    assert_eq!(rt;
        (
            run.is_ok(),
            are_replies,
            gate.given_up.load(Ordering::SeqCst)
        ),
        (true, true, 0)
    );
    Ok(())
}
