use ris_base::Gate;
use std::hint::spin_loop;
use std::sync::atomic::{AtomicBool, Ordering};

/// How often a job looks whether the other one has arrived.
const TURNS: u32 = 100_000_000;

/// A gate for tests, which two jobs can pass together only where they run at the same time. It notes the arrival of the
/// jobs of two numbers, holds each until the other has arrived too or 100,000,000 turns have passed, and keeps whether
/// the two met: whether the one that came first saw the other arrive. It takes no memory.
#[derive(Drop)]
pub struct HoldGate {
    first: u32,
    second: u32,
    first_came: AtomicBool,
    second_came: AtomicBool,
    came: AtomicBool,
    met: AtomicBool,
}

impl HoldGate {
    /// A gate for the jobs of these two numbers, of which none has arrived.
    pub fn new(first: u32, second: u32) -> HoldGate {
        HoldGate {
            first,
            second,
            first_came: AtomicBool::new(false),
            second_came: AtomicBool::new(false),
            came: AtomicBool::new(false),
            met: AtomicBool::new(false),
        }
    }

    /// Whether the two have met.
    pub fn met(&self) -> bool {
        self.met.load(Ordering::SeqCst)
    }

    /// Notes the arrival at one place, and waits for that at the other.
    fn hold(&self, here: &AtomicBool, there: &AtomicBool) {
        here.store(true, Ordering::SeqCst);
        let is_first = !self.came.swap(true, Ordering::SeqCst);
        for _turn in 0..TURNS {
            if there.load(Ordering::SeqCst) {
                if is_first {
                    self.met.store(true, Ordering::SeqCst);
                }
                return;
            }
            spin_loop();
        }
    }
}

impl Gate for HoldGate {
    fn enter(&self, job: u32) {
        if job == self.first {
            self.hold(&self.first_came, &self.second_came);
        } else if job == self.second {
            self.hold(&self.second_came, &self.first_came);
        }
    }
}
