//! A gate that waits for a call.
use std::sync::atomic::{AtomicU64, Ordering};
use xfs_base::{Gate, NodeId};

/// How often a worker looks for a call.
const TURNS: u64 = 100_000_000;

/// Keeps whoever enters client 1 until an application has made a call there, or until it has looked for one often enough.
/// The worker then holds the client's lock: only another thread can make the call.
#[derive(Drop)]
pub struct Waiting {
    calls: AtomicU64,
    entered: AtomicU64,
    missed: AtomicU64,
}

impl Waiting {
    /// Nothing was called yet.
    pub fn new() -> Waiting {
        Waiting {
            calls: AtomicU64::new(0),
            entered: AtomicU64::new(0),
            missed: AtomicU64::new(0),
        }
    }

    /// Whether client 1 was entered, and nobody who entered it missed a call.
    pub fn was_called(&self) -> bool {
        self.entered.load(Ordering::SeqCst) > 0 && self.missed.load(Ordering::SeqCst) == 0
    }
}

impl Gate for Waiting {
    fn enter(&self, node: NodeId) {
        if node != NodeId::Client(1) {
            return;
        }
        self.entered.store(1, Ordering::SeqCst);
        for _ in 0..TURNS {
            if self.calls.load(Ordering::SeqCst) > 0 {
                return;
            }
        }
        self.missed.store(1, Ordering::SeqCst);
    }

    fn leave(&self, _node: NodeId) {}

    fn called(&self, client: u8) {
        if client == 1 {
            self.calls.fetch_add(1, Ordering::SeqCst);
        }
    }
}
