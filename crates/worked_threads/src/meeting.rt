//! A gate at which two nodes meet.
use std::sync::atomic::{AtomicU64, Ordering};
use xfs_base::{Gate, NodeId};

/// How often a worker looks for another one, once.
const TURNS: u64 = 100_000_000;

/// Keeps the first worker that enters until another node is entered too, or until it has looked for it often enough. The two
/// then hold the locks of two nodes at one time.
#[derive(Drop)]
pub struct Meeting {
    inside: AtomicU64,
    met: AtomicU64,
    over: AtomicU64,
}

impl Meeting {
    /// Nobody has entered yet.
    pub fn new() -> Meeting {
        Meeting {
            inside: AtomicU64::new(0),
            met: AtomicU64::new(0),
            over: AtomicU64::new(0),
        }
    }

    /// Whether two nodes were entered at one time.
    pub fn has_met(&self) -> bool {
        self.met.load(Ordering::SeqCst) > 0
    }
}

impl Gate for Meeting {
    fn enter(&self, _node: NodeId) {
        self.inside.fetch_add(1, Ordering::SeqCst);
        for _ in 0..TURNS {
            if self.over.load(Ordering::SeqCst) > 0 {
                return;
            }
            if self.inside.load(Ordering::SeqCst) > 1 {
                self.met.store(1, Ordering::SeqCst);
                self.over.store(1, Ordering::SeqCst);
                return;
            }
        }
        self.over.store(1, Ordering::SeqCst);
    }

    fn leave(&self, _node: NodeId) {
        self.inside.fetch_sub(1, Ordering::SeqCst);
    }
}
