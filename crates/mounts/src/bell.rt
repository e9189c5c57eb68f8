//! What an application and its client tell each other beside their rings: that there was a call, that there was a reply.
//! These are hints, of which no clause speaks.
use std::sync::Wait;
use std::sync::atomic::{AtomicU64, Ordering};
use std::time::Duration;

/// For how long an application sleeps at most where no reply wakes it, in microseconds.
const NAP: u64 = 10_000;

/// How many calls and replies were made, and how many threads sleep until there is one reply more.
#[derive(Drop)]
pub struct Bell {
    calls: AtomicU64,
    replies: AtomicU64,
    sleepers: AtomicU64,
}

impl Bell {
    /// No call and no reply was made.
    pub(crate) fn new() -> Bell {
        Bell {
            calls: AtomicU64::new(0),
            replies: AtomicU64::new(0),
            sleepers: AtomicU64::new(0),
        }
    }

    /// There was a call.
    pub(crate) fn call(&self) {
        self.calls.fetch_add(1, Ordering::SeqCst);
    }

    /// How many calls were made.
    pub(crate) fn calls(&self) -> u64 {
        self.calls.load(Ordering::SeqCst)
    }

    /// There was a reply. Whoever sleeps is woken.
    pub(crate) fn reply(&self) {
        self.replies.fetch_add(1, Ordering::SeqCst);
        if self.sleepers.load(Ordering::SeqCst) > 0 {
            self.replies.wake_all();
        }
    }

    /// How many replies were made.
    pub(crate) fn replies(&self) -> u64 {
        self.replies.load(Ordering::SeqCst)
    }

    /// Sleeps until there are more replies than so many, and not for long.
    pub(crate) fn sleep<W: Wait>(&self, rt: &W, replies: u64) {
        self.sleepers.fetch_add(1, Ordering::SeqCst);
        self.replies.park_timeout(
            rt,
            (replies & 0xffff_ffff) as u32,
            Duration::from_micros(NAP),
        );
        self.sleepers.fetch_sub(1, Ordering::SeqCst);
    }
}
