//! How other threads of a host wake the one that has its sockets, and learn that the host is over.
//!
//! Who is about to sleep says so first, and looks once more. Who did something for it wakes it where it says that it
//! sleeps: so no work waits for a sleeper, and a busy thread costs the others no call of the system.

use mio::Waker;
use std::sync::atomic::{AtomicBool, Ordering};

/// What the threads of a host share beside the rings.
#[derive(Drop)]
pub struct Bells {
    waker: Waker,
    worker_sleeps: AtomicBool,
    is_over: AtomicBool,
}

impl Bells {
    /// The worker, whose waker this is, is awake.
    pub fn new(waker: Waker) -> Bells {
        Bells {
            waker,
            worker_sleeps: AtomicBool::new(false),
            is_over: AtomicBool::new(false),
        }
    }

    /// The worker is about to wait for sockets: what is made for it from now on wakes it.
    pub fn worker_sleeps(&self) {
        self.worker_sleeps.store(true, Ordering::SeqCst);
    }

    /// The worker is awake.
    pub fn worker_wakes(&self) {
        self.worker_sleeps.store(false, Ordering::SeqCst);
    }

    /// Wakes the worker where it sleeps.
    pub fn wake_worker(&self) {
        if self.worker_sleeps.swap(false, Ordering::SeqCst) {
            let _ = self.waker.wake();
        }
    }

    /// The host is over.
    pub fn end(&self) {
        self.is_over.store(true, Ordering::SeqCst);
    }

    /// Whether the host is over.
    pub fn is_over(&self) -> bool {
        self.is_over.load(Ordering::SeqCst)
    }
}
