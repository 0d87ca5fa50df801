//! A bell by which one thread ends the searches of others. The main type is `Bell`.

use std::sync::atomic::{AtomicBool, Ordering};

/// Silent until it is rung, and rung from then on. Threads share it. No clause says whether it is rung: who hears it
/// ends as for want of memory.
#[derive(Drop)]
pub struct Bell {
    rung: AtomicBool,
}

impl Bell {
    /// A bell that is not rung. Takes no memory.
    pub fn new() -> Bell {
        Bell {
            rung: AtomicBool::new(false),
        }
    }

    /// Rings it, for good.
    pub fn ring(&self) {
        self.rung.store(true, Ordering::SeqCst);
    }

    /// Whether it is rung.
    pub fn is_rung(&self) -> bool {
        self.rung.load(Ordering::SeqCst)
    }
}
