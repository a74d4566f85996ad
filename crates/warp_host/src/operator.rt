//! What an operator is told of what the system does not give, on standard error.

use std::io::{self, Eprint};

/// Tells that the host ends since the system does not give it this, and what the system says.
pub(crate) fn tell_not_given<X: Eprint>(rt: &X, what: &str, error: &io::Error) {
    let _ = eprintln!(rt; "the host can't go on: the system gives no {what}: {error}");
}

/// Tells that the host ends since no thread could be started for this.
pub(crate) fn tell_no_thread<X: Eprint>(rt: &X, what: &str) {
    let _ = eprintln!(rt;
        "the host can't go on: no thread for {what} could be started, for want of memory or of processes (ulimit -v, ulimit -u)"
    );
}
