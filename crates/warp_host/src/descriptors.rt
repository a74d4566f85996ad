//! How many descriptors there may be.

ghost use Rattle.std.specs.Prelude.{◌≤◌, min};

use libc::types::rlimit;

/// So many descriptors are kept for what is no client: the standard streams, the listener, what the worker waits by, the
/// spare one, and files that are read.
const KEPT: u64 = 16;

/// So many clients there may be of `wanted`, beside so many peers, by the limit on descriptors; one at least.
pub fn clients_within(wanted: u32, peers: usize) -> u32
    ensures most { result ≤ wanted }
    ensures least { min 1 wanted ≤ result }
{
    let mut limit = rlimit {
        rlim_cur: u64::MAX,
        rlim_max: u64::MAX,
    };
    let _ = libc::getrlimit(libc::RLIMIT_NOFILE, &mut limit);
    let kept = KEPT.saturating_add(peers as u64);
    let room = limit.rlim_cur.saturating_sub(kept).max(1);
    match u32::try_from(room) {
        Ok(room) => room.min(wanted),
        Err(_) => wanted,
    }
}
