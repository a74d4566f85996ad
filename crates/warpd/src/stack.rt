//! The stack of a run, taken before the run begins.
//!
//! The system makes the stack of the first thread longer as calls go deeper, and ends the process by a signal where
//! there is no room for that. So all that a run may need is taken at the start, where a lack of it can be told.

ghost use Rattle.std.specs.Prelude.{◌<◌, ◌^◌};

use libc::types::rlimit;
use std::alloc::Global;

/// The bytes of stack that are taken: twice what the deepest run needs that was found, 320 KiB. It explains a program
/// file of objects in objects.
const STACK: usize = 655_360;

/// The least limit on the stack, in bytes, under which a run begins. The words of the command line and the environment
/// stand in the stack too; the system gives them a quarter of such a limit.
const LEAST_LIMIT: u64 = 1_048_576;

/// Takes the stack that a run may need, and answers whether it could be had.
pub(crate) fn take_stack(alloc: Global) -> bool {
    if stack_limit() < LEAST_LIMIT || !has_room(alloc) {
        return false;
    }
    write_to_stack::<STACK>();
    true
}

/// The limit on the stack, in bytes; the greatest number where there is none.
fn stack_limit() -> u64 {
    let mut limit = rlimit {
        rlim_cur: u64::MAX,
        rlim_max: u64::MAX,
    };
    let _ = libc::getrlimit(libc::RLIMIT_STACK, &mut limit);
    limit.rlim_cur
}

/// Whether the system has room for the stack.
fn has_room(alloc: Global) -> bool {
    match Vec::<u8>::with_capacity(alloc, STACK) {
        Ok(mut room) => {
            // Where a block of this size is freed, the C library takes later ones from its heap, which costs copies.
            room.shrink_to(1);
            true
        }
        Err(_) => false,
    }
}

/// Writes to so many bytes of the stack.
#[inline(never)]
fn write_to_stack<const SIZE: usize>()
    requires { SIZE < 2 ^ 63 }
{
    let room = [0; SIZE];
    // To no file: but so the compiler must take it that the bytes are read.
    let _ = libc::write(-1, &room);
}
