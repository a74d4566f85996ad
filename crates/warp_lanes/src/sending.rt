//! An engine may be sent to another thread where its timeline may: the thread that serves need not be the one that made
//! it.
ghost use Rattle.std.specs.Prelude.{◌≡◌};

use crate::engine::Engine;
use warp_line::Timeline;

/// That an engine over any timeline that may be sent to another thread may be sent there too. It gives the engine back.
pub fn may_be_sent<T: Timeline + Send>(engine: Engine<T>) -> Engine<T>
    ensures { result ≡ engine }
{
    sent(engine)
}

/// Whatever may be sent to another thread.
fn sent<T: Send>(value: T) -> T
    ensures { result ≡ value }
{
    value
}
