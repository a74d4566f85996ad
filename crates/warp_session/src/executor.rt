//! The thread that holds the replica: it serves the lanes of all desks, and publishes what is released.
ghost use Rattle.std.specs.Prelude.{◌≡◌, ◌<◌, length};
ghost use Rattle.warp_session.specs.Serve.{HasServed};

use crate::patience::Patience;
use std::alloc::Global;
use std::sync::Wait;
use std::sync::atomic::{AtomicBool, Ordering};
use std::time::Clock;
use warp_board::Board;
use warp_lanes::{Engine, Turn};
use warp_line::Timeline;

/// An engine, and the board that its writer writes.
#[derive(Drop)]
pub(crate) struct Executor<'a, T: Timeline> {
    pub(crate) engine: Engine<T>,
    pub(crate) board: &'a Board,
    pub(crate) ghost same: { engine.writer.board ≡ board.now },
}

impl<'a, T: Timeline> Executor<'a, T> {
    /// Serves the lines of a lane that wait, and publishes what they release before their answers go out; whether there
    /// was one.
    fn serve(&mut self, alloc: Global, lane: usize) -> bool
        requires { lane < length self.old.engine.lanes }
        ensures serves { HasServed T.settled self.old.engine self.new.engine }
    {
        let turn = self.engine.visit(alloc, lane, self.board);
        matches!(turn, Turn::Served)
    }

    /// One visit of each lane; whether there was a line.
    fn serve_all(&mut self, alloc: Global) -> bool
        ensures serves { HasServed T.settled self.old.engine self.new.engine }
    {
        let mut found = false;
        for lane in 0..self.engine.lane_count() {
            found |= self.serve(alloc, lane);
        }
        found
    }

    /// Serves the lanes until `ended` is set and no line is left, and gives the engine back.
    pub(crate) fn run<X: Wait + Clock>(
        mut self,
        rt: &X,
        alloc: Global,
        ended: &AtomicBool,
    ) -> Engine<T>
        ensures { HasServed T.settled self.entry.engine result }
    {
        let mut patience = Patience::new();
        for _ in rt.forever() {
            // What was sent before it was set is found by the visits behind this look.
            let last = ended.load(Ordering::SeqCst);
            if self.serve_all(alloc) {
                patience = Patience::new();
                continue;
            }
            if last {
                break;
            }
            patience.wait(rt);
        }
        let Executor { engine, .. } = self;
        engine
    }
}
