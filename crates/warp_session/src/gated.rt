//! A desk with a gate round each line that it is asked.

use crate::door::Gate;
use warp_exchange::Desk;
use warp_record::{Line, Reply};
use warp_tag::Form;

/// A desk, and the gate that is called round each line that a session asks it, unless it does nothing.
#[derive(Drop)]
pub(crate) struct GatedDesk<'a, D: Desk, G: Gate> {
    desk: D,
    gate: &'a G,
    session: u32,
    asked: u64,
}

impl<'a, D: Desk, G: Gate> GatedDesk<'a, D, G> {
    /// The desk of the session with this number, which asked nothing yet.
    pub(crate) fn new(desk: D, gate: &'a G, session: u32) -> GatedDesk<'a, D, G> {
        GatedDesk {
            desk,
            gate,
            session,
            asked: 0,
        }
    }
}

impl<'a, D: Desk, G: Gate> Desk for GatedDesk<'a, D, G> {
    ghost State = { D.State };

    ghost state = { λ d. D.state d.desk };

    ghost gives = { D.gives };

    ghost form_of = { D.form_of };

    fn form(&self) -> Form {
        self.desk.form()
    }

    fn ask(&mut self, line: Line) -> Reply {
        self.gate.before_ask(self.session, self.asked);
        let reply = self.desk.ask(line);
        self.gate.after_reply(self.session, self.asked);
        self.asked = self.asked.saturating_add(1);
        reply
    }

    fn asks_together() -> bool {
        D::asks_together()
    }

    /// With a gate that does nothing the lines are passed on together.
    fn ask_all(&mut self, lines: &[Line], replies: &mut [Reply]) {
        if self.gate.is_open() {
            self.desk.ask_all(lines, replies);
            return;
        }
        for at in 0..lines.len() {
            replies[at] = self.ask(lines[at]);
        }
    }
}
