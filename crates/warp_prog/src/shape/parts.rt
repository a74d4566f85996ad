//! Variables, actions, timers, links and program inputs of a file.
ghost use Rattle.std.specs.Prelude.{◌≡◌};
ghost use Rattle.serde_json.specs.View.{view};
ghost use Rattle.warp_prog.specs.Shape.{plain_link_of, delayed_link_of};

use crate::file::{ActionPart, InputPart, LinkPart, TimerPart, VariablePart};
use crate::shape::json::{FromJson, pair, triple};
use crate::shape::word::{integer_at, name_at, port_at};
use serde_json::Value;

impl FromJson for VariablePart {
    ghost use Rattle.warp_prog.specs.Shape.{variable_of};

    ghost shape = { variable_of };

    fn from_json(value: &Value) -> Option<VariablePart> {
        let Some((name, start)) = pair(value) else {
            return None;
        };
        let Some(name) = name_at(name) else {
            return None;
        };
        let Some(start) = integer_at(start) else {
            return None;
        };
        Some(VariablePart { name, start })
    }
}

impl FromJson for ActionPart {
    ghost use Rattle.warp_prog.specs.Shape.{action_of};

    ghost shape = { action_of };

    fn from_json(value: &Value) -> Option<ActionPart> {
        let Some((name, delay)) = pair(value) else {
            return None;
        };
        let Some(name) = name_at(name) else {
            return None;
        };
        let Some(delay) = integer_at(delay) else {
            return None;
        };
        Some(ActionPart { name, delay })
    }
}

impl FromJson for TimerPart {
    ghost use Rattle.warp_prog.specs.Shape.{timer_of};

    ghost shape = { timer_of };

    fn from_json(value: &Value) -> Option<TimerPart> {
        let Some((name, offset, period)) = triple(value) else {
            return None;
        };
        let Some(name) = name_at(name) else {
            return None;
        };
        let Some(offset) = integer_at(offset) else {
            return None;
        };
        let Some(period) = integer_at(period) else {
            return None;
        };
        Some(TimerPart {
            name,
            offset,
            period,
        })
    }
}

fn plain_link(value: &Value) -> Option<LinkPart>
    ensures { result ≡ plain_link_of (view value.now) }
{
    let Some((source, target)) = pair(value) else {
        return None;
    };
    let Some(source) = port_at(source) else {
        return None;
    };
    let Some(target) = port_at(target) else {
        return None;
    };
    Some(LinkPart {
        source,
        target,
        delay: None,
    })
}

fn delayed_link(value: &Value) -> Option<LinkPart>
    ensures { result ≡ delayed_link_of (view value.now) }
{
    let Some((source, target, delay)) = triple(value) else {
        return None;
    };
    let Some(source) = port_at(source) else {
        return None;
    };
    let Some(target) = port_at(target) else {
        return None;
    };
    let Some(delay) = integer_at(delay) else {
        return None;
    };
    Some(LinkPart {
        source,
        target,
        delay: Some(delay),
    })
}

impl FromJson for LinkPart {
    ghost use Rattle.warp_prog.specs.Shape.{link_of};

    ghost shape = { link_of };

    fn from_json(value: &Value) -> Option<LinkPart> {
        match plain_link(value) {
            Some(link) => Some(link),
            None => delayed_link(value),
        }
    }
}

impl FromJson for InputPart {
    ghost use Rattle.warp_prog.specs.Shape.{input_of};

    ghost shape = { input_of };

    fn from_json(value: &Value) -> Option<InputPart> {
        let Some((origin, port)) = pair(value) else {
            return None;
        };
        let Some(origin) = integer_at(origin) else {
            return None;
        };
        let Some(port) = port_at(port) else {
            return None;
        };
        Some(InputPart { origin, port })
    }
}
