//! Numbers, names and what is made of them.

use crate::explain::reason::Reason;
use crate::explain::trail::{Segment, Trail};
use crate::shape::array::printed_at;
use crate::shape::word::{name_at, port_at};
use serde_json::Value;

/// What a value has to be that holds no other.
#[derive(Clone, Copy)]
pub(crate) enum Leaf {
    Number,
    Name,
    /// A reference to a port.
    Port,
    /// With what the cells of an array start.
    Start,
    /// A name, or the empty text.
    NameOrNone,
    /// A text for people.
    Text,
}

/// A list of leaves.
#[derive(Clone, Copy)]
pub(crate) struct Row {
    /// What its items have to be.
    leaves: &'static [Leaf],
    /// How many of them it has at least.
    fewest: usize,
    /// Its form in words.
    form: &'static str,
}

/// What the value under a key has to be.
#[derive(Clone, Copy)]
pub(crate) enum Part {
    /// This, and it has to be there.
    One(Leaf),
    /// This, if it is there.
    Maybe(Leaf),
    /// A list of these.
    Each(Leaf),
    /// A list of such lists.
    Rows(Row),
}

/// A key of an object, and what its value has to be.
#[derive(Clone, Copy)]
pub(crate) struct Field {
    key: &'static str,
    part: Part,
}

/// What a file has before its reactors.
pub(crate) const ABOVE_REACTORS: &[Field] = &[
    Field {
        key: "version",
        part: Part::One(Leaf::Number),
    },
    Field {
        key: "stop",
        part: Part::One(Leaf::Number),
    },
    Field {
        key: "origins",
        part: Part::One(Leaf::Number),
    },
];

/// What a file has behind its reactors.
pub(crate) const BELOW_REACTORS: &[Field] = &[
    Field {
        key: "links",
        part: Part::Rows(LINK),
    },
    Field {
        key: "inputs",
        part: Part::Rows(PROGRAM_INPUT),
    },
    Field {
        key: "outputs",
        part: Part::Each(Leaf::Port),
    },
];

/// What a reactor has before its reactions.
pub(crate) const IN_REACTOR: &[Field] = &[
    Field {
        key: "name",
        part: Part::One(Leaf::Name),
    },
    Field {
        key: "vars",
        part: Part::Rows(VARIABLE),
    },
    Field {
        key: "arrays",
        part: Part::Rows(ARRAY),
    },
    Field {
        key: "inputs",
        part: Part::Each(Leaf::Name),
    },
    Field {
        key: "outputs",
        part: Part::Each(Leaf::Name),
    },
    Field {
        key: "actions",
        part: Part::Rows(ACTION),
    },
    Field {
        key: "timers",
        part: Part::Rows(TIMER),
    },
    Field {
        key: "called",
        part: Part::Rows(CALLED),
    },
    Field {
        key: "hidden",
        part: Part::Each(Leaf::Name),
    },
];

/// What a beginning has.
pub(crate) const IN_BEGIN: &[Field] = &[
    Field {
        key: "pending",
        part: Part::Rows(PENDING),
    },
    Field {
        key: "lost",
        part: Part::Maybe(Leaf::Number),
    },
    Field {
        key: "since",
        part: Part::Maybe(Leaf::Number),
    },
];

/// What a reaction has between its triggers and its body.
pub(crate) const IN_REACTION: &[Field] = &[
    Field {
        key: "reads",
        part: Part::Each(Leaf::Name),
    },
    Field {
        key: "writes",
        part: Part::Each(Leaf::Name),
    },
];

const LINK: Row = Row {
    leaves: &[Leaf::Port, Leaf::Port, Leaf::Number],
    fewest: 2,
    form: "[from, to] or [from, to, delay]",
};

const PROGRAM_INPUT: Row = Row {
    leaves: &[Leaf::Number, Leaf::Port],
    fewest: 2,
    form: "[origin, port]",
};

const VARIABLE: Row = Row {
    leaves: &[Leaf::Name, Leaf::Number],
    fewest: 2,
    form: "[name, start]",
};

const ARRAY: Row = Row {
    leaves: &[Leaf::Name, Leaf::Number, Leaf::Start],
    fewest: 3,
    form: "[name, count, start]",
};

const CALLED: Row = Row {
    leaves: &[Leaf::NameOrNone, Leaf::Text],
    fewest: 2,
    form: "[name, text]",
};

const PENDING: Row = Row {
    leaves: &[Leaf::Number, Leaf::Number, Leaf::Port, Leaf::Number],
    fewest: 4,
    form: "[time, microstep, target, value]",
};

const ACTION: Row = Row {
    leaves: &[Leaf::Name, Leaf::Number],
    fewest: 2,
    form: "[name, delay]",
};

const TIMER: Row = Row {
    leaves: &[Leaf::Name, Leaf::Number, Leaf::Number],
    fewest: 3,
    form: "[name, offset, period]",
};

/// Whether a value of an object is not what its key asks, or is missing.
pub(crate) fn fields_fail<'v>(
    value: &'v Value,
    fields: &'static [Field],
    at: &mut Trail<'v>,
) -> bool {
    for field in fields {
        if field_fails(value, field.key, field.part, at) {
            return true;
        }
    }
    false
}

/// Whether the value under a key is not what it has to be, or is missing; false where a list is not there.
fn field_fails<'v>(value: &'v Value, key: &'static str, part: Part, at: &mut Trail<'v>) -> bool {
    match (value.get(key), part) {
        (Some(found), Part::One(leaf) | Part::Maybe(leaf)) => {
            leaf_fails(found, leaf, Segment::Key(key), at)
        }
        (Some(found), _) => list_fails(found, key, part, at),
        (None, Part::One(_)) => at.fault(Reason::Missing(key)),
        (None, _) => false,
    }
}

/// Whether the value under a key is no list, or one of its items is not what it has to be.
pub(crate) fn list_fails<'v>(
    value: &'v Value,
    key: &'static str,
    part: Part,
    at: &mut Trail<'v>,
) -> bool {
    let Some(items) = value.as_array() else {
        return at.fault_at(Segment::Key(key), Reason::Form(value, "no list"));
    };
    for (i, item) in items.iter().enumerate() {
        let segment = Segment::Of(key, i);
        let fails = match part {
            Part::One(leaf) | Part::Maybe(leaf) | Part::Each(leaf) => {
                leaf_fails(item, leaf, segment, at)
            }
            Part::Rows(row) => row_fails(item, row, at) && at.back(segment),
        };
        if fails {
            return true;
        }
    }
    false
}

/// Whether a value is no list of this row.
fn row_fails<'v>(value: &'v Value, row: Row, at: &mut Trail<'v>) -> bool {
    let Some(items) = value.as_array() else {
        return at.fault(Reason::Parts(row.form));
    };
    if items.len() < row.fewest || items.len() > row.leaves.len() {
        return at.fault(Reason::Parts(row.form));
    }
    for (i, (item, leaf)) in items.iter().zip(row.leaves).enumerate() {
        if leaf_fails(item, *leaf, Segment::Item(i), at) {
            return true;
        }
    }
    false
}

/// Whether a value, to which this segment leads, is no such leaf.
pub(crate) fn leaf_fails<'v>(
    value: &'v Value,
    leaf: Leaf,
    segment: Segment,
    at: &mut Trail<'v>,
) -> bool {
    let (is_there, words) = match leaf {
        Leaf::Number => (value.as_i64().is_some(), "no integer of 64 bits"),
        Leaf::Name => (
            name_at(value).is_some(),
            "no name: 1 to 32 letters, digits and _, the first a letter",
        ),
        Leaf::Port => (port_at(value).is_some(), "no port: REACTOR.PORT, two names"),
        Leaf::Start => (
            is_start(value),
            "no integer of 64 bits, and no list of such",
        ),
        Leaf::NameOrNone => (
            is_name_or_none(value),
            "no name: 1 to 32 letters, digits and _, the first a letter; nor \"\"",
        ),
        Leaf::Text => (
            printed_at(value).is_some(),
            "no text of 1 to 120 printed characters without \" and \\",
        ),
    };
    !is_there && at.fault_at(segment, Reason::Form(value, words))
}

/// Whether a value is a number, or a list of numbers.
fn is_start(value: &Value) -> bool {
    match value.as_array() {
        Some(items) => items.iter().all(|item| item.as_i64().is_some()),
        None => value.as_i64().is_some(),
    }
}

/// Whether a value is a name, or the empty text.
fn is_name_or_none(value: &Value) -> bool {
    name_at(value).is_some() || value.as_str() == Some("")
}
