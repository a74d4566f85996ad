//! Bodies, statements and expressions.

use crate::explain::reason::Reason;
use crate::explain::shape::part::{Leaf, leaf_fails};
use crate::explain::terms::{operands, operators, statements};
use crate::explain::trail::{Segment, Trail};
use crate::shape::json::first_word;
use serde_json::Value;

const NO_BODY: &str = "no list of statements (write [[..], ..])";

/// Where a body has the first word of a statement in the place of a statement.
const BARE_WORD: &str = "no statement (a body is a list of statements: write [[..]])";

/// What stands at a place of a statement.
#[derive(Clone, Copy)]
enum Slot {
    /// Its first word.
    Word,
    Leaf(Leaf),
    Expression,
    Body,
}

/// What a statement is made of, and its form in words.
#[derive(Clone, Copy)]
struct Form {
    slots: &'static [Slot],
    words: &'static str,
}

const SET: Form = Form {
    slots: &[Slot::Word, Slot::Leaf(Leaf::Name), Slot::Expression],
    words: "[\"set\", variable, expression]",
};

const PUT: Form = Form {
    slots: &[Slot::Word, Slot::Leaf(Leaf::Name), Slot::Expression],
    words: "[\"put\", output, expression]",
};

const SCHEDULE: Form = Form {
    slots: &[
        Slot::Word,
        Slot::Leaf(Leaf::Name),
        Slot::Leaf(Leaf::Number),
        Slot::Expression,
    ],
    words: "[\"schedule\", action, delay, expression]",
};

const IF: Form = Form {
    slots: &[Slot::Word, Slot::Expression, Slot::Body, Slot::Body],
    words: "[\"if\", expression, [..], [..]]",
};

const SETAT: Form = Form {
    slots: &[
        Slot::Word,
        Slot::Leaf(Leaf::Name),
        Slot::Expression,
        Slot::Expression,
    ],
    words: "[\"setat\", array, expression, expression]",
};

const WHILE: Form = Form {
    slots: &[
        Slot::Word,
        Slot::Leaf(Leaf::Number),
        Slot::Expression,
        Slot::Body,
    ],
    words: "[\"while\", most, expression, [..]]",
};

/// The form of the statements of a file of version 4, or of another one, that begin with this word.
fn form_of(word: &str, is_last: bool) -> Option<Form> {
    match word {
        "set" => Some(SET),
        "put" => Some(PUT),
        "schedule" => Some(SCHEDULE),
        "if" => Some(IF),
        "setat" if is_last => Some(SETAT),
        "while" if is_last => Some(WHILE),
        _ => None,
    }
}

/// Whether a value is no list of statements; this segment leads to it.
#[cycle(statement_fails)]
pub(crate) fn body_fails<'v>(
    value: &'v Value,
    is_last: bool,
    segment: Segment,
    at: &mut Trail<'v>,
) -> bool {
    match value {
        Value::Array(items) => statements_fail(items.as_slice(), is_last, segment, at),
        _ => at.fault_at(segment, Reason::Form(value, NO_BODY)),
    }
}

#[cycle(statement_fails)]
fn statements_fail<'v>(
    items: &'v [Value],
    is_last: bool,
    segment: Segment,
    at: &mut Trail<'v>,
) -> bool {
    for (i, item) in items.iter().enumerate() {
        if statement_fails(item, is_last, at) {
            return at.back_to_item(segment, i);
        }
    }
    false
}

#[cycle(statement_fails)]
fn statement_fails<'v>(value: &'v Value, is_last: bool, at: &mut Trail<'v>) -> bool {
    match value {
        Value::Array(items) => parts_fail(items.as_slice(), is_last, at),
        Value::String(word) if form_of(word.as_str(), is_last).is_some() => {
            at.fault(Reason::Form(value, BARE_WORD))
        }
        _ => at.fault(Reason::Form(value, "no statement")),
    }
}

/// Whether a list of these items is no statement.
#[cycle(statement_fails)]
fn parts_fail<'v>(items: &'v [Value], is_last: bool, at: &mut Trail<'v>) -> bool {
    let Some(word) = first_word(items) else {
        return at.fault(Reason::Plain("this is no statement"));
    };
    let Some(form) = form_of(word, is_last) else {
        return at.fault(Reason::Unread(word, statements(is_last)));
    };
    if items.len() != form.slots.len() {
        return at.fault(Reason::Parts(form.words));
    }
    for (i, (item, slot)) in items.iter().zip(form.slots).enumerate() {
        if slot_fails(item, is_last, *slot, Segment::Item(i), at) {
            return true;
        }
    }
    false
}

/// Whether the value of a slot, to which this segment leads, is not what it has to be.
#[cycle(statement_fails)]
fn slot_fails<'v>(
    value: &'v Value,
    is_last: bool,
    slot: Slot,
    segment: Segment,
    at: &mut Trail<'v>,
) -> bool {
    match slot {
        Slot::Word => false,
        Slot::Leaf(leaf) => leaf_fails(value, leaf, segment, at),
        Slot::Expression => expression_fails(value, is_last, segment, at),
        Slot::Body => body_fails(value, is_last, segment, at),
    }
}

/// Whether a value, to which this segment leads, is no expression.
#[cycle(expression_fails)]
fn expression_fails<'v>(
    value: &'v Value,
    is_last: bool,
    segment: Segment,
    at: &mut Trail<'v>,
) -> bool {
    match value {
        Value::Number(_) => leaf_fails(value, Leaf::Number, segment, at),
        Value::String(_) => leaf_fails(value, Leaf::Name, segment, at),
        Value::Array(items) => operation_fails(items.as_slice(), is_last, at) && at.back(segment),
        _ => at.fault_at(segment, Reason::Form(value, "no expression")),
    }
}

/// Whether a list of these items is no expression.
#[cycle(expression_fails)]
fn operation_fails<'v>(items: &'v [Value], is_last: bool, at: &mut Trail<'v>) -> bool {
    let Some(word) = first_word(items) else {
        return at.fault(Reason::Plain("this is no expression"));
    };
    if operator_fails(word, items.len(), is_last, at) {
        return true;
    }
    for (i, item) in items.iter().enumerate() {
        if i > 0 && operand_fails(word, item, is_last, i, at) {
            return true;
        }
    }
    false
}

/// Whether the part at this place of an operator of this word is no name behind `present` and `at`, else no expression.
#[cycle(expression_fails)]
fn operand_fails<'v>(
    word: &str,
    value: &'v Value,
    is_last: bool,
    place: usize,
    at: &mut Trail<'v>,
) -> bool {
    if word == "present" || (word == "at" && place == 1) {
        return leaf_fails(value, Leaf::Name, Segment::Item(place), at);
    }
    expression_fails(value, is_last, Segment::Item(place), at)
}

/// Whether a word is no operator, or its list has not as many items as it asks.
fn operator_fails<'v>(word: &'v str, items: usize, is_last: bool, at: &mut Trail<'v>) -> bool {
    let Some(parts) = operands(word, is_last) else {
        return at.fault(Reason::Unread(word, operators(is_last)));
    };
    if items == parts.saturating_add(1) {
        return false;
    }
    at.fault(match parts {
        0 => Reason::Plain("this operator has no part"),
        1 => Reason::Plain("this operator has one part"),
        2 => Reason::Plain("this operator has two parts"),
        _ if word == "muldiv" => Reason::Parts("[\"muldiv\", expression, expression, expression]"),
        _ => Reason::Parts("[\"if\", expression, expression, expression]"),
    })
}
