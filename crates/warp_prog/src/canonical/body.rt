//! Bodies, statements and expressions.
ghost use Rattle.std.specs.Prelude.{◌≡◌, ◌++◌, OnOk, codes, string_bytes};
ghost use Rattle.warp_prog.specs.Canonical.{assignment_text, binary_word, closing_text, named_front};
ghost use Rattle.warp_prog.specs.Canonical.{scheduling_text, statement_text, statements_text, term_text};
ghost use Rattle.warp_prog.specs.Canonical.{cell_set_text, unary_word, word_front};
ghost use Rattle.std.specs.Fmt.{signed_decimal};
ghost use Rattle.warp_prog.specs.View.{statement_tree, term_tree};
ghost use Rattle.warp_prog.specs.inner.Rule.{statements_tree};

use crate::canonical::list::{Spell, add_comma};
use crate::canonical::number::{spell_further, spell_number};
use crate::file::{Expression, Statement};
use crate::name::Name;
use std::alloc::AllocError;
use warp_body::{BinaryOperator, UnaryOperator};

/// The word of an operator over one part.
fn unary_word(operator: UnaryOperator) -> &'static str
    ensures { result.now ≡ unary_word operator }
{
    match operator {
        UnaryOperator::Negate => "neg",
        UnaryOperator::Not => "not",
        UnaryOperator::Absolute => "abs",
    }
}

/// The word of an operator over two parts.
fn binary_word(operator: BinaryOperator) -> &'static str
    ensures { result.now ≡ binary_word operator }
{
    match operator {
        BinaryOperator::Add => "+",
        BinaryOperator::Subtract => "-",
        BinaryOperator::Multiply => "*",
        BinaryOperator::Divide => "/",
        BinaryOperator::Remainder => "%",
        BinaryOperator::Equal => "=",
        BinaryOperator::Less => "<",
        BinaryOperator::And => "and",
        BinaryOperator::Or => "or",
        BinaryOperator::Minimum => "min",
        BinaryOperator::Maximum => "max",
        BinaryOperator::BitAnd => "&",
        BinaryOperator::BitOr => "|",
        BinaryOperator::BitXor => "^",
        BinaryOperator::ShiftLeft => "<<",
        BinaryOperator::ShiftRight => ">>",
        BinaryOperator::Mix => "mix",
    }
}

/// Adds the front of a list that begins with a word.
fn open(text: &mut String, word: &str) -> Result<(), AllocError>
    ensures { OnOk result (string_bytes text.new ≡ string_bytes text.old ++ word_front word.now) }
{
    text.push_str("[\"")?;
    text.push_str(word)?;
    text.push_str("\",")
}

/// Adds the front of a list that begins with a word and a name.
fn open_named(text: &mut String, word: &str, name: &Name) -> Result<(), AllocError>
    ensures { OnOk result
        (string_bytes text.new ≡ string_bytes text.old ++ named_front word.now name.now) }
{
    open(text, word)?;
    name.spell(text)
}

/// Adds the text of an expression.
fn spell_term(text: &mut String, term: &Expression) -> Result<(), AllocError>
    ensures { OnOk result (string_bytes text.new ≡ string_bytes text.old ++ term_text (term_tree term.now)) }
{
    match term {
        Expression::Number(number) => spell_number(text, *number),
        Expression::Value(name) => name.spell(text),
        Expression::Present(name) => {
            open_named(text, "present", name)?;
            text.push_str("]")
        }
        Expression::Unary(operator, a) => {
            open(text, unary_word(*operator))?;
            spell_term(text, a)?;
            text.push_str("]")
        }
        Expression::Binary(operator, a, b) => {
            open(text, binary_word(*operator))?;
            spell_term(text, a)?;
            text.push_str(",")?;
            spell_term(text, b)?;
            text.push_str("]")
        }
        Expression::If(test, a, b) => {
            open(text, "if")?;
            spell_term(text, test)?;
            text.push_str(",")?;
            spell_term(text, a)?;
            text.push_str(",")?;
            spell_term(text, b)?;
            text.push_str("]")
        }
        Expression::MultiplyDivide(a, b, c) => {
            open(text, "muldiv")?;
            spell_term(text, a)?;
            text.push_str(",")?;
            spell_term(text, b)?;
            text.push_str(",")?;
            spell_term(text, c)?;
            text.push_str("]")
        }
        Expression::At(name, index) => {
            open_named(text, "at", name)?;
            text.push_str(",")?;
            spell_term(text, index)?;
            text.push_str("]")
        }
        Expression::Time => text.push_str("[\"time\"]"),
        Expression::Microstep => text.push_str("[\"micro\"]"),
    }
}

/// Adds the end of a statement: a comma, an expression and the bracket.
fn close_with(text: &mut String, term: &Expression) -> Result<(), AllocError>
    ensures { OnOk result (string_bytes text.new ≡ string_bytes text.old ++ closing_text (term_tree term.now)) }
{
    text.push_str(",")?;
    spell_term(text, term)?;
    text.push_str("]")
}

/// Adds a statement of this word, with a name and an expression.
fn spell_assignment(
    text: &mut String,
    word: &str,
    name: &Name,
    term: &Expression,
) -> Result<(), AllocError>
    ensures { OnOk result (string_bytes text.new
        ≡ string_bytes text.old ++ assignment_text word.now name.now (term_tree term.now)) }
{
    open_named(text, word, name)?;
    close_with(text, term)
}

/// Adds a statement that schedules.
fn spell_scheduling(
    text: &mut String,
    name: &Name,
    delay: i64,
    term: &Expression,
) -> Result<(), AllocError>
    ensures { OnOk result (string_bytes text.new
        ≡ string_bytes text.old ++ scheduling_text name.now delay (term_tree term.now)) }
{
    open_named(text, "schedule", name)?;
    spell_further(text, delay)?;
    close_with(text, term)?;
    Ok(())
}

/// Adds the front of a choice: its word and its test.
fn open_choice(text: &mut String, test: &Expression) -> Result<(), AllocError>
    ensures { OnOk result (string_bytes text.new
        ≡ string_bytes text.old ++ (word_front (codes "if") ++ term_text (term_tree test.now))) }
{
    open(text, "if")?;
    spell_term(text, test)
}

/// Adds a statement that sets a cell.
fn spell_cell_set(
    text: &mut String,
    name: &Name,
    index: &Expression,
    term: &Expression,
) -> Result<(), AllocError>
    ensures { OnOk result (string_bytes text.new
        ≡ string_bytes text.old ++ cell_set_text name.now (term_tree index.now) (term_tree term.now)) }
{
    open_named(text, "setat", name)?;
    text.push_str(",")?;
    spell_term(text, index)?;
    close_with(text, term)
}

/// Adds the front of a loop: its word, how often it may turn, and its test.
fn open_loop(text: &mut String, most: i64, test: &Expression) -> Result<(), AllocError>
    ensures { OnOk result (string_bytes text.new ≡ string_bytes text.old
        ++ ((word_front (codes "while") ++ signed_decimal most) ++ (codes "," ++ term_text (term_tree test.now)))) }
{
    open(text, "while")?;
    spell_number(text, most)?;
    text.push_str(",")?;
    spell_term(text, test)
}

/// Adds the text of a statement.
#[cycle(spell_statement)]
fn spell_statement(text: &mut String, statement: &Statement) -> Result<(), AllocError>
    ensures { OnOk result
        (string_bytes text.new ≡ string_bytes text.old ++ statement_text (statement_tree statement.now)) }
{
    match statement {
        Statement::Set(name, term) => spell_assignment(text, "set", name, term),
        Statement::Put(name, term) => spell_assignment(text, "put", name, term),
        Statement::Schedule(name, delay, term) => spell_scheduling(text, name, *delay, term),
        Statement::If(test, first, second) => {
            open_choice(text, test)?;
            spell_behind(text, ",[", first)?;
            close_choice(text, second)
        }
        Statement::SetAt(name, index, term) => spell_cell_set(text, name, index, term),
        Statement::While(most, test, turn) => {
            open_loop(text, *most, test)?;
            spell_behind(text, ",[", turn)?;
            text.push_str("]]")
        }
    }
}

/// Adds the end of a choice: its second list.
#[cycle(spell_statement)]
fn close_choice(text: &mut String, second: &[Statement]) -> Result<(), AllocError>
    ensures { OnOk result (string_bytes text.new ≡ string_bytes text.old
        ++ ((codes "],[" ++ statements_text 0 (statements_tree second.now)) ++ codes "]]")) }
{
    spell_behind(text, "],[", second)?;
    text.push_str("]]")?;
    Ok(())
}

/// Adds what stands before a list of statements, and these.
#[cycle(spell_statement)]
pub(crate) fn spell_behind(
    text: &mut String,
    front: &str,
    body: &[Statement],
) -> Result<(), AllocError>
    ensures { OnOk result (string_bytes text.new
        ≡ string_bytes text.old ++ (front.now ++ statements_text 0 (statements_tree body.now))) }
{
    text.push_str(front)?;
    spell_statements(text, body)
}

/// Adds the texts of these statements, with commas between them.
#[cycle(spell_statement)]
fn spell_statements(text: &mut String, body: &[Statement]) -> Result<(), AllocError>
    ensures { OnOk result
        (string_bytes text.new ≡ string_bytes text.old ++ statements_text 0 (statements_tree body.now)) }
{
    for (i, statement) in body.iter().enumerate() {
        add_comma(text, i)?;
        spell_statement(text, statement)?;
    }
    Ok(())
}
