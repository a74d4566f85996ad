//! A program file as a tree: all that stands in it, with names, and before any limit is looked at.

use crate::name::Name;
use crate::printed::Printed;
use warp_body::{BinaryOperator, UnaryOperator};

/// A reference to a port, `REACTOR.PORT` in the file.
#[derive(Drop)]
pub struct PortName {
    /// The name of the reactor.
    pub reactor: Name,
    /// The name of the port in it.
    pub port: Name,
}

/// A variable.
#[derive(Drop)]
pub struct VariablePart {
    /// Its name.
    pub name: Name,
    /// The value that it starts with.
    pub start: i64,
}

/// With what the cells of an array start.
#[derive(Drop)]
pub enum ArrayStart {
    /// All with this number.
    All(i64),
    /// The first ones with these numbers, the others with 0.
    Each(Vec<i64>),
}

/// An array.
#[derive(Drop)]
pub struct Array {
    /// Its name.
    pub name: Name,
    /// How many cells it has, as the file has it.
    pub count: i64,
    /// With what they start.
    pub start: ArrayStart,
}

/// How people call a thing of a reactor, or the reactor itself.
#[derive(Drop)]
pub struct CalledPart {
    /// The name of the thing; `None`: the reactor itself.
    pub name: Option<Name>,
    /// What it is called.
    pub text: Printed,
}

/// What is pending where a program begins behind another one.
#[derive(Drop)]
pub struct PendingPart {
    /// The time of its tag, as the file has it.
    pub time: i64,
    /// The microstep of its tag, as the file has it.
    pub microstep: i64,
    /// What is pending: an action, a timer or an input, by its reactor and its name.
    pub target: PortName,
    /// Its value.
    pub value: i64,
}

/// Where a program begins that goes on from another one.
#[derive(Drop)]
pub struct Beginning {
    /// What is pending.
    pub pending: Vec<PendingPart>,
    /// How many entries were lost before, as the file has it.
    pub lost: i64,
    /// The sum of the times at which the programs before it ended, as the file has it.
    pub since: i64,
}

/// An action.
#[derive(Drop)]
pub struct ActionPart {
    /// Its name.
    pub name: Name,
    /// Its minimum delay, as the file has it.
    pub delay: i64,
}

/// A timer.
#[derive(Drop)]
pub struct TimerPart {
    /// Its name.
    pub name: Name,
    /// Its offset, as the file has it.
    pub offset: i64,
    /// Its period, as the file has it.
    pub period: i64,
}

/// A link from an output to an input.
#[derive(Drop)]
pub struct LinkPart {
    /// Where it begins.
    pub source: PortName,
    /// Where it ends.
    pub target: PortName,
    /// Its delay, as the file has it; `None`: without delay.
    pub delay: Option<i64>,
}

/// A program input.
#[derive(Drop)]
pub struct InputPart {
    /// The number of its origin, as the file has it.
    pub origin: i64,
    /// The port that it leads to.
    pub port: PortName,
}

/// An expression.
#[derive(Drop)]
pub enum Expression {
    /// This number.
    Number(i64),
    /// The value of what has this name.
    Value(Name),
    /// Whether what has this name is present.
    Present(Name),
    /// An operator over one part.
    Unary(UnaryOperator, Box<Expression>),
    /// An operator over two parts.
    Binary(BinaryOperator, Box<Expression>, Box<Expression>),
    /// The second if the first is not 0, else the third.
    If(Box<Expression>, Box<Expression>, Box<Expression>),
    /// The product of the first two over the third.
    MultiplyDivide(Box<Expression>, Box<Expression>, Box<Expression>),
    /// The cell of the array of this name with this number.
    At(Name, Box<Expression>),
    /// The time of the tag that is executed.
    Time,
    /// Its microstep.
    Microstep,
}

/// A statement.
#[derive(Drop)]
pub enum Statement {
    /// The variable of this name has the value of the expression.
    Set(Name, Expression),
    /// The output of this name is present with the value of the expression.
    Put(Name, Expression),
    /// The action of this name is wished for, with this additional delay and the value of the expression.
    Schedule(Name, i64, Expression),
    /// The first list if the expression is not 0, else the second.
    If(Expression, Vec<Statement>, Vec<Statement>),
    /// The cell of the array of this name, with the number that the first expression is, has the value of the second.
    SetAt(Name, Expression, Expression),
    /// The list again and again while the expression is not 0, at most so many times.
    While(i64, Expression, Vec<Statement>),
}

/// A reaction.
#[derive(Drop)]
pub struct Reaction {
    /// What it is on.
    pub triggers: Vec<Name>,
    /// What it reads beside.
    pub reads: Vec<Name>,
    /// The outputs and actions that it writes.
    pub writes: Vec<Name>,
    /// What it does.
    pub body: Vec<Statement>,
}

/// A reactor.
#[derive(Drop)]
pub struct Reactor {
    /// Its name.
    pub name: Name,
    /// Its variables.
    pub variables: Vec<VariablePart>,
    /// Its arrays.
    pub arrays: Vec<Array>,
    /// Its inputs.
    pub inputs: Vec<Name>,
    /// Its outputs.
    pub outputs: Vec<Name>,
    /// Its actions.
    pub actions: Vec<ActionPart>,
    /// Its timers.
    pub timers: Vec<TimerPart>,
    /// Its reactions.
    pub reactions: Vec<Reaction>,
    /// How people call what is in it.
    pub called: Vec<CalledPart>,
    /// Those of its variables that are told to nobody who does not ask for them.
    pub hidden: Vec<Name>,
}

/// A program file. Its numbers are as the file has them.
#[derive(Drop)]
pub struct ProgramFile {
    /// The version of its format.
    pub version: i64,
    /// The last time at which the program executes.
    pub stop: i64,
    /// How many origins there are.
    pub origins: i64,
    /// Where it begins, if it goes on from another program.
    pub begin: Option<Beginning>,
    /// The reactors.
    pub reactors: Vec<Reactor>,
    /// The links.
    pub links: Vec<LinkPart>,
    /// The program inputs.
    pub inputs: Vec<InputPart>,
    /// The program outputs.
    pub outputs: Vec<PortName>,
}
