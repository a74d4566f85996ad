//! What is executed, step by step, in the order in which it is executed.
ghost use Rattle.std.specs.Prelude.{◌≡◌};
ghost use Rattle.warp_step.specs.Counter.{IsUnused};

use crate::item::{Item, gather_changed, gather_due, gather_put};
use crate::labels::Labels;
use crate::row_text::{append_number, append_pair, append_part, append_pending, append_tag};
use std::alloc::Global;
use std::sync::ledger::{Blank, Ledger};
use warp_step::{Counter, Given, Meter, Out, State};
use warp_tag::{OutOfMemory, Tag};

/// A meter that notes each step that it counts as a line of JSON, in the order in which they are made: its tag, what
/// was given and what was due, the variables that it changed, what it put, and how many entries are pending after it.
/// Where a run goes back, the notes say so before the steps that follow. Contracts see how often it was ticked, and
/// nothing of the notes.
#[derive(Drop)]
pub struct StepNotes<L: Ledger> {
    ticks: Counter<L>,
    labels: Labels,
    before: Vec<i64>,
    items: Vec<Item>,
    /// The tag of the step that is being made, or was made last.
    tag: Tag,
    /// The lines since the notes were taken last.
    lines: Vec<u8>,
    /// The last tag that was done before the steps that are noted now.
    stood: Option<Tag>,
    /// How many of these steps are not after it.
    again: u64,
    /// How many steps are noted now, those that are left out too.
    steps: u64,
    /// While the lines have so many bytes, steps are left out.
    most: usize,
    /// How many steps were left out.
    left_out: u64,
    /// Whether the step that is being made is left out.
    is_left_out: bool,
    /// Whether a growth was refused.
    lacks: bool,
}

impl<L: Ledger> Meter for StepNotes<L> {
    ghost ticks = { λ n. n.ticks };

    fn tick(&mut self) {
        self.ticks.grow();
    }

    fn look_before(&mut self, tag: Tag, state: &State, given: &[Given]) {
        self.tag = tag;
        if is_through(self.stood, tag) {
            self.again = self.again.saturating_add(1);
        }
        self.steps = self.steps.saturating_add(1);
        self.is_left_out = self.lines.len() >= self.most;
        if self.is_left_out {
            self.left_out = self.left_out.saturating_add(1);
            return;
        }
        let noted = self.note_before(state, given);
        self.lacks |= noted.is_err();
    }

    fn look_after(&mut self, state: &State, outputs: &[Out]) {
        if self.is_left_out {
            return;
        }
        let noted = self.note_after(state, outputs);
        self.lacks |= noted.is_err();
    }
}

impl<L: Ledger> StepNotes<L> {
    /// A meter that was not ticked yet, and has noted nothing.
    pub fn new(alloc: Global, labels: Labels, blank: Blank) -> StepNotes<L>
        requires { IsUnused blank L.name L.parts }
    {
        StepNotes {
            ticks: Counter::new(blank),
            labels,
            before: Vec::new(alloc),
            items: Vec::new(alloc),
            tag: Tag::default(),
            lines: Vec::new(alloc),
            stood: None,
            again: 0,
            steps: 0,
            most: usize::MAX,
            left_out: 0,
            is_left_out: false,
            lacks: false,
        }
    }

    /// The names by which it notes.
    pub fn into_labels(self) -> Labels {
        let StepNotes { labels, .. } = self;
        labels
    }

    /// Says what the last tag was that was done before the next steps, if there was one.
    pub fn begin(&mut self, stood: Option<Tag>) {
        self.stood = stood;
        self.again = 0;
    }

    /// The same, and lets go of what was noted. Once the next steps have lines of so many bytes, those behind them are
    /// counted and left out.
    pub fn begin_within(&mut self, stood: Option<Tag>, most: usize) {
        self.begin(stood);
        self.most = most;
        self.steps = 0;
        self.left_out = 0;
        self.lacks = false;
        self.lines.clear();
    }

    /// How many steps were made since `begin_within`, those that were left out too.
    pub fn steps(&self) -> u64 {
        self.steps
    }

    /// How many of them are not after the last tag that was done before.
    pub fn again(&self) -> u64 {
        self.again
    }

    /// How many of them were left out.
    pub fn left_out(&self) -> u64 {
        self.left_out
    }

    /// Appends what was noted since the last call, after a line on the going back, where the run went back to `back`
    /// from the tag that was the last.
    ///
    /// # Errors
    ///
    /// Where a growth was refused, here or while a step was noted.
    pub fn take(&mut self, back: Option<Tag>, text: &mut Vec<u8>) -> Result<(), OutOfMemory> {
        if self.lacks {
            return Err(OutOfMemory);
        }
        if let Some(stood) = &self.stood {
            append_back(text, *stood, &back, self.again)?;
        }
        text.extend_from_slice(&self.lines)?;
        self.lines.clear();
        Ok(())
    }

    /// Notes what of a step is known before it.
    fn note_before(&mut self, state: &State, given: &[Given]) -> Result<(), OutOfMemory>
        ensures { self.new.ticks ≡ self.old.ticks }
    {
        append_tag(&mut self.lines, self.tag)?;
        append_given(&mut self.lines, &self.labels, given)?;
        gather_due(state, self.tag, &mut self.items)?;
        append_part(&mut self.lines, &self.labels, b"},\"due\":[", &self.items)?;
        self.before.clear();
        self.before.extend_from_slice(state.vars())
    }

    /// Notes what of a step is known after it.
    fn note_after(&mut self, state: &State, outputs: &[Out]) -> Result<(), OutOfMemory>
        ensures { self.new.ticks ≡ self.old.ticks }
    {
        gather_changed(&self.before, state, &mut self.items)?;
        append_part(
            &mut self.lines,
            &self.labels,
            b"],\"changed\":{",
            &self.items,
        )?;
        gather_put(outputs_from(outputs, self.tag), &mut self.items)?;
        append_part(
            &mut self.lines,
            &self.labels,
            b"},\"outputs\":{",
            &self.items,
        )?;
        self.lines.extend_from_slice(b"},\"pending\":")?;
        append_pending(&mut self.lines, state)?;
        self.lines.extend_from_slice(b"}\n")
    }
}

/// Whether the tag is not after this one.
fn is_through(stood: Option<Tag>, tag: Tag) -> bool {
    match stood {
        Some(stood) => !stood.is_before(tag),
        None => false,
    }
}

/// Whether a tag is before another; where there is none, it is.
fn is_earlier(tag: &Option<Tag>, other: Tag) -> bool {
    match tag {
        Some(tag) => tag.is_before(other),
        None => true,
    }
}

/// The outputs from the tag on.
fn outputs_from(outputs: &[Out], tag: Tag) -> &[Out] {
    let from = outputs.partition_point(|output| output.tag.is_before(tag));
    &outputs[from..]
}

/// Appends the part with what is given to a step.
fn append_given(text: &mut Vec<u8>, labels: &Labels, given: &[Given]) -> Result<(), OutOfMemory> {
    text.extend_from_slice(b"],\"given\":{")?;
    for (number, given) in given.iter().enumerate() {
        if number > 0 {
            text.push(b',')?;
        }
        append_pair(text, &labels.inputs, given.input, given.value)?;
    }
    Ok(())
}

/// Appends the line on a going back, if there was one: from which tag, to which, and how many steps were made again.
fn append_back(
    text: &mut Vec<u8>,
    stood: Tag,
    back: &Option<Tag>,
    again: u64,
) -> Result<(), OutOfMemory> {
    if !is_earlier(back, stood) {
        return Ok(());
    }
    text.extend_from_slice(b"{\"rollback\":{\"from\":")?;
    append_place(text, stood)?;
    text.extend_from_slice(b",\"to\":")?;
    match back {
        Some(back) => append_place(text, *back)?,
        None => text.extend_from_slice(b"null")?,
    }
    text.extend_from_slice(b",\"again\":")?;
    append_number(text, again)?;
    text.extend_from_slice(b"}}\n")
}

/// Appends a tag in brackets.
fn append_place(text: &mut Vec<u8>, tag: Tag) -> Result<(), OutOfMemory> {
    text.push(b'[')?;
    append_number(text, tag.time())?;
    text.push(b',')?;
    append_number(text, u64::from(tag.micro()))?;
    text.push(b']')?;
    Ok(())
}
