//! Parts of a file that hold no list.

ghost use Rattle.std.specs.Prelude.{◌≡◌, ◌++◌, OnOk, codes, string_bytes};
ghost use Rattle.std.specs.Fmt.{signed_decimal};
ghost use Rattle.warp_prog.specs.Canonical.{delay_text, quoted, start_text};
ghost use Rattle.warp_prog.specs.View.{start_tree};

use crate::canonical::list::{Spell, spell_list, spell_quoted};
use crate::canonical::number::{spell_further, spell_number};
use crate::file::{
    ActionPart, Array, ArrayStart, CalledPart, InputPart, LinkPart, PendingPart, PortName,
    TimerPart, VariablePart,
};
use crate::name::Name;
use crate::stands_twice::called_name;
use std::alloc::AllocError;

impl Spell for Name {
    ghost use Rattle.warp_prog.specs.Canonical.{quoted};

    ghost spelled = { λ n. quoted n };

    fn spell(&self, text: &mut String) -> Result<(), AllocError> {
        spell_quoted(text, self.as_str())
    }
}

impl Spell for PortName {
    ghost use Rattle.warp_prog.specs.Canonical.{port_text};

    ghost spelled = { λ p. port_text p };

    fn spell(&self, text: &mut String) -> Result<(), AllocError> {
        text.push_str("\"")?;
        text.push_str(self.reactor.as_str())?;
        text.push_str(".")?;
        text.push_str(self.port.as_str())?;
        text.push_str("\"")
    }
}

/// Adds a list of a name and a number, without its end.
fn open_pair(text: &mut String, name: &Name, number: i64) -> Result<(), AllocError>
    ensures { OnOk result (string_bytes text.new
        ≡ string_bytes text.old ++ (codes "[" ++ quoted name.now ++ codes "," ++ signed_decimal number)) }
{
    text.push_str("[")?;
    name.spell(text)?;
    spell_further(text, number)
}

impl Spell for VariablePart {
    ghost use Rattle.warp_prog.specs.Canonical.{variable_text};

    ghost spelled = { λ v. variable_text v };

    fn spell(&self, text: &mut String) -> Result<(), AllocError> {
        open_pair(text, &self.name, self.start)?;
        text.push_str("]")
    }
}

impl Spell for ActionPart {
    ghost use Rattle.warp_prog.specs.Canonical.{action_text};

    ghost spelled = { λ a. action_text a };

    fn spell(&self, text: &mut String) -> Result<(), AllocError> {
        open_pair(text, &self.name, self.delay)?;
        text.push_str("]")
    }
}

impl Spell for TimerPart {
    ghost use Rattle.warp_prog.specs.Canonical.{timer_text};

    ghost spelled = { λ t. timer_text t };

    fn spell(&self, text: &mut String) -> Result<(), AllocError> {
        open_pair(text, &self.name, self.offset)?;
        spell_further(text, self.period)?;
        text.push_str("]")
    }
}

impl Spell for LinkPart {
    ghost use Rattle.warp_prog.specs.Canonical.{link_text};

    ghost spelled = { λ l. link_text l };

    fn spell(&self, text: &mut String) -> Result<(), AllocError> {
        text.push_str("[")?;
        self.source.spell(text)?;
        text.push_str(",")?;
        self.target.spell(text)?;
        spell_delay(text, self.delay)?;
        text.push_str("]")
    }
}

/// Adds the delay of a link behind its ports, if it has one.
fn spell_delay(text: &mut String, delay: Option<i64>) -> Result<(), AllocError>
    ensures { OnOk result (string_bytes text.new ≡ string_bytes text.old ++ delay_text delay) }
{
    match delay {
        Some(delay) => spell_further(text, delay),
        None => Ok(()),
    }
}

impl Spell for InputPart {
    ghost use Rattle.warp_prog.specs.Canonical.{input_text};

    ghost spelled = { λ i. input_text i };

    fn spell(&self, text: &mut String) -> Result<(), AllocError> {
        text.push_str("[")?;
        spell_number(text, self.origin)?;
        text.push_str(",")?;
        self.port.spell(text)?;
        text.push_str("]")
    }
}

impl Spell for i64 {
    ghost use Rattle.std.specs.Fmt.{signed_decimal};

    ghost spelled = { λ n. signed_decimal n };

    fn spell(&self, text: &mut String) -> Result<(), AllocError> {
        spell_number(text, *self)
    }
}

impl Spell for Array {
    ghost use Rattle.warp_prog.specs.Canonical.{array_text};
    ghost use Rattle.warp_prog.specs.View.{array_tree};

    ghost spelled = { λ a. array_text (array_tree a) };

    fn spell(&self, text: &mut String) -> Result<(), AllocError> {
        open_pair(text, &self.name, self.count)?;
        spell_start(text, &self.start)?;
        text.push_str("]")
    }
}

/// Adds with what the cells of an array start, behind a comma.
fn spell_start(text: &mut String, start: &ArrayStart) -> Result<(), AllocError>
    ensures { OnOk result
        (string_bytes text.new ≡ string_bytes text.old ++ (codes "," ++ start_text (start_tree start.now))) }
{
    match start {
        ArrayStart::All(number) => spell_further(text, *number),
        ArrayStart::Each(numbers) => spell_list(text, ",", numbers),
    }
}

impl Spell for CalledPart {
    ghost use Rattle.warp_prog.specs.Canonical.{called_text};

    ghost spelled = { λ c. called_text c };

    fn spell(&self, text: &mut String) -> Result<(), AllocError> {
        text.push_str("[")?;
        spell_quoted(text, called_name(self))?;
        text.push_str(",")?;
        spell_quoted(text, self.text.as_str())?;
        text.push_str("]")
    }
}

impl Spell for PendingPart {
    ghost use Rattle.warp_prog.specs.Canonical.{pending_text};

    ghost spelled = { λ p. pending_text p };

    fn spell(&self, text: &mut String) -> Result<(), AllocError> {
        open_pending(text, self)?;
        text.push_str(",")?;
        self.target.spell(text)?;
        spell_value(text, self)?;
        text.push_str("]")?;
        Ok(())
    }
}

/// Adds the front of the list of a thing that is pending: its time and its microstep.
fn open_pending(text: &mut String, part: &PendingPart) -> Result<(), AllocError>
    ensures { OnOk result (string_bytes text.new ≡ string_bytes text.old
        ++ (codes "[" ++ signed_decimal part.now.time ++ (codes "," ++ signed_decimal part.now.microstep))) }
{
    text.push_str("[")?;
    spell_number(text, part.time)?;
    spell_further(text, part.microstep)
}

/// Adds the value of a thing that is pending, behind a comma.
fn spell_value(text: &mut String, part: &PendingPart) -> Result<(), AllocError>
    ensures { OnOk result
        (string_bytes text.new ≡ string_bytes text.old ++ (codes "," ++ signed_decimal part.now.value)) }
{
    spell_further(text, part.value)
}
