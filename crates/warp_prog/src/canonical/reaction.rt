//! Reactions.
ghost use Rattle.std.specs.Prelude.{◌≡◌, ◌++◌, OnOk, string_bytes};
ghost use Rattle.warp_prog.specs.Canonical.{reaction_text};
ghost use Rattle.warp_prog.specs.View.{reaction_tree};

use crate::canonical::body::spell_behind;
use crate::canonical::list::{Spell, spell_list};
use crate::file::Reaction;
use std::alloc::AllocError;

impl Spell for Reaction {
    ghost use Rattle.warp_prog.specs.Canonical.{reaction_text};
    ghost use Rattle.warp_prog.specs.View.{reaction_tree};

    ghost spelled = { λ r. reaction_text (reaction_tree r) };

    fn spell(&self, text: &mut String) -> Result<(), AllocError> {
        spell_reaction(text, self)
    }
}

/// Adds the text of a reaction.
fn spell_reaction(text: &mut String, reaction: &Reaction) -> Result<(), AllocError>
    ensures { OnOk result
        (string_bytes text.new ≡ string_bytes text.old ++ reaction_text (reaction_tree reaction.now)) }
{
    spell_list(text, "{\"on\":", &reaction.triggers)?;
    spell_list(text, ",\"reads\":", &reaction.reads)?;
    spell_list(text, ",\"writes\":", &reaction.writes)?;
    spell_behind(text, ",\"body\":[", &reaction.body)?;
    text.push_str("]}")?;
    Ok(())
}
