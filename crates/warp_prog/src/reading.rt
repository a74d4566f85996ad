//! From the bytes of a program file to its tree.
ghost use Rattle.std.specs.Prelude.{◌≡◌, ◌≤◌, length, Ok, Err, IfOk, IfErr, option_map};
ghost use Rattle.serde_json.specs.View.{view};
ghost use Rattle.warp_prog.specs.Reading.{longest_file, json_of, reading_of};
ghost use Rattle.warp_prog.specs.View.{file_tree};

use crate::error::LoadError;
use crate::file::ProgramFile;
use crate::misread::Misread;
use crate::shape::file;
use serde_json::Value;
use std::alloc::{AllocError, Global};

/// How many bytes a file has at most.
const LONGEST_FILE: usize = 1_048_576;

/// The JSON value that bytes spell, if they are UTF-8 and a JSON text.
#[tactic(auto, using(crate::proofs::ReadingLemmas::spells_json, crate::proofs::ReadingLemmas::spells_none))]
fn json(alloc: Global, bytes: &[u8]) -> Result<Option<Value>, AllocError>
    ensures { IfOk result (λ o. option_map view o ≡ json_of bytes.now) }
{
    match Value::from_slice(alloc, bytes) {
        Ok(value) => Ok(Some(value)),
        Err(error) => if error.is_memory() {
            Err(AllocError)
        } else {
            Ok(None)
        },
    }
}

/// The file that bytes spell, or the first of the faults that reading finds.
#[tactic(auto, unfolding(crate::specs::Reading::reading_of))]
pub(crate) fn reading(alloc: Global, bytes: &[u8]) -> Result<ProgramFile, LoadError>
    ensures ok { IfOk result (λ f. reading_of bytes.now ≡ Ok (file_tree f)) }
    ensures err { IfErr result (λ e. ¬ (e ≡ LoadError.Memory) → reading_of bytes.now ≡ Err e) }
    ensures memory { IfErr result (λ e. e ≡ LoadError.Memory → length bytes.now ≤ longest_file) }
{
    if bytes.len() > LONGEST_FILE {
        return Err(LoadError::Limit);
    }
    let Some(value) = json(alloc, bytes)? else {
        return Err(LoadError::Json);
    };
    match file(alloc, &value) {
        Ok(file) => Ok(file),
        Err(Misread::Shape) => Err(LoadError::Shape),
        Err(Misread::Memory) => Err(LoadError::Memory),
    }
}
