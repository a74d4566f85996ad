//! Where a program begins that goes on from another one.
ghost use Rattle.std.specs.Prelude.{◌≡◌, Some, None, IfOk, Err, option_map};
ghost use Rattle.serde_json.specs.Find.{get};
ghost use Rattle.serde_json.specs.View.{view};
ghost use Rattle.std.specs.Prelude.{codes};
ghost use Rattle.warp_prog.specs.Json.{four_of, has_only};
ghost use Rattle.warp_prog.specs.Shape.{begin_keys, begin_of, begin_or_none, integer_or_0};
ghost use Rattle.warp_prog.specs.View.{begin_tree};

use crate::file::{Beginning, PendingPart};
use crate::misread::Misread;
use crate::shape::json::{FromJson, four, has_only, list};
use crate::shape::word::{integer_at, port_at};
use serde_json::Value;
use std::alloc::Global;

impl FromJson for PendingPart {
    ghost use Rattle.warp_prog.specs.Shape.{pending_of};

    ghost shape = { pending_of };

    fn from_json(value: &Value) -> Option<PendingPart> {
        let Some((time, microstep, target, value)) = four(value) else {
            return None;
        };
        let Some(time) = integer_at(time) else {
            return None;
        };
        let Some(microstep) = integer_at(microstep) else {
            return None;
        };
        let Some(target) = port_at(target) else {
            return None;
        };
        let Some(value) = integer_at(value) else {
            return None;
        };
        Some(PendingPart {
            time,
            microstep,
            target,
            value,
        })
    }
}

/// Whether a value is an object whose keys are all among those of a beginning.
fn has_begin_keys(value: &Value) -> bool
    ensures { result ≡ has_only begin_keys (view value.now) }
{
    has_only(value, &["pending", "lost", "since"])
}

/// The number under a key; 0 where the key is not there.
fn integer_or_0(value: &Value, key: &str) -> Option<i64>
    ensures { result ≡ integer_or_0 (get key.now (view value.now)) }
{
    match value.get(key) {
        Some(found) => integer_at(found),
        None => Some(0),
    }
}

/// The beginning that a value is.
#[tactic(auto, unfolding(crate::specs::Shape::begin_of))]
fn begin(alloc: Global, value: &Value) -> Result<Beginning, Misread>
    ensures ok { IfOk result (λ b. begin_of (view value.now) ≡ Some (begin_tree b)) }
    ensures err { result ≡ Err Misread.Shape → begin_of (view value.now) ≡ None }
{
    if !has_begin_keys(value) {
        return Err(Misread::Shape);
    }
    let pending = list(alloc, value, "pending")?;
    let Some(lost) = integer_or_0(value, "lost") else {
        return Err(Misread::Shape);
    };
    let Some(since) = integer_or_0(value, "since") else {
        return Err(Misread::Shape);
    };
    Ok(Beginning {
        pending,
        lost,
        since,
    })
}

/// The beginning under its key; none where the key is not there.
pub(crate) fn begin_at(alloc: Global, value: &Value) -> Result<Option<Beginning>, Misread>
    ensures ok { IfOk result
        (λ b. begin_or_none (get (codes "begin") (view value.now)) ≡ Some (option_map begin_tree b)) }
    ensures err { result ≡ Err Misread.Shape → begin_or_none (get (codes "begin") (view value.now)) ≡ None }
{
    match value.get("begin") {
        None => Ok(None),
        Some(found) => {
            let begin = begin(alloc, found)?;
            Ok(Some(begin))
        }
    }
}
