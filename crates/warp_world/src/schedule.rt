//! Schedule files, read: a line with the number of replicas, and a line for each move, whose ranges are those of a
//! form. Each schedule has one text.
ghost use Rattle.std.specs.Prelude.{◌≡◌, ◌≢◌, ℕ, ◌<◌, List, [], ◌∷◌, ◌++◌, IfSome, IfNone, IfOk, IfErr, codes, decimal};
ghost use Rattle.std.specs.Prelude.{length, map};
ghost use Rattle.std.specs.List.{slice_split};
ghost use Rattle.warp_tag.specs.declared.form.Form.{Form};
ghost use Rattle.warp_record.specs.Lines.{IsOneLine};
ghost use Rattle.warp_record.specs.Number.{is_space};
ghost use Rattle.warp_world.specs.Moves.{IsMove, most_replicas, move_words};
ghost use Rattle.warp_world.specs.Schedule.{IsCount, IsFault, SpellsSchedule, count_words, line};
ghost use Rattle.warp_world.specs.declared.moves.Move.{Move};

use crate::fault::ScheduleFault;
use crate::moves::Move;
use std::alloc::Global;
use warp_record::{is_keyword, read_record, read_u32, split_words};
use warp_tag::Form;

/// The most bytes of a schedule file.
pub const MAX_SCHEDULE: usize = 1_048_576;

/// The most replicas of a world.
pub const MAX_REPLICAS: u32 = 16;

/// The first word of a schedule.
const REPLICAS: &[u8] = b"replicas";

/// The first word of a move that makes a record.
const MAKE: &[u8] = b"make";

/// The first word of a move that carries an entry.
const CARRY: &[u8] = b"carry";

/// The first word of a move that collects.
const COLLECT: &[u8] = b"collect";

/// The first word of a move that settles.
const SETTLE: &[u8] = b"settle";

/// The first word of a move that restarts.
const RESTART: &[u8] = b"restart";

/// The text of the first line, without its line feed, and what is behind it; `None` where there is no line feed.
fn split_line(bytes: &[u8]) -> Option<(&[u8], &[u8])>
    ensures found { IfSome result (λ parts. IsOneLine parts.0.now × (bytes.now ≡ parts.0.now ++ 10 ∷ parts.1.now)) }
    ensures none { IfNone result (IsOneLine bytes.now) }
{
    let end = bytes.iter().position(|byte| *byte == b'\n')?;
    Some((&bytes[..end], &bytes[end + 1..]))
}

/// The number of a replica, which the word spells.
fn read_replica(word: &[u8]) -> Option<u32>
    ensures found { IfSome result (λ replica. (replica < most_replicas) × (word.now ≡ decimal replica)) }
    ensures none { IfNone result ((replica : ℕ) → replica < most_replicas → word.now ≢ decimal replica) }
{
    read_u32(word, MAX_REPLICAS - 1)
}

/// How many replicas there are to be, which the word spells.
#[tactic(auto, using(crate::proofs::MoveReadings::same_count))]
fn read_replicas(word: &[u8]) -> Option<usize>
    ensures found { IfSome result (λ count. IsCount count × (word.now ≡ decimal count)) }
    ensures none { IfNone result ((count : ℕ) → IsCount count → word.now ≢ decimal count) }
{
    match read_u32(word, MAX_REPLICAS)? {
        0 => None,
        count => Some(count as usize),
    }
}

/// The number of replicas whose words these are; `None` where there is none.
fn count_of(words: &[&[u8]]) -> Option<usize>
    ensures found { IfSome result (λ count. IsCount count × (map (λ word. word.now) words.now ≡ count_words count)) }
    ensures none { IfNone result ((count : ℕ) → IsCount count → map (λ word. word.now) words.now ≢ count_words count) }
{
    match words {
        [word, count] if is_keyword(word, REPLICAS) => read_replicas(count),
        _ => None,
    }
}

/// The move in range in this form that these words tell behind `make`; `None` where there is none.
fn read_make(form: Form, words: &[&[u8]]) -> Option<Move>
    ensures found { IfSome result
        (λ next. IsMove form next × (codes "make" ∷ map (λ word. word.now) words.now ≡ move_words next)) }
    ensures none { IfNone result
        ((next : Move) → IsMove form next → codes "make" ∷ map (λ word. word.now) words.now ≢ move_words next) }
{
    let [replica, said @ ..] = words else {
        return None;
    };
    let replica = read_replica(replica)?;
    let record = read_record(form, said)?;
    Some(Move::Make { replica, record })
}

/// The move in range in this form that these words tell behind `carry`; `None` where there is none.
fn read_carry(form: Form, words: &[&[u8]]) -> Option<Move>
    ensures found { IfSome result
        (λ next. IsMove form next × (codes "carry" ∷ map (λ word. word.now) words.now ≡ move_words next)) }
    ensures none { IfNone result
        ((next : Move) → IsMove form next → codes "carry" ∷ map (λ word. word.now) words.now ≢ move_words next) }
{
    let [from, place, to] = words else {
        return None;
    };
    let from = read_replica(from)?;
    let place = read_u32(place, form.most_records())?;
    let to = read_replica(to)?;
    Some(Move::Carry { from, place, to })
}

/// The move in range in this form whose words are this one and these, which are two or more; `None` where there is
/// none.
fn read_long(form: Form, word: &[u8], fields: &[&[u8]]) -> Option<Move>
    requires { 1 < length fields.now }
    ensures found { IfSome result
        (λ next. IsMove form next × (word.now ∷ map (λ word. word.now) fields.now ≡ move_words next)) }
    ensures none { IfNone result
        ((next : Move) → IsMove form next → word.now ∷ map (λ word. word.now) fields.now ≢ move_words next) }
{
    if is_keyword(word, MAKE) {
        return read_make(form, fields);
    }
    if is_keyword(word, CARRY) {
        return read_carry(form, fields);
    }
    None
}

/// The move in range in this form whose words are these two; `None` where there is none.
fn read_short(form: Form, word: &[u8], replica: &[u8]) -> Option<Move>
    ensures found { IfSome result (λ next. IsMove form next × (word.now ∷ replica.now ∷ [] ≡ move_words next)) }
    ensures none { IfNone result
        ((next : Move) → IsMove form next → word.now ∷ replica.now ∷ [] ≢ move_words next) }
{
    let replica = read_replica(replica)?;
    if is_keyword(word, COLLECT) {
        return Some(Move::Collect(replica));
    }
    if is_keyword(word, SETTLE) {
        return Some(Move::Settle(replica));
    }
    if is_keyword(word, RESTART) {
        return Some(Move::Restart(replica));
    }
    None
}

/// The move in range in this form whose words these are; `None` where there is none.
fn move_of(form: Form, words: &[&[u8]]) -> Option<Move>
    ensures found { IfSome result (λ next. IsMove form next × (map (λ word. word.now) words.now ≡ move_words next)) }
    ensures none { IfNone result
        ((next : Move) → IsMove form next → map (λ word. word.now) words.now ≢ move_words next) }
{
    match words {
        [] | [_] => None,
        [word, replica] => read_short(form, word, replica),
        [word, fields @ ..] => read_long(form, word, fields),
    }
}

/// The number of replicas that the text of a line spells; `None` where it spells none.
fn count_in(text: &[u8]) -> Option<usize>
    ensures found { IfSome result (λ count. IsCount count × (slice_split is_space text.now ≡ count_words count)) }
    ensures none { IfNone result ((count : ℕ) → IsCount count → slice_split is_space text.now ≢ count_words count) }
{
    let words = split_words(text)?;
    count_of(&words)
}

/// The move in range in this form that the text of a line spells; `None` where it spells none.
fn move_in(form: Form, text: &[u8]) -> Option<Move>
    ensures found { IfSome result (λ next. IsMove form next × (slice_split is_space text.now ≡ move_words next)) }
    ensures none { IfNone result ((next : Move) → IsMove form next → slice_split is_space text.now ≢ move_words next) }
{
    let words = split_words(text)?;
    move_of(form, &words)
}

/// The number of replicas that the first line spells, and the bytes behind the line; `None` where it spells none.
fn read_count(bytes: &[u8]) -> Option<(usize, &[u8])>
    ensures found { IfSome result (λ read. IsCount read.0 × (bytes.now ≡ line (count_words read.0) ++ read.1.now)) }
    ensures none { IfNone result
        ((count : ℕ) (rest : List ℕ) → IsCount count → bytes.now ≢ line (count_words count) ++ rest) }
{
    let (text, rest) = split_line(bytes)?;
    let count = count_in(text)?;
    Some((count, rest))
}

/// The move in range in this form that the first line spells, and the bytes behind the line; `None` where it spells
/// none.
fn read_move(form: Form, bytes: &[u8]) -> Option<(Move, &[u8])>
    ensures found { IfSome result (λ read. IsMove form read.0 × (bytes.now ≡ line (move_words read.0) ++ read.1.now)) }
    ensures none { IfNone result
        ((next : Move) (rest : List ℕ) → IsMove form next → bytes.now ≢ line (move_words next) ++ rest) }
{
    let (text, rest) = split_line(bytes)?;
    let next = move_in(form, text)?;
    Some((next, rest))
}

/// How many replicas a schedule file names, 1 to `MAX_REPLICAS`, and its moves. A record that one of them makes is in
/// range in this form. `Err` says at which line the file is refused, which is 0 where it has more than `MAX_SCHEDULE`
/// bytes, or that memory was wanting.
pub fn read_schedule(
    alloc: Global,
    form: Form,
    bytes: &[u8],
) -> Result<(usize, Vec<Move>), ScheduleFault>
    ensures found { IfOk result (λ schedule. SpellsSchedule form bytes.now schedule.0 schedule.1.items) }
    ensures refused { IfErr result (λ fault. IsFault form bytes.now fault) }
{
    if bytes.len() > MAX_SCHEDULE {
        return Err(ScheduleFault::Line(0));
    }
    let Some((count, mut rest)) = read_count(bytes) else {
        return Err(ScheduleFault::Line(1));
    };
    let mut moves = Vec::new(alloc);
    while !rest.is_empty() {
        let Some((next, behind)) = read_move(form, rest) else {
            return Err(ScheduleFault::Line(moves.len() as u64 + 2));
        };
        moves.push(next)?;
        rest = behind;
    }
    Ok((count, moves))
}
