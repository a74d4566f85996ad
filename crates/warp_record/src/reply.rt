//! The replies, and the one spelling of each, read and written.
ghost use Rattle.std.specs.Prelude.{◌≡◌, ◌≢◌, ℕ, Bool, codes, map, ◌+◌, ◌<◌, ◌≤◌, [], ◌∷◌, ◌++◌, IfSome, IfNone};
ghost use Rattle.std.specs.Prelude.{decimal, length, vec_len, vec_capacity};
ghost use Rattle.std.specs.Fmt.{signed_decimal};
ghost use Rattle.std.specs.List.{join_with_byte};
ghost use Rattle.warp_tag.specs.Limits.{greatest_count, most_records};
ghost use Rattle.warp_tag.specs.Moment.{Moment, IsTagOf};
ghost use Rattle.warp_tag.specs.declared.form.Form.{Form};
ghost use Rattle.warp_tag.specs.declared.out.Out.{Out};
ghost use Rattle.warp_record.specs.declared.record.Record.{Record};
ghost use Rattle.warp_record.specs.declared.reply.Refusal.{Refusal};
ghost use Rattle.warp_record.specs.declared.reply.Reply.{Reply};
ghost use Rattle.warp_record.specs.Record.{IsRecord, record_words, tag_words};
ghost use Rattle.warp_record.specs.Reply.{IsOut, IsReply, flag_word, out_words, refusal_number, reply_line};
ghost use Rattle.warp_record.specs.Reply.{reply_spelling, reply_words};

use crate::count::MAX_COUNT;
use crate::line::{BOARD, BREACH, HORIZON, LOG, LOST, OUTPUT, OUTPUTS, RELEASED, ROW, VAR};
use crate::number::{
    BLOCK_END, append, append_from, append_int, append_u32, append_u64, read_int, read_number,
    read_u32, write_int, write_word,
};
use crate::record::{Record, append_record, append_tag, read_record, read_tag};
use crate::room::REPLY_ROOM;
use crate::split::{is_keyword, split_words};
use itoa::write_digits;
use warp_tag::{Form, Out, Tag};

// The first words of replies that begin no line. That of `none` stands alone or before a length.
const TAKEN: &[u8] = b"taken";

const KNOWN: &[u8] = b"known";

const REFUSED: &[u8] = b"refused";

const NONE: &[u8] = b"none";

const COLLECTED: &[u8] = b"collected";

/// Why a line was refused. The numbers 1 to 11 stand in this order.
#[derive(Clone, Copy, Debug, PartialEq, Eq)]
pub enum Refusal {
    /// 1: no line has this spelling.
    Syntax,
    /// 2: the program has no such origin.
    NoOrigin,
    /// 3: the tag is past the program's stop, or past the last microstep of its times. An announcement's may be the
    /// first tag behind the stop.
    PastStop,
    /// 4: the program has no such input.
    NoInput,
    /// 5: the input belongs to another origin.
    NotYours,
    /// 6: the program has no such variable.
    NoVar,
    /// 7: the log is full.
    LogFull,
    /// 8: no memory was to be had.
    NoMemory,
    /// 9: the line has more than 128 bytes.
    TooLong,
    /// 10: the server is busy.
    Busy,
    /// 11: there is no board here.
    NoBoard,
}

/// The answer to a line. Lengths of a log and places in it are up to the form's most records.
#[derive(Clone, Copy, Debug, PartialEq, Eq)]
pub enum Reply {
    /// `taken P`: the record is new, and stands at this place of the log, from 1.
    Taken(u32),
    /// `known P`: the record was there before, at this place of the log, from 1.
    Known(u32),
    /// `refused K`.
    Refused(Refusal),
    /// `var N V`: the value of a variable.
    Var {
        /// The length of the log at which the answer was given.
        log: u32,
        /// The variable's value.
        value: i64,
    },
    /// `outputs N C`: how many outputs there are.
    Outputs {
        /// The length of the log at which the answer was given.
        log: u32,
        /// How many.
        count: u64,
    },
    /// `output N T M P V`: an output.
    Output {
        /// The length of the log at which the answer was given.
        log: u32,
        /// The output.
        output: Out,
    },
    /// `none N`: there is no such output, or no such place in the log.
    Nothing {
        /// The length of the log at which the answer was given.
        log: u32,
    },
    /// `horizon N T M`: the tag before which outputs are released.
    Horizon {
        /// The length of the log at which the answer was given.
        log: u32,
        /// The horizon.
        tag: Tag,
    },
    /// `released N C`: how many outputs are released.
    Released {
        /// The length of the log at which the answer was given.
        log: u32,
        /// How many.
        count: u64,
    },
    /// `lost N C`: how much was lost.
    Lost {
        /// The length of the log at which the answer was given.
        log: u32,
        /// How much.
        count: u64,
    },
    /// `breach N B`: whether an origin broke an announcement of its own, 0 or 1.
    Breach {
        /// The length of the log at which the answer was given.
        log: u32,
        /// Whether it did.
        broken: bool,
    },
    /// `log N` and a record's line: a record of the log.
    Log {
        /// The length of the log at which the answer was given.
        log: u32,
        /// The record.
        record: Record,
    },
    /// `collected N`: all is executed, and what is not needed before the horizon was let go of.
    Collected {
        /// The length of the log at which the answer was given.
        log: u32,
    },
    /// `board C F`: what a board has.
    Board {
        /// How many rows, up to the form's most.
        count: u32,
        /// Whether it is frozen, 0 or 1.
        frozen: bool,
    },
    /// `row T M P V`: a row of a board, which is an output.
    Row(Out),
    /// `none`: the board has no such row.
    NoRow,
}

impl Refusal {
    /// The number in `refused K`, 1 to 11.
    pub fn number(self) -> u32
        ensures { result ≡ refusal_number self }
    {
        match self {
            Refusal::Syntax => 1,
            Refusal::NoOrigin => 2,
            Refusal::PastStop => 3,
            Refusal::NoInput => 4,
            Refusal::NotYours => 5,
            Refusal::NoVar => 6,
            Refusal::LogFull => 7,
            Refusal::NoMemory => 8,
            Refusal::TooLong => 9,
            Refusal::Busy => 10,
            Refusal::NoBoard => 11,
        }
    }

    /// The refusal with this number; `None` where there is none.
    fn from_number(number: u32) -> Option<Refusal>
        ensures found { IfSome result (λ refusal. refusal_number refusal ≡ number) }
        ensures none { IfNone result ((refusal : Refusal) → refusal_number refusal ≡ number → ⊥) }
    {
        match number {
            1 => Some(Refusal::Syntax),
            2 => Some(Refusal::NoOrigin),
            3 => Some(Refusal::PastStop),
            4 => Some(Refusal::NoInput),
            5 => Some(Refusal::NotYours),
            6 => Some(Refusal::NoVar),
            7 => Some(Refusal::LogFull),
            8 => Some(Refusal::NoMemory),
            9 => Some(Refusal::TooLong),
            10 => Some(Refusal::Busy),
            11 => Some(Refusal::NoBoard),
            _ => None,
        }
    }
}

/// The count that the word spells.
fn read_count(word: &[u8]) -> Option<u64>
    ensures found { IfSome result (λ count. (count ≤ greatest_count) × (word.now ≡ decimal count)) }
    ensures none { IfNone result ((count : ℕ) → count ≤ greatest_count → word.now ≡ decimal count → ⊥) }
{
    read_number(word, u64::MAX)
}

/// The flag that the word spells.
fn read_flag(word: &[u8]) -> Option<bool>
    ensures found { IfSome result (λ flag. word.now ≡ flag_word flag) }
    ensures none { IfNone result ((flag : Bool) → word.now ≡ flag_word flag → ⊥) }
{
    if is_keyword(word, b"0") {
        Some(false)
    } else if is_keyword(word, b"1") {
        Some(true)
    } else {
        None
    }
}

/// The output in range in this form that the words spell.
fn read_output(form: Form, words: &[&[u8]]) -> Option<Out>
    ensures found { IfSome result
        (λ output. IsOut form output × (map (λ word. word.now) words.now ≡ out_words output)) }
    ensures none { IfNone result ((output : Out) → IsOut form output →
        map (λ word. word.now) words.now ≡ out_words output → ⊥) }
{
    let [time, micro, port, value] = words else {
        return None;
    };
    let tag = read_tag(form, time, micro)?;
    let port = read_u32(port, form.most_outputs() - 1)?;
    let value = read_int(value)?;
    Some(Out { tag, port, value })
}

/// The refusal that this word tells behind `refused`, in range in any form; `None` where there is none.
fn read_refused(number: &[u8]) -> Option<Reply>
    ensures found { (f : Form) → IfSome result
        (λ reply. IsReply f reply × (codes "refused" ∷ number.now ∷ [] ≡ reply_words reply)) }
    ensures none { (f : Form) → IfNone result
        ((reply : Reply) → IsReply f reply → codes "refused" ∷ number.now ∷ [] ≡ reply_words reply → ⊥) }
{
    let number = read_u32(number, MAX_COUNT)?;
    let refusal = Refusal::from_number(number)?;
    Some(Reply::Refused(refusal))
}

/// The reply in range in this form whose words are these two; `None` where there is none.
fn read_short(form: Form, word: &[u8], number: &[u8]) -> Option<Reply>
    ensures found { IfSome result
        (λ reply. IsReply form reply × (word.now ∷ number.now ∷ [] ≡ reply_words reply)) }
    ensures none { IfNone result
        ((reply : Reply) → IsReply form reply → word.now ∷ number.now ∷ [] ≡ reply_words reply → ⊥) }
{
    if is_keyword(word, REFUSED) {
        return read_refused(number);
    }
    let number = read_u32(number, form.most_records())?;
    if is_keyword(word, NONE) {
        return Some(Reply::Nothing { log: number });
    }
    if is_keyword(word, COLLECTED) {
        return Some(Reply::Collected { log: number });
    }
    if is_keyword(word, TAKEN) {
        return if number > 0 {
            Some(Reply::Taken(number))
        } else {
            None
        };
    }
    if is_keyword(word, KNOWN) {
        return if number > 0 {
            Some(Reply::Known(number))
        } else {
            None
        };
    }
    None
}

/// The value that these words tell behind `var` in this form; `None` where there is none.
fn read_var(form: Form, number: &[u8], value: &[u8]) -> Option<Reply>
    ensures found { IfSome result
        (λ reply. IsReply form reply × (codes "var" ∷ number.now ∷ value.now ∷ [] ≡ reply_words reply)) }
    ensures none { IfNone result ((reply : Reply) → IsReply form reply →
        codes "var" ∷ number.now ∷ value.now ∷ [] ≡ reply_words reply → ⊥) }
{
    let log = read_u32(number, form.most_records())?;
    let value = read_int(value)?;
    Some(Reply::Var { log, value })
}

/// What these words tell behind `breach` in this form; `None` where there is nothing.
fn read_breach(form: Form, number: &[u8], flag: &[u8]) -> Option<Reply>
    ensures found { IfSome result
        (λ reply. IsReply form reply × (codes "breach" ∷ number.now ∷ flag.now ∷ [] ≡ reply_words reply)) }
    ensures none { IfNone result ((reply : Reply) → IsReply form reply →
        codes "breach" ∷ number.now ∷ flag.now ∷ [] ≡ reply_words reply → ⊥) }
{
    let log = read_u32(number, form.most_records())?;
    let broken = read_flag(flag)?;
    Some(Reply::Breach { log, broken })
}

/// What these words tell behind `board` in this form; `None` where there is nothing.
fn read_board(form: Form, number: &[u8], flag: &[u8]) -> Option<Reply>
    ensures found { IfSome result
        (λ reply. IsReply form reply × (codes "board" ∷ number.now ∷ flag.now ∷ [] ≡ reply_words reply)) }
    ensures none { IfNone result ((reply : Reply) → IsReply form reply →
        codes "board" ∷ number.now ∷ flag.now ∷ [] ≡ reply_words reply → ⊥) }
{
    let count = read_u32(number, form.most_rows())?;
    let frozen = read_flag(flag)?;
    Some(Reply::Board { count, frozen })
}

/// The reply in range in this form whose words are this one, the length of a log and a count; `None` where there is
/// none.
fn reply_of_count(form: Form, word: &[u8], log: u32, count: u64) -> Option<Reply>
    requires { log ≤ most_records form }
    ensures found { IfSome result
        (λ reply. IsReply form reply × (word.now ∷ decimal log ∷ decimal count ∷ [] ≡ reply_words reply)) }
    ensures none { IfNone result
        ((word.now ≢ codes "outputs") × (word.now ≢ codes "released") × (word.now ≢ codes "lost")) }
{
    if is_keyword(word, OUTPUTS) {
        Some(Reply::Outputs { log, count })
    } else if is_keyword(word, RELEASED) {
        Some(Reply::Released { log, count })
    } else if is_keyword(word, LOST) {
        Some(Reply::Lost { log, count })
    } else {
        None
    }
}

/// The reply in range in this form whose words are these three; `None` where there is none.
fn read_middle(form: Form, word: &[u8], number: &[u8], field: &[u8]) -> Option<Reply>
    ensures found { IfSome result
        (λ reply. IsReply form reply × (word.now ∷ number.now ∷ field.now ∷ [] ≡ reply_words reply)) }
    ensures none { IfNone result
        ((reply : Reply) → IsReply form reply → word.now ∷ number.now ∷ field.now ∷ [] ≡ reply_words reply → ⊥) }
{
    if is_keyword(word, VAR) {
        return read_var(form, number, field);
    }
    if is_keyword(word, BREACH) {
        return read_breach(form, number, field);
    }
    if is_keyword(word, BOARD) {
        return read_board(form, number, field);
    }
    let log = read_u32(number, form.most_records())?;
    let count = read_count(field)?;
    reply_of_count(form, word, log, count)
}

/// The horizon that these words tell behind `horizon`; `None` where there is none.
fn read_horizon(form: Form, words: &[&[u8]]) -> Option<Reply>
    ensures found { IfSome result
        (λ reply. IsReply form reply × (codes "horizon" ∷ map (λ word. word.now) words.now ≡ reply_words reply)) }
    ensures none { IfNone result ((reply : Reply) → IsReply form reply →
        codes "horizon" ∷ map (λ word. word.now) words.now ≡ reply_words reply → ⊥) }
{
    let [number, time, micro] = words else {
        return None;
    };
    let log = read_u32(number, form.most_records())?;
    let tag = read_tag(form, time, micro)?;
    Some(Reply::Horizon { log, tag })
}

/// The row that these words tell behind `row`; `None` where there is none.
fn read_row(form: Form, words: &[&[u8]]) -> Option<Reply>
    ensures found { IfSome result
        (λ reply. IsReply form reply × (codes "row" ∷ map (λ word. word.now) words.now ≡ reply_words reply)) }
    ensures none { IfNone result ((reply : Reply) → IsReply form reply →
        codes "row" ∷ map (λ word. word.now) words.now ≡ reply_words reply → ⊥) }
{
    let output = read_output(form, words)?;
    Some(Reply::Row(output))
}

/// The output that these words tell behind `output`; `None` where there is none.
fn read_told_output(form: Form, words: &[&[u8]]) -> Option<Reply>
    ensures found { IfSome result
        (λ reply. IsReply form reply × (codes "output" ∷ map (λ word. word.now) words.now ≡ reply_words reply)) }
    ensures none { IfNone result ((reply : Reply) → IsReply form reply →
        codes "output" ∷ map (λ word. word.now) words.now ≡ reply_words reply → ⊥) }
{
    let [number, output @ ..] = words else {
        return None;
    };
    let log = read_u32(number, form.most_records())?;
    let output = read_output(form, output)?;
    Some(Reply::Output { log, output })
}

/// The record that these words tell behind `log`; `None` where there is none.
fn read_told_record(form: Form, words: &[&[u8]]) -> Option<Reply>
    ensures found { IfSome result
        (λ reply. IsReply form reply × (codes "log" ∷ map (λ word. word.now) words.now ≡ reply_words reply)) }
    ensures none { IfNone result ((reply : Reply) → IsReply form reply →
        codes "log" ∷ map (λ word. word.now) words.now ≡ reply_words reply → ⊥) }
{
    let [number, record @ ..] = words else {
        return None;
    };
    let log = read_u32(number, form.most_records())?;
    let record = read_record(form, record)?;
    Some(Reply::Log { log, record })
}

/// The reply in range in this form whose words are this one and these, which are three or more; `None` where there is
/// none.
fn read_long(form: Form, word: &[u8], fields: &[&[u8]]) -> Option<Reply>
    requires { 2 < length fields.now }
    ensures found { IfSome result
        (λ reply. IsReply form reply × (word.now ∷ map (λ word. word.now) fields.now ≡ reply_words reply)) }
    ensures none { IfNone result ((reply : Reply) → IsReply form reply →
        word.now ∷ map (λ word. word.now) fields.now ≡ reply_words reply → ⊥) }
{
    if is_keyword(word, ROW) {
        return read_row(form, fields);
    }
    if is_keyword(word, HORIZON) {
        return read_horizon(form, fields);
    }
    if is_keyword(word, OUTPUT) {
        return read_told_output(form, fields);
    }
    if is_keyword(word, LOG) {
        return read_told_record(form, fields);
    }
    None
}

/// The reply whose only word this is; `None` where there is none.
fn read_alone(word: &[u8]) -> Option<Reply>
    ensures found { (f : Form) → IfSome result (λ reply. IsReply f reply × (word.now ∷ [] ≡ reply_words reply)) }
    ensures none { (f : Form) → IfNone result
        ((reply : Reply) → IsReply f reply → word.now ∷ [] ≡ reply_words reply → ⊥) }
{
    if is_keyword(word, NONE) {
        Some(Reply::NoRow)
    } else {
        None
    }
}

/// The reply in range in this form with these words; `None` where there is none.
fn read_words(form: Form, words: &[&[u8]]) -> Option<Reply>
    ensures found { IfSome result
        (λ reply. IsReply form reply × (map (λ word. word.now) words.now ≡ reply_words reply)) }
    ensures none { IfNone result ((reply : Reply) → IsReply form reply →
        map (λ word. word.now) words.now ≡ reply_words reply → ⊥) }
{
    match words {
        [word] => read_alone(word),
        [word, number] => read_short(form, word, number),
        [word, number, field] => read_middle(form, word, number, field),
        [word, fields @ ..] => read_long(form, word, fields),
        [] => None,
    }
}

/// The reply in range in this form with this spelling; `None` where there is none.
pub fn read_reply(form: Form, bytes: &[u8]) -> Option<Reply>
    ensures found { IfSome result (λ reply. IsReply form reply × (bytes.now ≡ reply_spelling reply)) }
    ensures none { IfNone result ((reply : Reply) → IsReply form reply → bytes.now ≡ reply_spelling reply → ⊥) }
{
    let words = split_words(bytes)?;
    read_words(form, &words)
}

/// How many bytes are copied for the line that tells a place.
const TAKEN_ROOM: usize = 16;

/// Where the digits of a place end in a block: the line feed is behind them.
const TAKEN_END: usize = 15;

/// Appends the line that tells the place of a new record, for which there is room: the most frequent reply.
#[inline(never)]
fn append_taken(out: &mut Vec<u8>, place: u32)
    requires fits { place < BLOCK_END }
    requires room { vec_len out.old + TAKEN_ROOM ≤ vec_capacity out.old }
    ensures items { out.new.items ≡ out.old.items ++ reply_line (Reply.Taken place) }
    ensures capacity { vec_capacity out.old ≤ vec_capacity out.new }
{
    let mut block = [b'\n'; 2 * TAKEN_ROOM];
    let digits = write_digits(u64::from(place), &mut block, TAKEN_END);
    let start = write_word(b"taken ", &mut block, digits);
    append_from(out, &block, start, TAKEN_END + 1, TAKEN_ROOM);
}

/// Appends a space and the number, for which there is room.
#[inline(never)]
fn append_first(out: &mut Vec<u8>, number: u32)
    requires { vec_len out.old + 11 ≤ vec_capacity out.old }
    ensures items { out.new.items ≡ out.old.items ++ 32 ∷ decimal number }
    ensures len { vec_len out.new ≤ vec_len out.old + 11 }
    ensures capacity { vec_capacity out.new ≡ vec_capacity out.old }
{
    append_u32(out, number);
}

/// Appends the word and a number, for which there is room.
#[inline(always)]
fn append_numbered(out: &mut Vec<u8>, word: &[u8], number: u32)
    requires { vec_len out.old + (length word.now + 11) ≤ vec_capacity out.old }
    ensures items { out.new.items ≡ out.old.items ++ join_with_byte 32 (word.now ∷ decimal number ∷ []) }
    ensures len { vec_len out.new ≤ vec_len out.old + (length word.now + 11) }
    ensures capacity { vec_capacity out.new ≡ vec_capacity out.old }
{
    append(out, word);
    append_first(out, number);
}

/// Appends the length of a log and a count, a space in front of each, for which there is room.
#[inline(never)]
fn append_length_and_count(out: &mut Vec<u8>, log: u32, count: u64)
    requires { vec_len out.old + 35 ≤ vec_capacity out.old }
    ensures items { out.new.items ≡ out.old.items ++ 32 ∷ decimal log ++ 32 ∷ decimal count }
    ensures len { vec_len out.new ≤ vec_len out.old + 35 }
    ensures capacity { vec_capacity out.new ≡ vec_capacity out.old }
{
    append_u32(out, log);
    append_u64(out, count);
}

/// Appends the word, a number and a count, for which there is room.
#[inline(always)]
fn append_count(out: &mut Vec<u8>, word: &[u8], number: u32, count: u64)
    requires { vec_len out.old + (length word.now + 35) ≤ vec_capacity out.old }
    ensures items { out.new.items ≡ out.old.items ++
        join_with_byte 32 (word.now ∷ decimal number ∷ decimal count ∷ []) }
    ensures len { vec_len out.new ≤ vec_len out.old + (length word.now + 35) }
    ensures capacity { vec_capacity out.new ≡ vec_capacity out.old }
{
    append(out, word);
    append_length_and_count(out, number, count);
}

/// How many bytes are copied for the line that tells a variable's value.
const VAR_ROOM: usize = 40;

/// Where the digits of a value end in a block: the line feed is behind them.
const VAR_END: usize = 39;

/// Appends the line that tells a variable's value, for which there is room.
#[inline(never)]
fn append_var(out: &mut Vec<u8>, log: u32, value: i64)
    requires { vec_len out.old + VAR_ROOM ≤ vec_capacity out.old }
    ensures items { out.new.items ≡ out.old.items ++ reply_line (Reply.Var log value) }
    ensures capacity { vec_capacity out.old ≤ vec_capacity out.new }
{
    let mut block = [b'\n'; 2 * VAR_ROOM];
    let text = write_int(value, &mut block, VAR_END);
    let space = write_word(b" ", &mut block, text);
    let digits = write_digits(u64::from(log), &mut block, space);
    let start = write_word(b"var ", &mut block, digits);
    append_from(out, &block, start, VAR_END + 1, VAR_ROOM);
}

/// Appends the word, a number and a flag, for which there is room.
fn append_flagged(out: &mut Vec<u8>, word: &[u8], number: u32, flag: bool)
    requires { vec_len out.old + (length word.now + 13) ≤ vec_capacity out.old }
    ensures items { out.new.items ≡ out.old.items ++
        join_with_byte 32 (word.now ∷ decimal number ∷ flag_word flag ∷ []) }
    ensures len { vec_len out.new ≤ vec_len out.old + (length word.now + 13) }
    ensures capacity { vec_capacity out.new ≡ vec_capacity out.old }
{
    append_numbered(out, word, number);
    append(out, if flag { b" 1" } else { b" 0" });
}

/// Appends a space and the output's words, for which there is room.
fn append_output(out: &mut Vec<u8>, output: Out)
    requires { vec_len out.old + 67 ≤ vec_capacity out.old }
    ensures items { out.new.items ≡ out.old.items ++ 32 ∷ join_with_byte 32 (out_words output) }
    ensures len { vec_len out.new ≤ vec_len out.old + 67 }
    ensures capacity { vec_capacity out.new ≡ vec_capacity out.old }
{
    append_tag(out, output.tag);
    append_u32(out, output.port);
    append_int(out, output.value);
}

/// Appends the spelling of any reply, for which there is room, and leaves room for a line feed.
#[inline(never)]
fn append_any(out: &mut Vec<u8>, reply: &Reply)
    requires { vec_len out.old + REPLY_ROOM ≤ vec_capacity out.old }
    ensures items { out.new.items ≡ out.old.items ++ reply_spelling reply.now }
    ensures len { vec_len out.new < vec_len out.old + REPLY_ROOM }
    ensures capacity { vec_capacity out.new ≡ vec_capacity out.old }
{
    match *reply {
        Reply::Taken(place) => append_numbered(out, TAKEN, place),
        Reply::Known(place) => append_numbered(out, KNOWN, place),
        Reply::Refused(refusal) => append_numbered(out, REFUSED, refusal.number()),
        Reply::Var { log, value } => {
            append_numbered(out, VAR, log);
            append_int(out, value);
        }
        Reply::Outputs { log, count } => append_count(out, OUTPUTS, log, count),
        Reply::Output { log, output } => {
            append_numbered(out, OUTPUT, log);
            append_output(out, output);
        }
        Reply::Nothing { log } => append_numbered(out, NONE, log),
        Reply::Horizon { log, tag } => {
            append_numbered(out, HORIZON, log);
            append_tag(out, tag);
        }
        Reply::Released { log, count } => append_count(out, RELEASED, log, count),
        Reply::Lost { log, count } => append_count(out, LOST, log, count),
        Reply::Breach { log, broken } => append_flagged(out, BREACH, log, broken),
        Reply::Log { log, record } => {
            append_numbered(out, LOG, log);
            out.push_reserved(b' ');
            append_record(out, &record);
        }
        Reply::Collected { log } => append_numbered(out, COLLECTED, log),
        Reply::Board { count, frozen } => append_flagged(out, BOARD, count, frozen),
        Reply::Row(output) => {
            append(out, ROW);
            append_output(out, output);
        }
        Reply::NoRow => append(out, NONE),
    }
}

/// Appends the reply's spelling, for which there is room, and leaves room for a line feed.
pub fn write_reply(out: &mut Vec<u8>, reply: &Reply)
    requires { vec_len out.old + REPLY_ROOM ≤ vec_capacity out.old }
    ensures items { out.new.items ≡ out.old.items ++ reply_spelling reply.now }
    ensures len { vec_len out.new < vec_len out.old + REPLY_ROOM }
    ensures capacity { vec_capacity out.new ≡ vec_capacity out.old }
{
    append_any(out, reply);
}

/// Appends the spelling of any reply and a line feed, for which there is room.
#[inline(never)]
fn append_line(out: &mut Vec<u8>, reply: &Reply)
    requires { vec_len out.old + REPLY_ROOM ≤ vec_capacity out.old }
    ensures items { out.new.items ≡ out.old.items ++ reply_line reply.now }
    ensures capacity { vec_capacity out.new ≡ vec_capacity out.old }
{
    append_any(out, reply);
    out.push_reserved(b'\n');
}

/// Appends the reply's spelling and a line feed, for which there is room.
#[inline(always)]
pub fn write_reply_line(out: &mut Vec<u8>, reply: &Reply)
    requires { vec_len out.old + REPLY_ROOM ≤ vec_capacity out.old }
    ensures items { out.new.items ≡ out.old.items ++ reply_line reply.now }
    ensures capacity { vec_capacity out.old ≤ vec_capacity out.new }
{
    // The most frequent replies are told apart here, one after another, so that they pay nothing for the others.
    if let Reply::Taken(place) = *reply {
        if place < BLOCK_END {
            append_taken(out, place);
            return;
        }
    }
    match *reply {
        Reply::Var { log, value } => append_var(out, log, value),
        other => append_line(out, &other),
    }
}
