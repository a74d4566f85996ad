//! Records: what an origin has to say, and the one spelling of each, read and written.
ghost use Rattle.std.specs.Prelude.{◌≡◌, ℕ, ℤ, ◌+◌, ◌<◌, ◌≤◌, [], ◌∷◌, ◌++◌, IfSome, IfNone, FitsSigned, codes, decimal, map, true};
ghost use Rattle.std.specs.Prelude.{vec_len, vec_capacity};
ghost use Rattle.std.specs.Fmt.{signed_decimal};
ghost use Rattle.std.specs.Int.{w64};
ghost use Rattle.std.specs.List.{join_with_byte};
ghost use Rattle.warp_tag.specs.Limits.{has_joint, most_inputs, most_origins, most_records};
ghost use Rattle.warp_tag.specs.Moment.{Moment, IsTagOf};
ghost use Rattle.warp_record.specs.declared.record.Record.{Record};
ghost use Rattle.warp_record.specs.Record.{IsRecord, record_words, record_spelling, tag_words};

use crate::count::Count;
use crate::number::{append, append_number, append_u32, read_int, read_number, read_u32};
use crate::room::{RECORD_ROOM, REPLY_ROOM};
use crate::split::{is_all, is_keyword};
use warp_tag::{Form, Tag};

/// The first word of an event.
pub(crate) const EVENT: &[u8] = b"event";

/// The first word of a withdrawal.
pub(crate) const WITHDRAW: &[u8] = b"withdraw";

/// The first word of an announcement.
pub(crate) const ANNOUNCE: &[u8] = b"announce";

/// The first two words of a joint announcement.
pub(crate) const JOINTLY: &[u8] = b"announce *";

/// What an origin has to say. A name is an origin and a tag.
#[derive(Clone, Copy, Debug, PartialEq, Eq, Hash)]
pub enum Record {
    /// An event `event O T M I V`: at its tag a program input has a value.
    Event {
        /// Who says so: 0 to 31 in form One, 0 to 63 in the others.
        origin: u32,
        /// When.
        tag: Tag,
        /// The number of the program input, 0 to 63, in form Four to 255.
        input: u32,
        /// The input's value.
        value: i64,
    },
    /// A withdrawal `withdraw O T M`: no event of this name counts, whether it came before or comes later.
    Withdraw {
        /// Who says so: 0 to 31 in form One, 0 to 63 in the others.
        origin: u32,
        /// Of which tag.
        tag: Tag,
    },
    /// An announcement `announce O T M E W`: before the tag the origin has so many names with an event and so many
    /// with a withdrawal, and will add none.
    Announce {
        /// Who says so: 0 to 31 in form One, 0 to 63 in the others.
        origin: u32,
        /// Before which tag.
        tag: Tag,
        /// How many names have an event, withdrawn or not.
        events: Count,
        /// How many names have a withdrawal.
        withdrawn: Count,
    },
    /// A joint announcement `announce * T M E W`, in form Four alone: before the tag all origins together have so many
    /// names with an event and so many with a withdrawal, and will add none.
    Joint {
        /// Before which tag.
        tag: Tag,
        /// How many names have an event, withdrawn or not.
        events: Count,
        /// How many names have a withdrawal.
        withdrawn: Count,
    },
}

impl Record {
    ghost use Rattle.warp_record.specs.Record.{origin_of, tag_of};

    /// Whose it is; `None` for a joint announcement, which is no single origin's.
    pub fn origin(&self) -> Option<u32>
        ensures { result ≡ origin_of self.now }
    {
        match *self {
            Record::Event { origin, .. } => Some(origin),
            Record::Withdraw { origin, .. } => Some(origin),
            Record::Announce { origin, .. } => Some(origin),
            Record::Joint { .. } => None,
        }
    }

    /// Its tag.
    pub fn tag(&self) -> Tag
        ensures { result ≡ tag_of self.now }
    {
        match *self {
            Record::Event { tag, .. } => tag,
            Record::Withdraw { tag, .. } => tag,
            Record::Announce { tag, .. } => tag,
            Record::Joint { tag, .. } => tag,
        }
    }
}

/// The last origin that a line of this form can name.
#[inline(always)]
pub(crate) fn last_origin(form: Form) -> u32
    ensures { result + 1 ≡ most_origins form }
{
    form.most_origins() - 1
}

/// The last program input that a line of this form can name.
#[inline(always)]
pub(crate) fn last_input(form: Form) -> u32
    ensures { result + 1 ≡ most_inputs form }
{
    form.most_inputs() - 1
}

/// The tag in range in this form whose words these are.
pub(crate) fn read_tag(form: Form, time: &[u8], micro: &[u8]) -> Option<Tag>
    ensures found { IfSome result
        (λ tag. IsTagOf form tag × (time.now ≡ decimal tag.time) × (micro.now ≡ decimal tag.microstep)) }
    ensures none { IfNone result
        ((tag : Moment) → IsTagOf form tag → time.now ≡ decimal tag.time → micro.now ≡ decimal tag.microstep → ⊥) }
{
    let time = read_number(time, form.last_time())?;
    let micro = read_u32(micro, form.last_microstep())?;
    Tag::new(time, micro)
}

/// The count in range in this form whose word this is.
fn read_count(form: Form, word: &[u8]) -> Option<Count>
    ensures found { IfSome result (λ count. (count ≤ most_records form) × (word.now ≡ decimal count)) }
    ensures none { IfNone result ((count : ℕ) → count ≤ most_records form → word.now ≡ decimal count → ⊥) }
{
    Count::new(read_u32(word, form.most_records())?)
}

/// The input and the value in range in this form whose words these are.
fn read_value(form: Form, words: &[&[u8]]) -> Option<(u32, i64)>
    ensures found { IfSome result (λ given. (given.0 < most_inputs form) × FitsSigned w64 given.1 ×
        (map (λ word. word.now) words.now ≡ decimal given.0 ∷ signed_decimal given.1 ∷ [])) }
    ensures none { IfNone result ((input : ℕ) (value : ℤ) → input < most_inputs form → FitsSigned w64 value →
        map (λ word. word.now) words.now ≡ decimal input ∷ signed_decimal value ∷ [] → ⊥) }
{
    let [input, value] = words else {
        return None;
    };
    let input = read_u32(input, last_input(form))?;
    let value = read_int(value)?;
    Some((input, value))
}

/// The counts in range in this form whose words these are: of events, and of withdrawals.
fn read_counts(form: Form, words: &[&[u8]]) -> Option<(Count, Count)>
    ensures found { IfSome result (λ counts. (counts.0 ≤ most_records form) × (counts.1 ≤ most_records form) ×
        (map (λ word. word.now) words.now ≡ decimal counts.0 ∷ decimal counts.1 ∷ [])) }
    ensures none { IfNone result ((events withdrawn : ℕ) → events ≤ most_records form → withdrawn ≤ most_records form →
        map (λ word. word.now) words.now ≡ decimal events ∷ decimal withdrawn ∷ [] → ⊥) }
{
    let [events, withdrawn] = words else {
        return None;
    };
    let events = read_count(form, events)?;
    let withdrawn = read_count(form, withdrawn)?;
    Some((events, withdrawn))
}

/// The joint announcement in range in this form whose words behind the first two are these.
fn joint_of(form: Form, time: &[u8], micro: &[u8], operands: &[&[u8]]) -> Option<Record>
    requires { has_joint form ≡ true }
    ensures found { IfSome result (λ said. IsRecord form said × (codes "announce" ∷ codes "*" ∷ time.now ∷ micro.now
        ∷ map (λ word. word.now) operands.now ≡ record_words said)) }
    ensures none { IfNone result ((tag : Moment) (events withdrawn : ℕ) → IsTagOf form tag →
        events ≤ most_records form → withdrawn ≤ most_records form → time.now ≡ decimal tag.time →
        micro.now ≡ decimal tag.microstep →
        map (λ word. word.now) operands.now ≡ decimal events ∷ decimal withdrawn ∷ [] → ⊥) }
{
    let tag = read_tag(form, time, micro)?;
    let (events, withdrawn) = read_counts(form, operands)?;
    Some(Record::Joint {
        tag,
        events,
        withdrawn,
    })
}

/// The joint announcement in range in this form whose words these are, `*` behind the first; `None` where there is none.
fn read_joint(
    form: Form,
    word: &[u8],
    time: &[u8],
    micro: &[u8],
    operands: &[&[u8]],
) -> Option<Record>
    ensures found { IfSome result (λ said. IsRecord form said ×
        (word.now ∷ codes "*" ∷ time.now ∷ micro.now ∷ map (λ word. word.now) operands.now ≡ record_words said)) }
    ensures none { IfNone result ((said : Record) → IsRecord form said →
        word.now ∷ codes "*" ∷ time.now ∷ micro.now ∷ map (λ word. word.now) operands.now ≡ record_words said → ⊥) }
{
    if !form.has_joint() {
        return None;
    }
    if !is_keyword(word, ANNOUNCE) {
        return None;
    }
    joint_of(form, time, micro, operands)
}

/// The record in range in this form whose words these are; `None` where there is none.
pub fn read_record(form: Form, words: &[&[u8]]) -> Option<Record>
    ensures found { IfSome result
        (λ said. IsRecord form said × (map (λ word. word.now) words.now ≡ record_words said)) }
    ensures none { IfNone result
        ((said : Record) → IsRecord form said → map (λ word. word.now) words.now ≡ record_words said → ⊥) }
{
    let [word, origin, time, micro, operands @ ..] = words else {
        return None;
    };
    if is_all(origin) {
        return read_joint(form, word, time, micro, operands);
    }
    let origin = read_u32(origin, last_origin(form))?;
    let tag = read_tag(form, time, micro)?;
    if is_keyword(word, EVENT) {
        let (input, value) = read_value(form, operands)?;
        Some(Record::Event {
            origin,
            tag,
            input,
            value,
        })
    } else if is_keyword(word, ANNOUNCE) {
        let (events, withdrawn) = read_counts(form, operands)?;
        Some(Record::Announce {
            origin,
            tag,
            events,
            withdrawn,
        })
    } else if is_keyword(word, WITHDRAW) {
        if operands.is_empty() {
            Some(Record::Withdraw { origin, tag })
        } else {
            None
        }
    } else {
        None
    }
}

/// Appends a space and the tag's words, for which there is room.
pub(crate) fn append_tag(out: &mut Vec<u8>, tag: Tag)
    requires { vec_len out.old + 32 ≤ vec_capacity out.old }
    ensures items { out.new.items ≡ out.old.items ++ 32 ∷ join_with_byte 32 (tag_words tag) }
    ensures len { vec_len out.new ≤ vec_len out.old + 32 }
    ensures capacity { vec_capacity out.new ≡ vec_capacity out.old }
{
    append_u32(out, tag.time() as u32);
    append_u32(out, tag.micro());
}

/// Appends the counts of a joint announcement, a space in front of each, for which there is room.
fn append_counts(out: &mut Vec<u8>, events: Count, withdrawn: Count)
    requires { vec_len out.old + 24 ≤ vec_capacity out.old }
    ensures items { out.new.items ≡ out.old.items ++ 32 ∷ decimal events ++ 32 ∷ decimal withdrawn }
    ensures len { vec_len out.new ≤ vec_len out.old + 24 }
    ensures capacity { vec_capacity out.new ≡ vec_capacity out.old }
{
    append_u32(out, events.get());
    append_u32(out, withdrawn.get());
}

/// Appends the spelling of a joint announcement, for which there is room.
fn append_joint(out: &mut Vec<u8>, tag: Tag, events: Count, withdrawn: Count)
    requires { vec_len out.old + RECORD_ROOM ≤ vec_capacity out.old }
    ensures items { out.new.items ≡ out.old.items ++ record_spelling (Record.Joint tag events withdrawn) }
    ensures len { vec_len out.new ≤ vec_len out.old + RECORD_ROOM }
    ensures capacity { vec_capacity out.new ≡ vec_capacity out.old }
{
    append(out, JOINTLY);
    append_tag(out, tag);
    append_counts(out, events, withdrawn);
}

/// Appends the record's spelling, for which there is room.
pub(crate) fn append_record(out: &mut Vec<u8>, record: &Record)
    requires { vec_len out.old + RECORD_ROOM ≤ vec_capacity out.old }
    ensures items { out.new.items ≡ out.old.items ++ record_spelling «record».now }
    ensures len { vec_len out.new ≤ vec_len out.old + RECORD_ROOM }
    ensures capacity { vec_capacity out.new ≡ vec_capacity out.old }
{
    match *record {
        Record::Event {
            origin,
            tag,
            input,
            value,
        } => {
            append(out, EVENT);
            append_number(out, origin);
            append_tag(out, tag);
            append_number(out, input);
            append_number(out, value);
        }
        Record::Withdraw { origin, tag } => {
            append(out, WITHDRAW);
            append_number(out, origin);
            append_tag(out, tag);
        }
        Record::Announce {
            origin,
            tag,
            events,
            withdrawn,
        } => {
            append(out, ANNOUNCE);
            append_number(out, origin);
            append_tag(out, tag);
            append_number(out, events.get());
            append_number(out, withdrawn.get());
        }
        Record::Joint {
            tag,
            events,
            withdrawn,
        } => append_joint(out, tag, events, withdrawn),
    }
}

/// Appends the record's spelling, for which there is room, and leaves room for a line feed.
pub fn write_record(out: &mut Vec<u8>, record: &Record)
    requires { vec_len out.old + REPLY_ROOM ≤ vec_capacity out.old }
    ensures items { out.new.items ≡ out.old.items ++ record_spelling «record».now }
    ensures len { vec_len out.new < vec_len out.old + REPLY_ROOM }
    ensures capacity { vec_capacity out.new ≡ vec_capacity out.old }
{
    append_record(out, record);
}
