//! Records, each read off its text in one pass over the bytes.
ghost use Rattle.std.specs.Prelude.{◌≡◌, ℕ, ◌<◌, ◌≤◌, [], ◌∷◌, ◌++◌, List, IfSome, IfNone, codes, decimal, true};
ghost use Rattle.std.specs.List.{slice_split};
ghost use Rattle.warp_tag.specs.Limits.{has_joint, last_microstep, last_time, most_origins, most_records};
ghost use Rattle.warp_record.specs.declared.record.Record.{Record};
ghost use Rattle.warp_record.specs.Number.{is_space};
ghost use Rattle.warp_tag.specs.Moment.{IsTagOf, Moment};
ghost use Rattle.warp_record.specs.Record.{IsAnnouncement, IsRecord, record_words, tag_words};
ghost use Rattle.warp_record.specs.inner.Behind.{words_behind};

use crate::count::Count;
use crate::cut::{are_four, cut_last_int, cut_number, cut_u32, is_at_end};
use crate::record::{Record, last_input, last_origin};
use warp_tag::{Form, Tag};

/// What is left behind the word `event` and the space that follows it.
#[inline(always)]
pub(crate) fn behind_event(bytes: &[u8]) -> Option<&[u8]>
    ensures found { IfSome result (λ text. slice_split is_space bytes.now ≡ codes "event" ∷ words_behind text.now) }
    ensures none { IfNone result ((word : List ℕ) (words : List (List ℕ)) →
        slice_split is_space bytes.now ≡ codes "event" ∷ word ∷ words → ⊥) }
{
    if bytes.len() > 5 && are_four(bytes, 0, *b"even") && bytes[4] == b't' && bytes[5] == b' ' {
        Some(&bytes[5..])
    } else {
        None
    }
}

/// What is left behind the word `withdraw` and the space that follows it.
#[inline(always)]
pub(crate) fn behind_withdraw(bytes: &[u8]) -> Option<&[u8]>
    ensures found { IfSome result (λ text. slice_split is_space bytes.now ≡ codes "withdraw" ∷ words_behind text.now) }
    ensures none { IfNone result ((word : List ℕ) (words : List (List ℕ)) →
        slice_split is_space bytes.now ≡ codes "withdraw" ∷ word ∷ words → ⊥) }
{
    if bytes.len() > 8
        && are_four(bytes, 0, *b"with")
        && are_four(bytes, 4, *b"draw")
        && bytes[8] == b' '
    {
        Some(&bytes[8..])
    } else {
        None
    }
}

/// What is left behind the word `announce` and the space that follows it.
#[inline(always)]
pub(crate) fn behind_announce(bytes: &[u8]) -> Option<&[u8]>
    ensures found { IfSome result (λ text. slice_split is_space bytes.now ≡ codes "announce" ∷ words_behind text.now) }
    ensures none { IfNone result ((word : List ℕ) (words : List (List ℕ)) →
        slice_split is_space bytes.now ≡ codes "announce" ∷ word ∷ words → ⊥) }
{
    if bytes.len() > 8
        && are_four(bytes, 0, *b"anno")
        && are_four(bytes, 4, *b"unce")
        && bytes[8] == b' '
    {
        Some(&bytes[8..])
    } else {
        None
    }
}

/// The origin, the time and the microstep that are the next words, and what is left behind them.
#[inline(always)]
fn cut_name(form: Form, text: &[u8]) -> Option<(u32, u64, u32, &[u8])>
    ensures found { IfSome result (λ name.
        (name.0 < most_origins form) × (name.1 ≤ last_time form) × (name.2 ≤ last_microstep form)
        × (words_behind text.now ≡ decimal name.0 ∷ decimal name.1 ∷ decimal name.2 ∷ words_behind name.3.now)) }
    ensures none { IfNone result
        ((origin time microstep : ℕ) (words : List (List ℕ)) → origin < most_origins form → time ≤ last_time form →
        microstep ≤ last_microstep form →
        words_behind text.now ≡ decimal origin ∷ decimal time ∷ decimal microstep ∷ words → ⊥) }
{
    let (origin, text) = cut_u32(text, last_origin(form))?;
    let (time, text) = cut_number(text, form.last_time())?;
    let (micro, text) = cut_u32(text, form.last_microstep())?;
    Some((origin, time, micro, text))
}

/// The event in range in this form whose words behind the first are these.
#[inline(always)]
pub(crate) fn read_event(form: Form, text: &[u8]) -> Option<Record>
    ensures found { IfSome result
        (λ said. IsRecord form said × (codes "event" ∷ words_behind text.now ≡ record_words said)) }
    ensures none { IfNone result
        ((said : Record) → IsRecord form said → codes "event" ∷ words_behind text.now ≡ record_words said → ⊥) }
{
    // Written once for each form, whose limits are constants then.
    match form {
        Form::One => event_of(Form::One, text),
        Form::Two => event_of(Form::Two, text),
        Form::Three => event_of(Form::Three, text),
        Form::Four => event_of(Form::Four, text),
    }
}

/// The event in range in this form whose words behind the first are these.
#[inline(always)]
fn event_of(form: Form, text: &[u8]) -> Option<Record>
    ensures found { IfSome result
        (λ said. IsRecord form said × (codes "event" ∷ words_behind text.now ≡ record_words said)) }
    ensures none { IfNone result
        ((said : Record) → IsRecord form said → codes "event" ∷ words_behind text.now ≡ record_words said → ⊥) }
{
    let (origin, time, micro, text) = cut_name(form, text)?;
    let tag = Tag::new(time, micro)?;
    let (input, text) = cut_u32(text, last_input(form))?;
    let value = cut_last_int(text)?;
    Some(Record::Event {
        origin,
        tag,
        input,
        value,
    })
}

/// The withdrawal in range in this form whose words behind the first are these.
pub(crate) fn read_withdrawal(form: Form, text: &[u8]) -> Option<Record>
    ensures found { IfSome result
        (λ said. IsRecord form said × (codes "withdraw" ∷ words_behind text.now ≡ record_words said)) }
    ensures none { IfNone result
        ((said : Record) → IsRecord form said → codes "withdraw" ∷ words_behind text.now ≡ record_words said → ⊥) }
{
    let (origin, time, micro, text) = cut_name(form, text)?;
    let tag = Tag::new(time, micro)?;
    if is_at_end(text) {
        Some(Record::Withdraw { origin, tag })
    } else {
        None
    }
}

/// What is left behind the word `*` and the space that follows it.
fn behind_star(bytes: &[u8]) -> Option<&[u8]>
    ensures found { IfSome result (λ text. slice_split is_space bytes.now ≡ codes "*" ∷ words_behind text.now) }
    ensures none { IfNone result ((word : List ℕ) (words : List (List ℕ)) →
        slice_split is_space bytes.now ≡ codes "*" ∷ word ∷ words → ⊥) }
{
    if bytes.len() > 1 && bytes[0] == b'*' && bytes[1] == b' ' {
        Some(&bytes[1..])
    } else {
        None
    }
}

/// What is left behind the next word, where this is `*` and a space follows it.
fn cut_star(text: &[u8]) -> Option<&[u8]>
    ensures found { IfSome result (λ rest. words_behind text.now ≡ codes "*" ∷ words_behind rest.now) }
    ensures none { IfNone result ((word : List ℕ) (words : List (List ℕ)) →
        words_behind text.now ≡ codes "*" ∷ word ∷ words → ⊥) }
{
    let [_, bytes @ ..] = text else {
        return None;
    };
    behind_star(bytes)
}

/// The joint announcement in range in this form whose words behind the first two are these.
fn joint_of(form: Form, text: &[u8]) -> Option<Record>
    requires { has_joint form ≡ true }
    ensures found { IfSome result (λ said. IsRecord form said ×
        (codes "announce" ∷ codes "*" ∷ words_behind text.now ≡ record_words said)) }
    ensures none { IfNone result ((tag : Moment) (events withdrawn : ℕ) → IsTagOf form tag →
        events ≤ most_records form → withdrawn ≤ most_records form →
        words_behind text.now ≡ tag_words tag ++ decimal events ∷ decimal withdrawn ∷ [] → ⊥) }
{
    let (time, text) = cut_number(text, form.last_time())?;
    let (micro, text) = cut_u32(text, form.last_microstep())?;
    let tag = Tag::new(time, micro)?;
    let (events, text) = cut_u32(text, form.most_records())?;
    let (withdrawn, text) = cut_u32(text, form.most_records())?;
    let events = Count::new(events)?;
    let withdrawn = Count::new(withdrawn)?;
    if is_at_end(text) {
        Some(Record::Joint {
            tag,
            events,
            withdrawn,
        })
    } else {
        None
    }
}

/// The joint announcement in range in this form whose words behind the first two are these; none where the form has none.
fn read_joint(form: Form, text: &[u8]) -> Option<Record>
    ensures found { IfSome result (λ said. IsRecord form said ×
        (codes "announce" ∷ codes "*" ∷ words_behind text.now ≡ record_words said)) }
    ensures none { IfNone result ((said : Record) → IsRecord form said →
        codes "announce" ∷ codes "*" ∷ words_behind text.now ≡ record_words said → ⊥) }
{
    if !form.has_joint() {
        return None;
    }
    joint_of(form, text)
}

/// The announcement in range in this form, of one origin or of all together, whose words behind the first are these.
pub(crate) fn read_announcement(form: Form, text: &[u8]) -> Option<Record>
    ensures found { IfSome result
        (λ said. IsRecord form said × (codes "announce" ∷ words_behind text.now ≡ record_words said)) }
    ensures none { IfNone result
        ((said : Record) → IsRecord form said → codes "announce" ∷ words_behind text.now ≡ record_words said → ⊥) }
{
    if let Some(rest) = cut_star(text) {
        return read_joint(form, rest);
    }
    read_own(form, text)
}

/// The announcement of one origin in range in this form whose words behind the first are these.
fn read_own(form: Form, text: &[u8]) -> Option<Record>
    ensures found { IfSome result
        (λ said. IsRecord form said × (codes "announce" ∷ words_behind text.now ≡ record_words said)) }
    ensures none { IfNone result
        ((origin : ℕ) (tag : Moment) (events withdrawn : ℕ) → IsAnnouncement form origin tag events withdrawn →
        words_behind text.now ≡ decimal origin ∷ tag_words tag ++ decimal events ∷ decimal withdrawn ∷ [] → ⊥) }
{
    let (origin, time, micro, text) = cut_name(form, text)?;
    let tag = Tag::new(time, micro)?;
    let (events, text) = cut_u32(text, form.most_records())?;
    let (withdrawn, text) = cut_u32(text, form.most_records())?;
    let events = Count::new(events)?;
    let withdrawn = Count::new(withdrawn)?;
    if is_at_end(text) {
        Some(Record::Announce {
            origin,
            tag,
            events,
            withdrawn,
        })
    } else {
        None
    }
}
