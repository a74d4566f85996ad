//! Records, lines and replies: their types, their one spelling, and cutting a stream of bytes into lines.
//!
//! A line that comes in and a reply that goes out each have one spelling in bytes, in each form. How wide their numbers
//! may be is the form's. Nothing here takes memory.
#![tactic(auto)]

mod count;
mod cut;
mod digits_at_once;
mod feed;
mod front;
mod law;
mod line;
mod number;
mod order;
mod query_text;
mod record;
mod record_text;
mod reply;
mod room;
mod split;

pub use count::{Count, MAX_COUNT};
pub use feed::{Fed, Feed, MAX_LINE};
pub use front::read_front;
pub use law::{
    line_of_wider_form, no_front, no_line_feed, one_reply_spelling, one_spelling, wider_line,
};
pub use line::{Line, Look, Query, read_line};
pub use number::read_u32;
pub use record::{Record, read_record, write_record};
pub use reply::{Refusal, Reply, read_reply, write_reply, write_reply_line};
pub use room::REPLY_ROOM;
pub use split::{MOST_WORDS, is_keyword, split_words};
