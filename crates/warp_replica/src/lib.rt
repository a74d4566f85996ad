//! A replica: a program, the records that it took, and the run over them.
//!
//! `Replica` takes records, settles its timeline and answers queries; contracts see its program, the list of its
//! records and the timeline. `Local` is a replica without peers as a desk, which answers lines. What a query gives,
//! but for one that asks for a place of the log, follows from the set of the records (`one_answer`, `same_replies`).
//! While no origin breaks an announcement, what was released stays (`released_stays`, `released_agree`). A replica
//! raised to version 2 or 3 answers as before where nothing was lost (`raised_replies`, `raised_to_replies`), and one
//! raised from version 2 to 3 does so in any case. What settling costs after records came is bounded
//! (`rework_after_takes`).
#![tactic(auto)]

mod answer;
mod asking;
mod closing;
mod entering;
mod idle;
mod law;
mod local;
mod names;
mod raise;
mod rebuilding;
mod release_law;
mod replica;
mod rework_law;
mod taking;

pub use answer::Answer;
pub use idle::Idle;
pub use law::{
    merging_joins, merging_laws, one_answer, one_reply, one_taking, pulled_record, raised_replies,
    raised_to_replies, same_replies,
};
pub use local::Local;
pub use names::names_in_order;
pub use release_law::{
    honest_subsets, released_agree, released_are_first, released_stays, rows_before_a_tag,
    same_release,
};
pub use replica::Replica;
pub use rework_law::rework_after_takes;
pub use taking::Took;
