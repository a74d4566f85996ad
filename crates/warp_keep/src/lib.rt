//! Kept origins: whose owner of a log speaks for them, and refuses what comes behind its word.
#![tactic(auto)]

mod closing;
mod judging;
mod keeping;
mod law;
mod stamping;

pub use closing::{close, close_jointly};
pub use judging::Judgement;
pub use keeping::Keeping;
pub use law::{
    behind_in_pieces, closed_by_greatest, kept_honest, kept_may_close, kept_released,
    kept_unbroken, lines_keep, one_judgement, stamped,
};
pub use stamping::stamp;
