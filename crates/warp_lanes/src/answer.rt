//! What a lane lets an answer be.
use rtrb::Protocol;
use warp_replica::Answer;

/// The rule of the ring of answers: each reply is in its range, and the length of a log that it says is its answer's
/// `len`.
#[derive(Clone, Copy)]
pub struct AnswerRule;

impl Protocol<Answer> for AnswerRule {
    ghost use Rattle.warp_replica.specs.Answered.{IsAnswer};

    ghost allows = { λ _ answer. IsAnswer answer };
}
