//! The desk: who answers lines.
use warp_record::{Line, Reply};
use warp_tag::Form;

/// How many lines a desk is asked at once, at most.
pub const MOST_LINES: usize = 64;

/// Answers lines, one at a time or several together. Whoever answers each at once writes `ask`, and `form`, alone.
pub trait Desk {
    ghost use Rattle.std.specs.Prelude.{◌≡◌, ◌≤◌, All, length};
    ghost use Rattle.warp_tag.specs.Limits.{widest};
    ghost use Rattle.warp_tag.specs.declared.form.Form.{Form};
    ghost use Rattle.warp_record.specs.declared.line.Line.{Line};
    ghost use Rattle.warp_record.specs.declared.reply.Reply.{Reply};
    ghost use Rattle.warp_record.specs.Reply.{IsReply};
    ghost use Rattle.warp_exchange.specs.Batch.{GivesEach, most_lines};

    /// What the desk's replies depend on.
    ghost State: { Type 0 };

    /// The state that it is in.
    ghost state: { Self → State };

    /// In this state the line may get this reply, and leave that state.
    ghost gives: { State → Line → Reply → State → Type 0 };

    /// The form of its program, in this state.
    ghost form_of: { State → Form };

    /// The form of its program: of the lines that it takes.
    fn form(&self) -> Form
        ensures { result ≡ form_of (state self.now) };

    /// Answers a line.
    fn ask(&mut self, line: Line) -> Reply
        ensures gives { gives (state self.old) «line» result (state self.new) }
        ensures reply { IsReply widest result };

    /// Answers a line as `ask` does, where more lines are at hand, perhaps: what no reply needs yet may wait for these,
    /// or for `end_batch`.
    fn ask_in_batch(&mut self, line: Line) -> Reply
        ensures gives { gives (state self.old) «line» result (state self.new) }
        ensures reply { IsReply widest result }
    {
        self.ask(line)
    }

    /// Does what waits: no more lines are at hand.
    fn end_batch(&mut self)
        ensures { state self.new ≡ state self.old }
    {}

    /// Whether lines that come together are worth gathering, for `ask_all`: where each answer is waited for. Else they
    /// are asked one by one, as they are read.
    fn asks_together() -> bool {
        false
    }

    /// Answers these lines, at most 64, one after another: the reply to a line is written at its place. What no reply
    /// needed is done at the end.
    fn ask_all(&mut self, lines: &[Line], replies: &mut [Reply])
        requires few { length lines.now ≤ most_lines }
        requires places { length replies.old ≡ length lines.now }
        ensures gives { GivesEach gives (state self.old) lines.now replies.new (state self.new) }
        ensures replies { All (IsReply widest) replies.new }
        ensures places { length replies.new ≡ length lines.now }
    {
        for at in 0..lines.len() {
            replies[at] = self.ask_in_batch(lines[at]);
        }
        self.end_batch();
    }
}
