//! Laws of spellings: each line, record and reply has one, none with its line feed begins another with its line feed,
//! and the widest form has all of the others'.
ghost use Rattle.std.specs.Prelude.{◌≡◌, ℕ, List, [], ◌∷◌, ◌++◌};
ghost use Rattle.warp_tag.specs.Limits.{wider, widest};
ghost use Rattle.warp_tag.specs.Lists.{StartsWith};
ghost use Rattle.warp_tag.specs.declared.form.Form.{Form};
ghost use Rattle.warp_record.specs.declared.line.Line.{Line};
ghost use Rattle.warp_record.specs.declared.record.Record.{Record};
ghost use Rattle.warp_record.specs.declared.reply.Reply.{Reply};
ghost use Rattle.warp_record.specs.Line.{IsLine, spelling};
ghost use Rattle.warp_record.specs.Lines.{IsOneLine};
ghost use Rattle.warp_record.specs.Record.{IsRecord};
ghost use Rattle.warp_record.specs.Reply.{IsReply, reply_spelling};

/// Two lines in range in any form with one spelling are one line. A record in range is one of them.
pub fn one_spelling()
    ensures { (a b : Line) → IsLine widest a → IsLine widest b → spelling a ≡ spelling b → a ≡ b }
{}

/// Two replies in range in any form with one spelling are one reply.
pub fn one_reply_spelling()
    ensures { (a b : Reply) → IsReply widest a → IsReply widest b → reply_spelling a ≡ reply_spelling b → a ≡ b }
{}

/// No spelling has a line feed in it.
pub fn no_line_feed()
    ensures lines { (line : Line) → IsLine widest line → IsOneLine (spelling line) }
    ensures replies { (reply : Reply) → IsReply widest reply → IsOneLine (reply_spelling reply) }
{}

/// No spelling with its line feed begins another with its line feed: bytes in which a line feed stands at their end
/// alone begin no other such bytes.
pub fn no_front()
    ensures { (a b : List ℕ) → IsOneLine a → IsOneLine b → StartsWith (b ++ 10 ∷ []) (a ++ 10 ∷ []) → a ≡ b }
{}

/// Whatever is in range in a form is in range in the widest. With the one spelling that says: each line, record and
/// reply of a form is the same one of the widest.
pub fn wider_line()
    ensures lines { (f : Form) (line : Line) → IsLine f line → IsLine widest line }
    ensures records { (f : Form) (said : Record) → IsRecord f said → IsRecord widest said }
    ensures replies { (f : Form) (reply : Reply) → IsReply f reply → IsReply widest reply }
{}

/// Whatever is in range in a form is in range in each wider one: so each line, record and reply of version 1 is the same
/// one of version 2, and each of version 2 the same one of version 3.
pub fn line_of_wider_form()
    ensures lines { (f g : Form) (line : Line) → IsLine f line → IsLine (wider g f) line }
    ensures records { (f g : Form) (said : Record) → IsRecord f said → IsRecord (wider g f) said }
    ensures replies { (f g : Form) (reply : Reply) → IsReply f reply → IsReply (wider g f) reply }
{}
