//! How a row is spelled in two words.
ghost use Rattle.std.specs.Prelude.{◌≡◌, ◌<◌, ◌↔◌, Some};
ghost use Rattle.warp_tag.specs.Limits.{most_outputs, widest};
ghost use Rattle.warp_tag.specs.declared.out.Out.{Out};
ghost use Rattle.warp_board.specs.Spelling.{Spells};

use warp_tag::{Out, Tag};

/// How many ports a row can name: 0 to 255.
pub const PORTS: u32 = 256;

/// The two words that spell the row, whose port is 0 to 255: time * 65,536 + microstep * 256 + port, and the value's 64
/// bits.
pub fn spell_row(row: Out) -> (u64, u64)
    requires port { row.port < most_outputs widest }
    ensures { Spells row result.0 result.1 }
{
    let first = row.tag.time() * 65_536 + u64::from(row.tag.micro()) * 256 + u64::from(row.port);
    (first, row.value.cast_unsigned())
}

/// The row that the two words spell; `None` exactly where they spell none, since the first word has no tag in range.
pub fn read_row(first: u64, second: u64) -> Option<Out>
    ensures { (row : Out) → (result ≡ Some row) ↔ Spells row first second }
{
    let port = (first % 256) as u32;
    let tag = Tag::new(first / 65_536, (first / 256 % 256) as u32)?;
    let value = second.cast_signed();
    Some(Out { tag, port, value })
}
