//! Records of the log, for a journal.
ghost use Rattle.std.specs.Prelude.{◌≡◌, ◌++◌, OnErr, OnOk, drop, take};

use warp_line::Timeline;
use warp_record::Record;
use warp_replica::Replica;
use warp_tag::OutOfMemory;

/// Puts the records of the log that stand behind so many of it into the list, at most so many, in their order. `Err`
/// changes nothing.
pub(crate) fn copy_behind<T: Timeline>(
    replica: &Replica<T>,
    count: u32,
    most: u32,
    list: &mut Vec<Record>,
) -> Result<(), OutOfMemory>
    ensures ok { OnOk result (list.new.items ≡ list.old.items ++ take most (drop count replica.now.records)) }
    ensures err { OnErr result (list.new.items ≡ list.old.items) }
{
    let len = replica.len();
    if count >= len {
        return Ok(());
    }
    let left = (len - count).min(most);
    list.reserve(left as usize)?;
    let end = count + left;
    for index in count..end {
        let Some(record) = replica.entry(index + 1) else {
            return Ok(());
        };
        list.push_reserved(record);
    }
    Ok(())
}
