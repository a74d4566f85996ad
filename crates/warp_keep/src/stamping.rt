//! Stamps: the tag that a host gives to an input.
ghost use Rattle.std.specs.Prelude.{◌≡◌, ◌↔◌, ◌≤◌, ◌+◌, min, IsTrue, MatchOption};
ghost use Rattle.warp_tag.specs.Limits.{last_microstep, widest};
ghost use Rattle.warp_tag.specs.Moment.{IsInRange, Moment};
ghost use Rattle.warp_step.specs.Program.{top_of};
ghost use Rattle.warp_table.specs.Horizons.{later};
ghost use Rattle.warp_table.specs.Records.{set_of};
ghost use Rattle.warp_keep.specs.Stamps.{IsFirstFree, IsFirstOpen, IsFree, IsStamp};

use warp_line::Timeline;
use warp_replica::Replica;
use warp_tag::Tag;

/// The tag that an input of the origin gets: the first free microstep, of at most so many, of the first time that has open
/// ones, not before the asked tag. A microstep is open that is not closed to the origin and that times of the program
/// have; it is free where the log has no record of its name, not even a withdrawal. `None` where none there is free. It
/// costs a look for each microstep that it passes.
pub fn stamp<T: Timeline>(replica: &Replica<T>, origin: u32, asked: Tag, most: u32) -> Option<Tag>
    ensures { let room = min most (top_of replica.now.program + 1) in
        MatchOption result ((tag : Moment) → ¬ IsStamp room (set_of replica.now.records) origin asked tag)
        (IsStamp room (set_of replica.now.records) origin asked) }
{
    let room = most.min(replica.program().form().last_microstep() + 1);
    let first = first_open(replica, origin, asked, room)?;
    first_free(replica, origin, first, room)
}

/// The first open tag not before the asked one, where times have so many microsteps.
fn first_open<T: Timeline>(replica: &Replica<T>, origin: u32, asked: Tag, room: u32) -> Option<Tag>
    ensures { IsFirstOpen room (set_of replica.now.records) origin asked result }
{
    if room == 0 {
        return None;
    }
    let from = later(asked, replica.closed_to(origin));
    if from.micro() < room {
        return Some(from);
    }
    Tag::new(from.time() + 1, 0)
}

/// The later one of two tags.
fn later(a: Tag, b: Tag) -> Tag
    ensures { result ≡ later a b }
{
    if a.is_before(b) { b } else { a }
}

/// The first free microstep from this tag on, of the first so many of its time.
fn first_free<T: Timeline>(replica: &Replica<T>, origin: u32, from: Tag, room: u32) -> Option<Tag>
    requires { room ≤ last_microstep widest + 1 }
    ensures { IsFirstFree room (set_of replica.now.records) origin from result }
{
    let time = from.time();
    for micro in from.micro()..room {
        let tag = tag_at(time, micro);
        if is_free(replica, origin, tag) {
            return Some(tag);
        }
    }
    None
}

/// The tag of this time and microstep, which are in range.
fn tag_at(time: u64, micro: u32) -> Tag
    requires { IsInRange (record { time = time; microstep = micro }) }
    ensures { result ≡ record { time = time; microstep = micro } }
{
    Tag::new(time, micro).unwrap()
}

/// Whether the log has no record of the origin's name with this tag.
fn is_free<T: Timeline>(replica: &Replica<T>, origin: u32, tag: Tag) -> bool
    ensures { IsTrue result ↔ IsFree (set_of replica.now.records) origin tag }
{
    replica.find_name(origin, tag).is_none()
}
