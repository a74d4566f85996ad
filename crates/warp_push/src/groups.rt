//! Who watches cells: for each range of variables that somebody watches, who does, and what was told of it.

ghost use Rattle.std.specs.Prelude.{◌≡◌, ◌==◌, ◌<◌, ◌∷◌, ◌++◌, [], IfNone, IfSome, None, false, length, position, slice_get, true};
ghost use Rattle.warp_push.specs.Stretches.{SaysStretch};
ghost use Rattle.warp_push.specs.Watching.{IsFor, Joins, OnlyTold, TellsCells, TellsNext, blank, changed, is_free, keys_in, keys_of, number_in, number_of, place_of};
ghost use Rattle.warp_push.specs.Watching.{watches, without_key, without_place};

use crate::marks::CellRange;
use crate::shared::Latest;
use crate::stretch::stretch_line;
use std::alloc::Global;
use std::marker::Model;
use warp_watch::Question;

/// What stands in front of a line of cells: a program that has none of them answers another one.
const CELLS: &[u8] = b"cells ";

/// The watchers of a range, and its newest values. It is of no range while nobody stands in it.
#[derive(Drop)]
struct Group {
    range: CellRange,
    latest: Latest,
    /// The keys of those that watch it.
    keys: Vec<u32>,
}

/// What is pushed of a range.
#[derive(Drop)]
pub(crate) struct CellNews {
    /// Its newest values are the so-manieth.
    pub(crate) version: u64,
    /// Whether all are told, or a stretch with those that differ from the values before.
    pub(crate) is_whole: bool,
    /// The line.
    pub(crate) text: Vec<u8>,
}

/// What is asked of this range.
fn question_of(range: CellRange) -> Question {
    Question::Cells {
        first: range.first,
        count: range.count,
    }
}

impl Model for Group {
    ghost use Rattle.warp_push.specs.Watching.{Watched};

    ghost Value = { Watched };

    ghost view = { λ g. record { range = g.range; keys = g.keys.items; number = g.latest.version; line = g.latest.text.items } };
}

impl Group {
    /// Nobody watches this range yet.
    fn new(alloc: Global, range: CellRange) -> Group
        ensures { result ≡ blank range }
    {
        Group {
            range,
            latest: Latest::new(alloc, question_of(range)),
            keys: Vec::new(alloc),
        }
    }

    /// Whether somebody watches this range here.
    fn is_of(&self, range: CellRange) -> bool
        ensures { result ≡ watches range self.now }
    {
        self.range.is(range) && !self.keys.is_empty()
    }

    /// The question, if it is due at this length of the log.
    fn due(&mut self, newest: u32) -> Option<Question>
        ensures { self.new ≡ self.old }
    {
        if self.keys.is_empty() {
            return None;
        }
        self.latest.due(newest)
    }

    /// Some watcher was not pushed the newest values.
    fn want(&mut self)
        ensures { self.new ≡ self.old }
    {
        self.latest.want(true);
    }

    /// The values could not be told.
    fn missed(&mut self)
        ensures { self.new ≡ self.old }
    {
        self.latest.missed();
    }

    /// There are no values, at this length of the log.
    fn lack(&mut self, len: u32)
        ensures { self.new ≡ self.old }
    {
        self.latest.lack(len);
    }

    /// This key is of a watcher from now on, which was not pushed any values; whether there was memory.
    fn join(&mut self, key: u32) -> bool
        ensures more { result ≡ true → self.new ≡ record self.old { keys = self.old.keys ++ key ∷ [] } }
        ensures same { result ≡ false → self.new ≡ self.old }
    {
        self.latest.want(true);
        self.keys.push(key).is_ok()
    }

    /// This key is of a watcher no longer.
    fn quit(&mut self, key: u32)
        ensures { self.new ≡ record self.old { keys = without_key key self.old.keys } }
    {
        let Some(at) = place_of(&self.keys, key) else {
            return;
        };
        let _key = self.keys.swap_remove(at);
    }

    /// The key at this place is of a watcher no longer.
    fn remove(&mut self, place: usize)
        ensures { self.new ≡ record self.old { keys = without_place place self.old.keys } }
    {
        if place < self.keys.len() {
            let _key = self.keys.swap_remove(place);
        }
    }

    /// How many watch it.
    fn count(&self) -> usize
        ensures { result ≡ length self.now.keys }
    {
        self.keys.len()
    }

    /// The key at this place of those that watch it.
    fn key(&self, place: usize) -> Option<u32>
        ensures { result ≡ slice_get self.now.keys place }
    {
        let key = self.keys.get(place)?;
        Some(*key)
    }

    /// The number of its newest values.
    fn version(&self) -> u64
        ensures { result ≡ self.now.number }
    {
        self.latest.version()
    }

    /// The values were told at this length of the log: what is pushed of them. Without memory they are asked again.
    fn news(&mut self, alloc: Global, first: u32, len: u32, text: &[u8]) -> Option<CellNews>
        ensures others { self.new ≡ record self.old { number = self.new.number; line = self.new.line } }
        ensures tells { IfSome result (λ one. TellsNext first self.old.number self.old.line self.new.number self.new.line
            one.version one.is_whole one.text.items text.now) }
    {
        cell_news(&mut self.latest, alloc, first, len, text)
    }
}

/// The line with the values that differ from those before, where each watcher was pushed these.
fn stretch_of(latest: &Latest, alloc: Global, first: u32, text: &[u8]) -> Option<Vec<u8>>
    ensures says { IfSome result (λ line. SaysStretch first latest.now.text.items line.items text.now) }
    ensures wanted { IfSome result (λ line. latest.now.is_wanted ≡ false) }
{
    if latest.is_wanted() {
        return None;
    }
    stretch_line(alloc, first, latest.text(), text)
}

/// Values were told at this length of the log: what is pushed of them. Without memory they are asked again.
fn cell_news(
    latest: &mut Latest,
    alloc: Global,
    first: u32,
    len: u32,
    text: &[u8],
) -> Option<CellNews>
    ensures { IfSome result (λ one. TellsNext first latest.old.version latest.old.text.items latest.new.version
        latest.new.text.items one.version one.is_whole one.text.items text.now) }
{
    let stretch = stretch_of(latest, alloc, first, text);
    let line = latest.news(alloc, len, text)?;
    let version = latest.version();
    match stretch {
        Some(stretch) => Some(CellNews {
            version,
            is_whole: false,
            text: stretch,
        }),
        None => Some(CellNews {
            version,
            is_whole: true,
            text: line,
        }),
    }
}

/// Where this key stands in a list.
fn place_of(keys: &[u32], key: u32) -> Option<usize>
    ensures place { result ≡ position (λ one. one == key) keys.now }
    ensures below { IfSome result (λ at. at < length keys.now) }
{
    keys.iter().position(|one| *one == key)
}

/// The ranges that somebody watches.
#[derive(Drop)]
pub(crate) struct Groups {
    all: Vec<Group>,
    /// The group at which the look for what is due goes on.
    next: usize,
}

impl Model for Groups {
    ghost use Rattle.std.specs.Prelude.{List};
    ghost use Rattle.warp_push.specs.Watching.{Watched};

    ghost Value = { List Watched };

    ghost view = { λ g. g.all.items };
}

impl Groups {
    /// Nobody watches.
    pub(crate) fn new(alloc: Global) -> Groups
        ensures { result ≡ [] }
    {
        Groups {
            all: Vec::new(alloc),
            next: 0,
        }
    }

    /// Where the group of this range is.
    fn find(&self, range: CellRange) -> Option<usize>
        ensures { result ≡ place_of range self.now }
    {
        self.all.iter().position(|group| group.is_of(range))
    }

    /// Where a group is in which nobody stands.
    fn find_free(&self) -> Option<usize>
        ensures { result ≡ position is_free self.now }
    {
        self.all.iter().position(|group| group.keys.is_empty())
    }

    /// Where the group of this range is, made where there is none. None without memory.
    fn make(&mut self, alloc: Global, range: CellRange) -> Option<usize>
        ensures made { IfSome result (IsFor range self.old self.new) }
        ensures same { IfNone result (self.new ≡ self.old) }
    {
        match self.find(range) {
            Some(at) => Some(at),
            None => self.make_anew(alloc, range),
        }
    }

    /// Where the group of this range is from now on. None without memory.
    fn make_anew(&mut self, alloc: Global, range: CellRange) -> Option<usize>
        requires { place_of range self.old ≡ None }
        ensures made { IfSome result (IsFor range self.old self.new) }
        ensures same { IfNone result (self.new ≡ self.old) }
    {
        if let Some(at) = self.find_free() {
            self.all[at] = Group::new(alloc, range);
            return Some(at);
        }
        if self.all.reserve(1).is_err() {
            return None;
        }
        let at = self.all.len();
        self.all.push_reserved(Group::new(alloc, range));
        Some(at)
    }

    /// The client of this key watches this range, and was not pushed it; whether there was memory.
    pub(crate) fn join(&mut self, alloc: Global, range: CellRange, key: u32) -> bool
        ensures last { result ≡ true → keys_of range self.new ≡ keys_of range self.old ++ key ∷ [] }
        ensures joins { Joins range key result self.old self.new }
    {
        let Some(at) = self.make(alloc, range) else {
            return false;
        };
        self.all[at].join(key)
    }

    /// The client of this key watches this range no longer.
    pub(crate) fn quit(&mut self, range: CellRange, key: u32)
        ensures { self.new ≡ changed (without_key key) (place_of range self.old) self.old }
    {
        let Some(at) = self.find(range) else {
            return;
        };
        if at >= self.all.len() {
            return;
        }
        self.all[at].quit(key);
    }

    /// Some watcher was not pushed the newest values of this range.
    pub(crate) fn want(&mut self, range: CellRange)
        ensures { self.new ≡ self.old }
    {
        if let Some(at) = self.find(range) {
            if at < self.all.len() {
                self.all[at].want();
            }
        }
    }

    /// The number of the newest values of this range; 0 before the first.
    pub(crate) fn version(&self, range: CellRange) -> u64
        ensures { result ≡ number_of range self.now }
    {
        match self.find(range) {
            Some(at) => self.version_at(at),
            None => 0,
        }
    }

    /// The number of the newest values of the range of the group at this place.
    fn version_at(&self, at: usize) -> u64
        ensures { result ≡ number_in (slice_get self.now at) }
    {
        if at >= self.all.len() {
            return 0;
        }
        self.all[at].version()
    }

    /// The next question that is due at this length of the log; each group has its turn.
    pub(crate) fn due(&mut self, newest: u32) -> Option<Question>
        ensures { self.new ≡ self.old }
    {
        let next = self.next;
        let len = self.all.len();
        if let Some(question) = self.due_within(next, len, newest) {
            return Some(question);
        }
        self.due_within(0, next, newest)
    }

    /// The first question that is due of the groups from here to there.
    fn due_within(&mut self, from: usize, until: usize, newest: u32) -> Option<Question>
        ensures { self.new ≡ self.old }
    {
        for at in from..until {
            if let Some(question) = self.due_at(at, newest) {
                self.next = at + 1;
                return Some(question);
            }
        }
        None
    }

    /// The question of the group at this place, if there is one and it is due.
    fn due_at(&mut self, at: usize, newest: u32) -> Option<Question>
        ensures { self.new ≡ self.old }
    {
        if at >= self.all.len() {
            return None;
        }
        self.all[at].due(newest)
    }

    /// The values of this range could not be told: they are asked for again.
    pub(crate) fn missed(&mut self, range: CellRange)
        ensures { self.new ≡ self.old }
    {
        if let Some(at) = self.find(range) {
            if at < self.all.len() {
                self.all[at].missed();
            }
        }
    }

    /// What is pushed of this range, whose values were told at this length of the log.
    pub(crate) fn news(
        &mut self,
        alloc: Global,
        range: CellRange,
        len: u32,
        text: &[u8],
    ) -> Option<CellNews>
        ensures tells { IfSome result (λ one. TellsCells range one.version one.is_whole one.text.items text.now self.old self.new) }
        ensures only { OnlyTold range self.old self.new }
    {
        let at = self.find(range)?;
        if at >= self.all.len() {
            return None;
        }
        if !text.starts_with(CELLS) {
            self.all[at].lack(len);
            return None;
        }
        self.all[at].news(alloc, range.first, len, text)
    }

    /// How many watch this range.
    pub(crate) fn count(&self, range: CellRange) -> usize
        ensures { result ≡ length (keys_of range self.now) }
    {
        match self.find(range) {
            Some(at) => self.count_at(at),
            None => 0,
        }
    }

    /// How many watch the range of the group at this place.
    fn count_at(&self, at: usize) -> usize
        ensures { result ≡ length (keys_in (slice_get self.now at)) }
    {
        if at >= self.all.len() {
            return 0;
        }
        self.all[at].count()
    }

    /// The key at this place of those that watch this range.
    pub(crate) fn key(&self, range: CellRange, place: usize) -> Option<u32>
        ensures { result ≡ slice_get (keys_of range self.now) place }
    {
        let at = self.find(range)?;
        self.key_at(at, place)
    }

    /// The key at this place of those of a group.
    fn key_at(&self, at: usize, place: usize) -> Option<u32>
        ensures { result ≡ slice_get (keys_in (slice_get self.now at)) place }
    {
        if at >= self.all.len() {
            return None;
        }
        self.all[at].key(place)
    }

    /// Takes off the key at this place of those that watch this range.
    pub(crate) fn remove(&mut self, range: CellRange, place: usize)
        ensures { self.new ≡ changed (without_place place) (place_of range self.old) self.old }
    {
        let Some(at) = self.find(range) else {
            return;
        };
        if at >= self.all.len() {
            return;
        }
        self.all[at].remove(place);
    }
}
