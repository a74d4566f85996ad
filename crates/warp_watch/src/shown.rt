//! The released outputs that were shown.
ghost use Rattle.std.specs.Prelude.{◌≡◌, ◌<◌, ◌≤◌, ◌↔◌, ◌&&◌, [], List, IsTrue, OnErr, OnOk, drop, false, length};
ghost use Rattle.warp_tag.specs.Limits.{has_joint};
ghost use Rattle.warp_tag.specs.Lists.{StartsWith};
ghost use Rattle.warp_table.specs.Announced.{IsHonest};
ghost use Rattle.warp_table.specs.Records.{set_of};
ghost use Rattle.warp_record.specs.declared.record.Record.{Record};
ghost use Rattle.warp_replica.specs.Answers.{Answers, AreAnswers, IsReleased};
ghost use Rattle.warp_watch.specs.Shown.{AreShownOf, Shows};

use std::alloc::Global;
use std::marker::Model;
use warp_line::Timeline;
use warp_record::{Query, Reply};
use warp_replica::{Replica, one_answer, released_stays};
use warp_tag::{Out, OutOfMemory};

/// The most outputs that are shown: each has a number of 32 bits, and so has what stands behind the last.
const MOST_ROWS: usize = 4_294_967_295;

/// The released outputs that were shown, in order, and whether they are frozen: that one of them was taken back, since
/// an origin broke its word. None of them ever changes. Contracts see these two.
#[derive(Drop)]
pub struct Shown {
    rows: Vec<Out>,
    frozen: bool,
}

impl Model for Shown {
    ghost use Rattle.std.specs.Prelude.{◌<◌, ◌^◌, length};
    ghost use Rattle.warp_watch.specs.Shown.{ShownState};

    ghost Value = { ShownState };

    ghost view = { λ s. record { rows = s.rows.items; frozen = s.frozen } };

    ghost invariant = { λ s. length s.rows.items < 2 ^ 32 };
}

impl Shown {
    /// Nothing is shown yet.
    pub fn new(alloc: Global) -> Shown
        ensures { result ≡ record { rows = []; frozen = false } }
    {
        Shown {
            rows: Vec::new(alloc),
            frozen: false,
        }
    }

    /// The released outputs that were shown.
    pub fn rows(&self) -> &[Out]
        ensures { result.now ≡ self.now.rows }
    {
        &self.rows
    }

    /// How many were shown.
    pub fn len(&self) -> u32
        ensures { result ≡ length self.now.rows }
    {
        self.rows.len() as u32
    }

    /// Whether they are frozen.
    pub fn is_frozen(&self) -> bool
        ensures { result ≡ self.now.frozen }
    {
        self.frozen
    }

    /// Takes on what a settled replica releases: where that begins with what was shown, all of it is shown now; else
    /// what was shown is frozen, for good. `Err` changes nothing; more than 4,294,967,295 outputs are too many for any
    /// memory.
    ///
    /// That is so where the replica's log goes on from the log that it had, or another replica of its program, when
    /// this was called before. It need only be called where the log has grown. While no origin broke an announcement no
    /// output is compared.
    pub fn update<T: Timeline>(&mut self, replica: &Replica<T>) -> Result<(), OutOfMemory>
        requires { IsTrue (T.settled replica.now.timeline) }
        ensures shows { (before : List Record) → StartsWith replica.now.records before →
            AreShownOf replica.now.program before self.old → OnOk result ((a : Answers) →
            AreAnswers replica.now.program (set_of replica.now.records) a → Shows a.released self.old self.new) }
        ensures shown { (before : List Record) → StartsWith replica.now.records before →
            AreShownOf replica.now.program before self.old →
            OnOk result (AreShownOf replica.now.program replica.now.records self.new) }
        ensures frozen { IsTrue self.old.frozen → self.new ≡ self.old }
        ensures kept { StartsWith self.new.rows self.old.rows }
        ensures err { OnErr result (self.new ≡ self.old) }
    {
        if self.frozen {
            return Ok(());
        }
        // Of one set there is one released list.
        one_answer();
        let released = replica.released();
        if !goes_on(replica, released, &self.rows) {
            self.frozen = true;
            return Ok(());
        }
        if released.len() > MOST_ROWS {
            return Err(OutOfMemory);
        }
        self.rows
            .extend_from_slice(behind(released, self.rows.len()))?;
        Ok(())
    }
}

/// What stands behind so many of the list.
fn behind(list: &[Out], count: usize) -> &[Out]
    requires { count ≤ length list.now }
    ensures { result.now ≡ drop count list.now }
{
    &list[count..]
}

/// Whether what a settled replica releases begins with the rows. While no origin broke an announcement that is known
/// of rows that began what was released over an earlier log.
fn goes_on<T: Timeline>(replica: &Replica<T>, released: &[Out], rows: &[Out]) -> bool
    requires settled { IsTrue (T.settled replica.now.timeline) }
    requires released { IsReleased replica.now.program (set_of replica.now.records) released.now }
    ensures long { IsTrue result → length rows.now ≤ length released.now }
    ensures exact { (before : List Record) → StartsWith replica.now.records before →
        ((a : Answers) → AreAnswers replica.now.program (set_of before) a → StartsWith a.released rows.now) →
        IsTrue result ↔ StartsWith released.now rows.now }
{
    // A program has an origin, and each record is in its log once, so that there were answers.
    replica.program().valid();
    replica.valid();
    one_answer();
    released_stays();
    if released.len() < rows.len() {
        return false;
    }
    if is_honest(replica) {
        return true;
    }
    released.starts_with(rows)
}

/// Whether no origin broke an announcement, and no joint one is broken, of a settled replica.
fn is_honest<T: Timeline>(replica: &Replica<T>) -> bool
    requires { IsTrue (T.settled replica.now.timeline) }
    ensures { IsTrue result → IsHonest (set_of replica.now.records) }
{
    // A program has an origin, and each record is in its log once, so that there are answers. It takes announcements of
    // its own origins alone.
    replica.program().valid();
    replica.valid();
    one_answer();
    let origins = replica.program().origins();
    for origin in 0..origins {
        if is_broken(replica, origin) {
            return false;
        }
    }
    if is_jointly_broken(replica) {
        return false;
    }
    true
}

/// Whether a joint announcement of a settled replica is broken; in a form that has none, none is.
pub(crate) fn is_jointly_broken<T: Timeline>(replica: &Replica<T>) -> bool
    requires settled { IsTrue (T.settled replica.now.timeline) }
    ensures { (a : Answers) → AreAnswers replica.now.program (set_of replica.now.records) a →
        result ≡ (has_joint replica.now.program.form && a.broken_jointly) }
{
    one_answer();
    match replica.answer(Query::JointBreach) {
        Reply::Breach { broken, .. } => broken,
        _ => false,
    }
}

/// Whether an origin of a settled replica's program broke an announcement.
pub(crate) fn is_broken<T: Timeline>(replica: &Replica<T>, origin: u32) -> bool
    requires settled { IsTrue (T.settled replica.now.timeline) }
    requires origin { origin < replica.now.program.origins }
    ensures { (a : Answers) → AreAnswers replica.now.program (set_of replica.now.records) a → result ≡ a.broken origin }
{
    one_answer();
    match replica.answer(Query::Breach(origin)) {
        Reply::Breach { broken, .. } => broken,
        _ => false,
    }
}
