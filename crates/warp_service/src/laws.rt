//! Laws: what the events come to, in whatever order they happen.
ghost use Rattle.std.specs.Prelude.{◌≡◌, ◌⊎◌, ◌+◌, ◌<◌, ◌≤◌, ◌≢◌, ℕ, Bool, IsTrue, List, None, Option, Some, false, min, true};
ghost use Rattle.warp_service.specs.Contact.{IsReached, Loses, MovesOn, MovesThrough, due_now, is_begun, is_waiting, later, longest_quiet, longest_silence};
ghost use Rattle.warp_service.specs.Contact.{lost, most_losses, next_of, pause_behind};
ghost use Rattle.warp_service.specs.declared.contact.Contact.{Contact};
ghost use Rattle.warp_service.specs.declared.contact.Due.{Due};
ghost use Rattle.warp_service.specs.declared.contact.Way.{Way};
ghost use Rattle.warp_hub.specs.Follow.{FollowState, follows, unconnected};
ghost use Rattle.warp_hub.specs.declared.follow.Phase.{Phase};
ghost use Rattle.warp_record.specs.declared.record.Record.{Record};
ghost use Rattle.warp_service.specs.Peers.{FollowDoes, FollowStep, Hears, Opens, PeerState, first_open, with_end, with_found};
ghost use Rattle.warp_service.specs.News.{TellsNews, news_pause};
ghost use Rattle.warp_service.specs.declared.news.NewsOfPeer.{NewsOfPeer};
ghost use Rattle.warp_service.specs.declared.news.PeerNews.{PeerNews};
ghost use Rattle.warp_service.specs.Lengths.{IsSaid, LengthStep, LengthsState, after_step, after_steps, limit_of};

/// After any steps the limit is what it was before them, or what one of them said: that so many records were written of
/// the file that was the journal's then, with `Synced` that they were on the disk. And never are more records on the disk
/// than written.
pub fn limit_is_said()
    ensures said { (steps : List LengthStep) (l : LengthsState) →
        (limit_of (after_steps steps l) ≡ limit_of l) ⊎ IsSaid (limit_of (after_steps steps l)) steps l }
    ensures synced { (steps : List LengthStep) (l : LengthsState) → l.synced ≤ l.written →
        (after_steps steps l).synced ≤ (after_steps steps l).written }
{}

/// The limit never falls, whatever comes. While the journal can't be written it stays, but for a fresh file that takes its
/// place.
pub fn limit_only_grows()
    ensures grows { (steps : List LengthStep) (l : LengthsState) → limit_of l ≤ limit_of (after_steps steps l) }
    ensures stays { (step : LengthStep) (l : LengthsState) → l.failing ≡ true →
        ((file count : ℕ) → step ≢ LengthStep.Replaced file count) → limit_of (after_step step l) ≡ limit_of l }
{}

/// Nothing is tried before its pause is over: a way that waits until some moment waits for the same after any events,
/// unless one of them was not before that moment. A connection that is lost is tried again behind the pause; that losses
/// are counted to six makes no pause another.
pub fn pauses_hold()
    ensures waits { (events : List ℕ) (c after : Contact) (until : ℕ) → MovesThrough events c after → c.way ≡ Way.Waits until →
        (after.way ≡ Way.Waits until) ⊎ IsReached until events }
    ensures lost { (now : ℕ) (c : Contact) → is_waiting c.way ≡ false → Loses now c (lost now c) }
    ensures counted { (losses : ℕ) → pause_behind (min most_losses losses) ≡ pause_behind losses }
{}

/// A peer that is gone is noticed, though no end of its connection comes. While its bytes are wanted, the next moment of a
/// connection is no later than fifteen seconds behind its last line, and from then on it is to be given up; a host that is
/// followed is to be asked a question from five seconds behind it on, if none is under way.
pub fn silence_is_noticed()
    ensures looked { (since : ℕ) (c : Contact) → c.way ≡ Way.Open since → c.is_wanted ≡ true →
        next_of c c.way ≤ later c.heard longest_silence }
    ensures asked { (now since : ℕ) (c : Contact) → c.way ≡ Way.Open since → c.is_wanted ≡ true → c.is_host ≡ true →
        c.is_questioned ≡ false → c.asks_at ≡ None → later c.heard longest_quiet ≤ now → now < later c.heard longest_silence →
        due_now now c ≡ Due.Question }
    ensures over { (now since : ℕ) (c : Contact) → c.way ≡ Way.Open since → c.is_wanted ≡ true →
        later c.heard longest_silence ≤ now → due_now now c ≡ Due.Over }
{}

/// Two lines about one peer are told a second apart at least, whatever was noted between them.
pub fn lines_apart()
    ensures { (first second : ℕ) (a b c d : NewsOfPeer) (news other : PeerNews) (left more : ℕ) →
        TellsNews first (Some (record { 0 = news; 1 = left })) a b → c.told_at ≡ b.told_at →
        TellsNews second (Some (record { 0 = other; 1 = more })) c d → later first news_pause ≤ second }
{}

/// The place that is asked for where a connection begins is that of the first record that was not answered; and that place
/// moves by one with each answer, and by nothing else that happens where records are due. Where none are, it becomes the first
/// one behind the record that was had last, where the peer's log is another; and nothing else moves it.
pub fn places_are_kept()
    ensures begun { (f : FollowState) → ((unconnected f).next ≡ first_open f) × (first_open (unconnected f) ≡ first_open f) }
    ensures told { (said : Record) (f after : FollowState) → FollowDoes (FollowStep.Told said) f after →
        (first_open after ≡ first_open f) × (after.next ≡ f.next + 1) }
    ensures answered { (f after : FollowState) → f.missing < f.next → FollowDoes FollowStep.Answered f after →
        (first_open after ≡ first_open f + 1) × (after.next ≡ f.next) }
    ensures returned { (f after : FollowState) → FollowDoes FollowStep.Returned f after →
        (first_open after ≡ first_open f) × (after.next ≡ first_open f) }
    ensures spoke { (f after : FollowState) → FollowDoes FollowStep.Spoke f after → IsTrue (follows f.phase) →
        (first_open after ≡ first_open f) × (after.next ≡ f.next) }
    ensures anew { (f after : FollowState) → FollowDoes FollowStep.Spoke f after →
        ((first_open after ≡ first_open f) × (after.next ≡ f.next))
        ⊎ ((first_open after ≡ 1) × (after.next ≡ 1) × ((is_host : Bool) × (f.phase ≡ Phase.Check is_host))) }
{}

/// What calls do to the way to a peer is events: what is heard, that an address was found, that a connection is there or has
/// ended.
pub fn calls_move()
    ensures heard { (now : ℕ) (p after : PeerState) → Hears now p after → MovesOn now p.contact after.contact }
    ensures found { (now : ℕ) (found : Bool) (p : PeerState) → MovesOn now p.contact (with_found now found p).contact }
    ensures ended { (now number : ℕ) (p : PeerState) → MovesOn now p.contact (with_end now number p).contact }
    ensures opened { (now : ℕ) (p after : PeerState) → IsTrue (is_begun p.contact.way) → Opens now p after →
        MovesOn now p.contact after.contact }
{}
