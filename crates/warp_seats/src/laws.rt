//! Laws: what the calls come to, in whatever order they happen.
ghost use Rattle.std.specs.Prelude.{◌≡◌, ◌+◌, ◌<◌, ◌≤◌, ℕ, Bool, List, None, Some, false, get_or, is_some, length, min, nat_le, true};
ghost use Rattle.warp_tag.specs.Limits.{last_number};
ghost use Rattle.warp_watch.specs.declared.client_id.ClientId.{ClientId};
ghost use Rattle.warp_seats.specs.declared.seat.Seat.{Seat};
ghost use Rattle.warp_seats.specs.declared.seat.Sitter.{Sitter};
ghost use Rattle.warp_seats.specs.Seats.{AreApart, NobodyJoins, SeatStep, SeatsState, after_steps, back_to, can_take, expired, found_by};
ghost use Rattle.warp_seats.specs.Seats.{free_for, freed, fresh, held_by, is_taken_with, may_send, never, same_client, seat_at};
ghost use Rattle.warp_seats.specs.Text.{AreKept, AreOffered, CanBeSaid, kept_from, text_of};
ghost use Rattle.warp_seats.specs.Seats.{seat_of, soonest, taken_by, with_seat};

/// Whatever is called, no client has two seats, and no secret. Of an origin with a seat no two clients may send, and no client
/// for two of them.
pub fn each_has_one_seat()
    ensures fresh { (offered : List Bool) → AreApart (fresh offered) }
    ensures stays { (steps : List SeatStep) (s : SeatsState) → AreApart s → AreApart (after_steps steps s) }
    ensures sends { (one other : ClientId) (n : ℕ) (s : SeatsState) → get_or s.offered n false ≡ true →
        may_send one n s ≡ true → may_send other n s ≡ true → same_client one other ≡ true }
    ensures alone { (who : ClientId) (m n : ℕ) (s : SeatsState) → AreApart s → get_or s.offered m false ≡ true →
        get_or s.offered n false ≡ true → may_send who m s ≡ true → may_send who n s ≡ true → m ≡ n }
{}

/// A client that joins gets the lowest origin that is offered, allowed and free, and none only where there is no such origin, it
/// sits already or somebody sits with that secret. It may send for it then.
pub fn lowest_seat_is_given()
    ensures free { (who : ClientId) (allowed : List Bool) (digest : List ℕ) (n : ℕ) (s : SeatsState) →
        free_for who allowed digest s ≡ Some n → can_take s.offered allowed n (seat_at n s) ≡ true }
    ensures lowest { (who : ClientId) (allowed : List Bool) (digest : List ℕ) (m n : ℕ) (s : SeatsState) →
        free_for who allowed digest s ≡ Some n → m < n → can_take s.offered allowed m (seat_at m s) ≡ false }
    ensures none { (who : ClientId) (allowed : List Bool) (digest : List ℕ) (m : ℕ) (s : SeatsState) →
        free_for who allowed digest s ≡ None → seat_of who s ≡ None → found_by digest s ≡ None → m < length s.seats →
        can_take s.offered allowed m (seat_at m s) ≡ false }
    ensures sends { (who : ClientId) (allowed : List Bool) (digest : List ℕ) (n : ℕ) (s : SeatsState) →
        free_for who allowed digest s ≡ Some n → may_send who n (with_seat n (taken_by who digest) s) ≡ true }
{}

/// Where a client came back, who sat there may no longer send, and the client may.
pub fn former_holder_is_out()
    ensures out { (who other : ClientId) (digest : List ℕ) (n : ℕ) (s : SeatsState) → back_to who digest s ≡ Some n →
        get_or s.offered n false ≡ true → same_client who other ≡ false → may_send other n (with_seat n (held_by who) s) ≡ false }
    ensures sends { (who : ClientId) (digest : List ℕ) (n : ℕ) (s : SeatsState) → back_to who digest s ≡ Some n →
        may_send who n (with_seat n (held_by who) s) ≡ true }
{}

/// The secret of a seat that is freed brings nobody back, whatever is called then, unless a client joins with it anew.
pub fn freed_secrets_are_none()
    ensures freed { (digest : List ℕ) (n : ℕ) (s : SeatsState) → AreApart s → is_taken_with digest (seat_at n s) ≡ true →
        found_by digest (with_seat n freed s) ≡ None }
    ensures stays { (steps : List SeatStep) (digest : List ℕ) (s : SeatsState) → NobodyJoins digest steps →
        found_by digest s ≡ None → found_by digest (after_steps steps s) ≡ None }
    ensures back { (who : ClientId) (digest : List ℕ) (s : SeatsState) → found_by digest s ≡ None → back_to who digest s ≡ None }
{}

/// The number that counts how often a seat was taken never falls, and grows when it is, as long as 32 bits have room.
pub fn generations_grow()
    ensures grows { (steps : List SeatStep) (n : ℕ) (s : SeatsState) → ((m : ℕ) → (seat_at m s).generation ≤ last_number) →
        (seat_at n s).generation ≤ (seat_at n (after_steps steps s)).generation }
    ensures taken { (who : ClientId) (digest : List ℕ) (seat : Seat) → seat.generation < last_number →
        (taken_by who digest seat).generation ≡ seat.generation + 1 }
{}

/// A seat is freed only of who is away since so long, and just from the moment on that was told.
pub fn seats_are_kept()
    ensures kept { (now timeout n : ℕ) (s : SeatsState) → expired now timeout s ≡ Some n →
        (since : ℕ) × ((seat_at n s).sitter ≡ Sitter.Away since) × (min never (since + timeout) ≤ now) }
    ensures due { (now timeout : ℕ) (s : SeatsState) → now < never →
        is_some (expired now timeout s) ≡ nat_le (soonest timeout s.seats) now }
{}

/// What is written is read: what is kept of seats has their text, and of all seats that can be kept no others have it. What is
/// kept of a seat is how often it was taken and the digest; who sat there is away.
pub fn what_is_written_is_read()
    ensures kept { (now : ℕ) (s : SeatsState) → AreApart s → length s.seats ≡ 64 → AreOffered s → CanBeSaid s →
        AreKept s.offered now (kept_from now s) × (text_of (kept_from now s) ≡ text_of s) }
    ensures one { (offered : List Bool) (now : ℕ) (s other : SeatsState) → AreKept offered now s → AreKept offered now other →
        text_of s ≡ text_of other → (n : ℕ) → n < 64 → seat_at n s ≡ seat_at n other }
    ensures offered { (steps : List SeatStep) (s : SeatsState) → AreOffered s → AreOffered (after_steps steps s) }
{}
