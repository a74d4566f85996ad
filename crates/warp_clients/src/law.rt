//! Laws: what steps come to, in whatever order they happen, for any number of clients.
ghost use Rattle.std.specs.Prelude.{◌≡◌, ◌≢◌, [], ◌∷◌, List, length};
ghost use Rattle.warp_replica.specs.Answered.{facts_of};
ghost use Rattle.warp_replica.specs.History.{IsHistory};
ghost use Rattle.warp_room.specs.Room.{history};
ghost use Rattle.warp_room.specs.Steps.{RoomRuns, logged_in};
ghost use Rattle.warp_clients.specs.Steps.{ClientsState, Runs, Step};
ghost use Rattle.warp_clients.specs.Tale.{AreAllowed, AreTold, IsEmpty, room_steps, tale_of};
ghost use Rattle.warp_clients.specs.Crowd.{IsAway};
ghost use Rattle.warp_clients.specs.Steps as step;
ghost use Rattle.warp_room.specs.declared.answers.AnsweredLine.{AnsweredLine};

use warp_line::Timeline;

/// Clients of which none had come, after any steps: each line that a client said was answered once, in order, to it and to
/// nobody else, up to its lines in the room and what waits in its slot, while it is not over; the bytes for it are the
/// texts of these answers and of what was pushed, whole; and a line goes to the room with the rights of the last token that its client said
/// and was told of, or else with those with which it came, whatever the tokens are by then. The lines that were left to the log, with their
/// answers, and what the host said itself are a linear history of the program and the log.
pub fn what_is_told<T: Timeline>()
    ensures told { (steps : List Step) (s s' : ClientsState T) → IsEmpty s →
        Runs (facts_of T.settled T.refused T.floor T.SLACK) steps s s' →
        AreTold (tale_of s.crowd.common.facts steps) s' }
    ensures allowed { (steps : List Step) (s s' : ClientsState T) → IsEmpty s →
        Runs (facts_of T.settled T.refused T.floor T.SLACK) steps s s' →
        AreAllowed s.crowd.common.facts steps (tale_of s.crowd.common.facts []) }
    ensures room { (steps : List Step) (s s' : ClientsState T) →
        Runs (facts_of T.settled T.refused T.floor T.SLACK) steps s s' →
        RoomRuns (facts_of T.settled T.refused T.floor T.SLACK) (room_steps steps) s.room s'.room }
    ensures history { (steps : List Step) (s s' : ClientsState T) →
        Runs (facts_of T.settled T.refused T.floor T.SLACK) steps s s' →
        IsHistory s'.room.replica.program s'.room.replica.records (length s.room.replica.records)
        (history (logged_in (room_steps steps)) ∷ []) }
{}
