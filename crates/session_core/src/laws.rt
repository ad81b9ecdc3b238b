//! Laws over the histories of the session core.

ghost use Rattle.std.specs.Prelude.{◌≡◌, ◌≤◌, ◌+◌, true};
ghost use Rattle.std.specs.List.{list_all, range_with_len};
ghost use Rattle.core_msgs.specs.declared.frame.Done.{Done};
ghost use Rattle.peer_session.specs.Frames.{ups};
ghost use Rattle.session_core.specs.History.{Call, DoesCall, History, Stands, no_session, written};
ghost use Rattle.session_core.specs.Numbers.{noted};
ghost use Rattle.session_core.specs.Sessions.{Sessions};
ghost use Rattle.session_core.specs.Told.{may_report, moment_behind, most_ups};

/// In every history, which sessions are up and the number of the last one are what the frames that were written say, one behind
/// the other.
pub fn numbers_follow_the_frames()
    ensures { (core : Sessions) (h : History) → Stands core h → core.live ≡ noted (written h) no_session }
{}

/// In every history the sessions that came up have the numbers 1, 2, 3 and so on, in that order, up to the number of the last one:
/// so no number is given twice.
pub fn numbers_climb_by_one()
    ensures { (core : Sessions) (h : History) → Stands core h → ups (written h) ≡ range_with_len 1 core.live.last }
{}

/// A call reports lines of its kinds alone: of sessions, of bytes that are sent in a write, that a configuration was taken up where
/// a frame or a configuration comes, and the rows that a command asks for.
pub fn reports_are_of_their_kinds()
    ensures { (call : Call) (old new : Sessions) (done : Done) → DoesCall call old new done →
        list_all (may_report call) done.lines ≡ true }
{}

/// The time is the one that was told last: no other call changes it.
pub fn time_is_told()
    ensures { (call : Call) (old new : Sessions) (done : Done) → DoesCall call old new done →
        new.moment ≡ moment_behind call old.moment }
{}

/// Bytes bring one session up at most, and no other call brings one up.
pub fn bytes_alone_bring_sessions_up()
    ensures { (call : Call) (old new : Sessions) (done : Done) → DoesCall call old new done →
        new.live.last ≤ old.live.last + most_ups call }
{}
