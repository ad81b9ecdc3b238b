//! What stands behind any calls.
ghost use Rattle.std.specs.Prelude.{◌≡◌, ◌≢◌, ℕ, [], ◌++◌, Bool, List, map, true, Some, None};
ghost use Rattle.net_base.specs.declared.addr.Addr.{Addr};
ghost use Rattle.net_base.specs.declared.prefix.Prefix.{Prefix};
ghost use Rattle.conf_tree.specs.declared.conf.Conf.{Conf};
ghost use Rattle.conf_tree.specs.Canonical.{canonical};
ghost use Rattle.core_msgs.specs.declared.frame.Done.{Done};
ghost use Rattle.core_msgs.specs.declared.frame.Frame.{Frame};
ghost use Rattle.core_msgs.specs.declared.frame.Frame.TheVariants.{Ack, Couple};
ghost use Rattle.core_msgs.specs.declared.parts.Core.TheVariants.{Decision};
ghost use Rattle.kroute.specs.Calls.{IsNext, Outside};
ghost use Rattle.kroute.specs.Phases.{coupling_of, row_at};
ghost use Rattle.kroute.specs.Rows.{Rows};
ghost use Rattle.kroute.specs.Table.{TableState};
ghost use Rattle.kroute.specs.Tables.{table_at};
ghost use Rattle.kroute.specs.declared.phase.Coupling.TheVariants.{Coupled, Decoupled};
ghost use Rattle.kroute.specs.declared.phase.Phase.TheVariants.{New, Lost};
ghost use Rattle.nexthop_track.specs.Changes.{answers_changed};
ghost use Rattle.nexthop_track.specs.Hops.{is_tracked_in, is_valid};
ghost use Rattle.reload_stage.specs.declared.item.StageItem.{StageItem};
ghost use Rattle.reload_stage.specs.Stages.{stage_items};
ghost use Rattle.parent_core.specs.declared.reloads.Stage.TheVariants.{AtSession};
ghost use Rattle.parent_core.specs.Answered.{last_answer};
ghost use Rattle.parent_core.specs.Calls.{Routes, Takes, Works};
ghost use Rattle.parent_core.specs.Cost.{Bounds, BringsWithin, IsWithin, ListsWithin};
ghost use Rattle.parent_core.specs.Frames.{answered, only_frames, staged};
ghost use Rattle.parent_core.specs.History.{History, Step, Took, given, kept};
ghost use Rattle.parent_core.specs.Runs.{Does, Held, LeadsTo};
ghost use Rattle.parent_core.specs.State.{ParentState};

/// Behind any calls, a coupled table without a job has exactly the rows that are wanted of it since it was configured, where
/// the kernel tells them. One that was coupled since then, and is decoupled, has none.
pub fn settled_tables_hold_what_is_wanted()
    ensures coupled { (h : History) (s : ParentState) (held : Held) (n : ℕ) (t : TableState) (wanted rows : Rows) →
        LeadsTo h s held → table_at s.tables n ≡ Some t → (kept h).wanted n ≡ Some wanted → held n ≡ Some rows →
        coupling_of t.phase ≡ Coupled → IsNext t.phase None → (q : Prefix) → row_at rows q ≡ row_at wanted q }
    ensures decoupled { (h : History) (s : ParentState) (held : Held) (n : ℕ) (t : TableState) (rows : Rows) →
        LeadsTo h s held → table_at s.tables n ≡ Some t → held n ≡ Some rows →
        coupling_of t.phase ≡ Decoupled → t.phase ≢ New → IsNext t.phase None → rows ≡ [] }
{}

/// A lost table stays lost and its rows as they are, until it is coupled again: by a frame, or where the kernel switch changes.
pub fn lost_tables_rest()
    ensures { (step : Step) (old new : ParentState) (was held : Held) (n : ℕ) (t u : TableState) →
        Does step old new was held → table_at old.tables n ≡ Some t → table_at new.tables n ≡ Some u → t.phase ≡ Lost →
        step ≢ Took (Couple n true) → new.conf.fib_update ≡ old.conf.fib_update → (u.phase ≡ Lost) × (held n ≡ was n) }
{}

/// The Ack of the session core gives the decision core the stage that the session core was given: that of the canonical text,
/// under the same generation.
pub fn both_cores_get_one_stage()
    ensures { (h : History) (conf : Conf) (items : List StageItem) → (kept h).reloads.stage ≡ AtSession conf items →
        given (Took (Ack (kept h).reloads.generation)) (kept h) ≡ only_frames (map answered (answers_changed (kept h).hops
        (record (kept h).hops { qualify_default = conf.qualify_default }))
        ++ staged Decision (stage_items (kept h).reloads.generation (canonical conf))) }
{}

/// Each next hop that is tracked was answered, and the last answer on it is whether it is valid now.
pub fn last_answers_hold()
    ensures { (h : History) (a : Addr) → is_tracked_in (kept h).hops.tracked a ≡ true →
        last_answer a h ≡ Some (is_valid (kept h).hops a) }
{}

/// What bounds the parent still does behind each step, where what the step brings is within the bounds too.
pub fn bounds_stay()
    ensures frame { (frame : Frame) (old new : ParentState) (done : Done) (b : Bounds) →
        Takes frame old new done → BringsWithin b frame old → IsWithin b old → IsWithin b new }
    ensures route { (p : Prefix) (up : Bool) (old new : ParentState) (done : Done) (b : Bounds) →
        Routes p up old new done → IsWithin b old → IsWithin b new }
    ensures unit { (old new : ParentState) (done : Done) (before behind : Outside) (b : Bounds) →
        Works old new done before behind → ListsWithin b before behind → IsWithin b old → IsWithin b new }
{}
