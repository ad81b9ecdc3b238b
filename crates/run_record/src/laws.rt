ghost use Rattle.std.specs.Prelude.{◌≡◌, ◌<◌, ◌≤◌, ◌+◌, ◌∷◌, ℕ, Bool, true, List, Some, None, map, IfOk, Ok, IfSome};
ghost use Rattle.net_base.specs.declared.addr.Addr.{Addr};
ghost use Rattle.core_msgs.specs.declared.event.Event.{Event};
ghost use Rattle.core_msgs.specs.declared.event.Event.TheVariants as event;
ghost use Rattle.core_msgs.specs.declared.answer.Answer.{Answer};
ghost use Rattle.core_msgs.specs.declared.answer.Line.TheVariants as line;
ghost use Rattle.core_msgs.specs.declared.row.Row.TheVariants as row;
ghost use Rattle.route_world.specs.Networks.{network_rows};
ghost use Rattle.run_record.specs.Run.{History, generation, under_way, conf};
ghost use Rattle.run_record.specs.Answers.{step, Answers, IsRun, IsRefusal, are_show_rib};
ghost use Rattle.run_record.specs.Sessions.{sent_to, is_stalled};
ghost use Rattle.run_record.specs.Worlds.{world_of};
ghost use Rattle.run_record.specs.Coupling.{kernel_tables};
ghost use Rattle.run_record.specs.Taken.{taken};

/// Generations climb: each reload that is accepted gets the one behind the last, no event takes one back, and while a reload is
/// under way its generation is the last.
pub fn generations_climb()
    ensures accepted { (h : History) (event : Event) (answer : Answer) (g : ℕ) → Answers h event answer →
        answer.last ≡ line.OkGeneration g → g ≡ generation h + 1 }
    ensures never_falls { (h : History) (event : Event) (answer : Answer) → Answers h event answer →
        generation h ≤ generation (step event answer ∷ h) }
    ensures under_way { (h : History) (g : ℕ) → IsRun h → under_way h ≡ Some g → g ≡ generation h }
{}

/// The rows of a show are those of the last accepted configuration, which is that of the text of the reload that brought the
/// present generation.
pub fn rows_come_from_the_last_configuration()
    ensures rows { (h : History) (words : List (List ℕ)) (answer : Answer) → Answers h (event.Ctl words) answer →
        answer.last ≡ line.Ok → answer.lines ≡ map (λ r. line.Row (row.Route r)) (network_rows (conf h)) }
    ensures accepted { (h : History) (text : List ℕ) (answer : Answer) (g : ℕ) → Answers h (event.Reload text) answer →
        answer.last ≡ line.OkGeneration g → taken text ≡ Ok (conf (step (event.Reload text) answer ∷ h)) }
{}

/// An event that was refused changes nothing by which a later one is answered.
pub fn refusals_change_nothing()
    ensures generation { (h : History) (event : Event) (answer : Answer) → Answers h event answer → IsRefusal answer →
        generation (step event answer ∷ h) ≡ generation h }
    ensures under_way { (h : History) (event : Event) (answer : Answer) → Answers h event answer → IsRefusal answer →
        under_way (step event answer ∷ h) ≡ under_way h }
    ensures world { (h : History) (event : Event) (answer : Answer) → Answers h event answer → IsRefusal answer →
        world_of (step event answer ∷ h) ≡ world_of h }
    ensures sent { (h : History) (event : Event) (answer : Answer) → Answers h event answer → IsRefusal answer →
        (peer : Addr) → sent_to peer (step event answer ∷ h) ≡ sent_to peer h }
    ensures stalled { (h : History) (event : Event) (answer : Answer) → Answers h event answer → IsRefusal answer →
        (peer : Addr) → is_stalled peer (step event answer ∷ h) ≡ is_stalled peer h }
    ensures tables { (h : History) (event : Event) (answer : Answer) → Answers h event answer → IsRefusal answer →
        kernel_tables (step event answer ∷ h) ≡ kernel_tables h }
{}
