ghost use Rattle.std.specs.Prelude.{◌≡◌, List, map, flat_map};
ghost use Rattle.std.specs.List.{All};
ghost use Rattle.core_msgs.specs.declared.answer.Answer.{Answer};
ghost use Rattle.event_text.specs.Lines.{answer_text};
ghost use Rattle.event_text.specs.Transcripts.{IsAnswer, answers_of};

/// What was printed of a list of answers is read as these answers: it is cut behind the last line of each.
pub fn transcripts_are_read_as_their_answers()
    ensures { (answers : List Answer) → All IsAnswer answers → answers_of (flat_map answer_text answers) ≡ map answer_text answers }
{}
