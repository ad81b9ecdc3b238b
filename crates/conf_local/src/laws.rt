ghost use Rattle.std.specs.Prelude.{◌≡◌, ℕ, List, Ok, Err};
ghost use Rattle.net_base.specs.declared.conf.ConfFault.{ConfFault};
ghost use Rattle.conf_local.specs.Parts.{AreTokensOf, IsFaultOfToken};
ghost use Rattle.conf_tree.specs.declared.draft.Draft.{Draft};
ghost use Rattle.conf_tree.specs.declared.token.Token.{Token};
ghost use Rattle.conf_tree.specs.StatementReading.{all_room, draft_of};
ghost use Rattle.conf_tree.specs.Tokens.{tokens};

/// The tokens of a good text are those of its statements one after the other, none left out: behind line ends stand the
/// tokens of a statement up to the end of its line, which say this statement whatever stands behind them; behind those the
/// next one, and at last line ends alone. The budget of the definitions is always enough.
#[tactic(auto, using(crate::proofs::Texts::good_text))]
pub fn tokens_are_those_of_statements()
    ensures { (limit : ℕ) (text : List ℕ) (found : List Token) (draft : Draft) → tokens limit text ≡ Ok found → draft_of found ≡ Ok draft
        → AreTokensOf all_room found draft.statements }
{}

/// What stands behind the token of a fault never matters: a fault of the statements of a text stands at one of its tokens,
/// on the line of the fault, and every text with the same tokens up to it has the same fault.
#[tactic(auto, using(crate::proofs::Texts::fault_of_token))]
pub fn faults_go_by_their_tokens()
    ensures { (limit : ℕ) (text : List ℕ) (found : List Token) (fault : ConfFault) → tokens limit text ≡ Ok found → draft_of found ≡ Err fault
        → IsFaultOfToken found fault }
{}
