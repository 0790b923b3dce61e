//! The headline of a run, said of its trace: of the calls and of what they were answered. One thing is
//! left to a parameter (`Lacks`), and of a run it is the machine's (`of_machine`).
#![tactic(auto)]

ghost use Rattle.std.specs.Prelude.{◌≡◌, ℕ, ◌<◌, ◌≤◌, List, [], ◌∷◌, ◌++◌, None};
ghost use Rattle.zq_machine.specs.declared.call.Step.{Step};
ghost use Rattle.zq_machine.specs.Headline.{finals_of, finals_over};
ghost use Rattle.zq_trace.specs.Headline.{Headline};
ghost use Rattle.zq_trace.specs.Laws.{AreSilent, BackFrom};
ghost use Rattle.zq_trace.specs.Refusals.{Lacks};
ghost use Rattle.zq_machine.specs.declared.call.Call.{Call};
ghost use Rattle.zq_machine.specs.Configs.{Settings, bad_config};
ghost use Rattle.zq_trace.specs.Machine.{RunHeadline, RunTold};

/// The steps of every run of a configuration with which nothing is wrong keep the headline.
#[tactic(auto, using(crate::proofs::Valid::valid_keep))]
pub fn headline()
    ensures { (config : Settings) → bad_config config.entries ≡ None → (calls : List Call) → RunHeadline config calls }
{}

/// What faces outside regions of routers were told in such a run is, after each call, what is due to them.
#[tactic(auto, using(crate::proofs::Told::valid_told))]
pub fn told_is_due()
    ensures { (config : Settings) → bad_config config.entries ≡ None → (calls : List Call) → RunTold config calls }
{}

/// One final comes of each request at most, whatever calls and steps keep the headline.
#[tactic(auto, using(crate::proofs::Once::one_final))]
pub fn one_final()
    ensures { (lacks : Lacks) (config : Settings) (calls : List Call) (steps : List Step) → Headline lacks config calls steps → (n : ℕ) → finals_over n steps ≤ 1 }
{}

/// Nothing of a request is handed behind the call that hands its final.
#[tactic(auto, using(crate::proofs::Once::nothing_after))]
pub fn nothing_after()
    ensures { (lacks : Lacks) (config : Settings) (calls : List Call) (before rest : List Step) (t : Step) → Headline lacks config calls (before ++ t ∷ rest) → (n : ℕ) → 0 < finals_of n t → AreSilent n rest }
{}

/// Replies and finals go to the askers of their requests alone, each under the asker's id.
#[tactic(auto, using(crate::proofs::Once::to_askers))]
pub fn to_askers()
    ensures { (lacks : Lacks) (config : Settings) (calls : List Call) (steps : List Step) → Headline lacks config calls steps → BackFrom [] calls steps }
{}
