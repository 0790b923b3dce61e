//! Laws of the view, as the contracts of calls.
ghost use Rattle.std.specs.Prelude.{◌≡◌, List};
ghost use Rattle.zq_machine.specs.declared.call.Call.{Call};
ghost use Rattle.zq_machine.specs.Configs.{Settings};
ghost use Rattle.zq_machine.specs.Machine.{state_after, steps};
ghost use Rattle.zq_machine.specs.State.{opening_state};
ghost use Rattle.zq_admin.specs.Entries.{entries};
ghost use Rattle.zq_admin.specs.Traced.{entries_traced};

/// Who asks for which key, and who declared which, is what the calls of a run and their answers alone say.
pub fn entries_traced()
    ensures { (config : Settings) (calls : List Call) → entries (state_after (opening_state config) calls) ≡ entries_traced config calls (steps config calls) }
{}
