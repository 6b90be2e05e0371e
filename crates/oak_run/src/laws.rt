//! Laws of runs.
ghost use Rattle.std.specs.Prelude.{ℕ, List, [], ◌∷◌};
ghost use Rattle.oak_model.specs.declared.replies.Pair.{Pair};
ghost use Rattle.oak_model.specs.declared.replies.Reply.{Reply};
ghost use Rattle.oak_model.specs.Limits.{Sizes};
ghost use Rattle.oak_core.specs.declared.closing.Closed.{Closed};
ghost use Rattle.oak_script.specs.declared.scripts.Call.{Call};
ghost use Rattle.oak_script.specs.Workload.{IsWorkload, drawn_threads};
ghost use Rattle.oak_run.specs.ClosedRuns.{closed_usage, closing_of};
ghost use Rattle.oak_run.specs.OneText.{NeverFull, OneText};
ghost use Rattle.oak_run.specs.RunFits.{RunFits};
ghost use Rattle.oak_run.specs.WorkloadFits.{WorkloadFits};

/// A law: two runs of one thread's calls over maps of one shape, of which none is refused, print one text
/// but for its last two lines.
pub fn one_text()
    ensures { (c d : Closed) (shape : Sizes) (calls : List Call) (ys zs : List Reply) (m n : List Pair)
        → RunFits (closing_of c) shape (calls ∷ []) (ys ∷ []) m → RunFits (closing_of d) shape (calls ∷ [])
        (zs ∷ []) n
        → NeverFull ys → NeverFull zs → OneText (closing_of c) (closing_of d) shape calls ys zs m n }
{}

/// A law: behind the run of a workload each value is a number of eight bytes, the sum of the values is the number of the calls that
/// were not refused, and each key takes two blocks of 16 bytes. Where no call was refused, the keys are all that the
/// calls name.
pub fn workload_runs()
    ensures { (c : Closed) (shape : Sizes) (calls threads start : ℕ) (said : List (List Reply)) (finals : List Pair)
        → IsWorkload calls threads start → RunFits (closing_of c) shape (drawn_threads calls start threads) said
        finals
        → WorkloadFits calls threads (drawn_threads calls start threads) said finals (closed_usage c) }
{}
