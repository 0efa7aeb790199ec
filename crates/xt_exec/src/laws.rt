//! Laws of steps and runs.

ghost use Rattle.std.specs.Prelude.{◌≡◌};
ghost use Rattle.xt_exec.specs.Run.{Stopped};
ghost use Rattle.xt_exec.specs.Step.{BundleStep};

/// A state has one step: one answer and one next state.
pub fn one_step()
    ensures { (kit s heads answer other t u : _)
        → BundleStep kit s heads answer t → BundleStep kit s heads other u → (answer ≡ other) × (t ≡ u) }
{}

/// A run has one stop: one count of retirements and one state.
pub fn one_stop()
    ensures { (kit budget s k j t u : _)
        → Stopped kit budget s k t → Stopped kit budget s j u → (k ≡ j) × (t ≡ u) }
{}
