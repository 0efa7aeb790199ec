//! What the files of a shelf say of a network is one: the network that they describe, or one first refusal. Where no read
//! fails, a network is not both described and refused, and is refused in one way.
//!
//! The functions of this file have no code: they are laws, and their clauses state them for all shelves and networks. Such
//! laws say when the answer of `net_load` is the only one.
#![tactic(auto)]

ghost use Rattle.std.specs.Prelude.{◌≡◌, ◌⊎◌, ℕ, List};
ghost use Rattle.net_load.specs.Loaded.{IsNetOf};
ghost use Rattle.net_load.specs.Steps.{IsRefusedNet};
ghost use Rattle.net_load.specs.Told.{IsToldNet, IsSteadyNet};
ghost use Rattle.net_load.specs.net_parts.declared.parts.Net.{Net};
ghost use Rattle.net_load.specs.tie_files.declared.refusal.Refusal.{Refusal};
ghost use Rattle.net_load.specs.tie_files.declared.refusal.Refusal.TheVariants.{ReadFault};
ghost use Rattle.net_load.specs.tie_files.Files.{Shelved};
ghost use Rattle.load_law.specs.Faults.{IsReadFault};

pub use net_load;
pub use net_load::{net_desc, net_toml, tie_files};

/// A network that the files of a shelf describe isn't refused, where the shelf tells them, but for a fault of reading.
pub fn loaded_refused()
    ensures { (s : Shelved) (name : List ℕ) (net : Net) (e : Refusal) → IsToldNet s name → IsNetOf s name net → IsRefusedNet s name e → IsReadFault e }
{}

/// Two refusals of a network whose files a shelf tells are one, but for a fault of reading.
pub fn one_refused()
    ensures { (s : Shelved) (name : List ℕ) (e f : Refusal) → IsToldNet s name → IsRefusedNet s name e → IsRefusedNet s name f → (e ≡ f) ⊎ IsReadFault e ⊎ IsReadFault f }
{}

/// Where no read of the files fails that a network needs, it isn't refused by a fault of reading.
pub fn steady_net()
    ensures { (s : Shelved) (name file : List ℕ) → IsToldNet s name → IsSteadyNet s name → IsRefusedNet s name (ReadFault file) → ⊥ }
{}
