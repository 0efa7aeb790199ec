//! What the network is to the law of networks.

ghost use Rattle.kahn_law.specs.Network as law;
ghost use Rattle.net_parts.specs.declared.parts.Net.{Net};
ghost use Rattle.net_parts.specs.Network.{IsNet};
ghost use Rattle.net_ref.specs.Workers.{network};

/// A network is an instance of the law of networks: both ends of each queue are workers, and no worker pops or pushes a
/// queue twice in a move. So all that the law states holds of it.
pub fn network_is_wired()
    ensures { (net : Net) → IsNet net → law.IsWired (network net) }
{}
