ghost use Rattle.std.specs.Prelude.{◌≡◌, ◌<◌, ◌≤◌};
ghost use Rattle.xt_core.specs.Kinds as kinds;
ghost use Rattle.xt_core.specs.Range.{IsSize, IsWritable};

/// An access to memory.
#[derive(Clone, Copy)]
pub enum Access {
    /// None.
    Nothing,
    /// So many bytes from an address on, the lowest first, go into a register, filled with their sign or with zeros.
    Load {
        address: u32,
        bytes: u8,
        signed: bool,
        to: u8,
    },
    /// The low bytes of a value, as many as said, go into memory from an address on, the lowest first.
    Store {
        address: u32,
        bytes: u8,
        value: u32,
    },
}

/// What an instruction does, as a function of what it reads.
#[derive(Clone, Copy)]
pub struct Action {
    /// A register and its new value.
    pub write: Option<(u8, u32)>,
    /// The new value of SAR.
    pub sar: Option<u8>,
    /// The pc of a jump, or of a branch that is taken.
    pub target: Option<u32>,
    pub access: Access,
    /// The processor halts.
    pub halts: bool,
}

// Nothing but going on behind the instruction.
pub fn idle() -> Action
    ensures value { result ≡ kinds.idle }
    ensures writable { IsWritable result }
{
    Action {
        write: None,
        sar: None,
        target: None,
        access: Access::Nothing,
        halts: false,
    }
}

// A register gets a value.
pub fn gives(r: u8, value: u32) -> Action
    requires { r < 16 }
    ensures value { result ≡ kinds.gives r value }
    ensures writable { IsWritable result }
{
    Action {
        write: Some((r, value)),
        ..idle()
    }
}

// SAR gets a value.
pub fn shifts_by(amount: u8) -> Action
    requires { amount ≤ 32 }
    ensures value { result ≡ kinds.shifts_by amount }
    ensures writable { IsWritable result }
{
    Action {
        sar: Some(amount),
        ..idle()
    }
}

// A jump.
pub fn goes(pc: u32) -> Action
    ensures value { result ≡ kinds.goes pc }
    ensures writable { IsWritable result }
{
    Action {
        target: Some(pc),
        ..idle()
    }
}

// A jump that leaves the way back in a0.
pub fn calls(back: u32, pc: u32) -> Action
    ensures value { result ≡ kinds.calls back pc }
    ensures writable { IsWritable result }
{
    Action {
        write: Some((0, back)),
        target: Some(pc),
        ..idle()
    }
}

// A load.
pub fn loads(address: u32, bytes: u8, signed: bool, to: u8) -> Action
    requires to { to < 16 }
    requires bytes { IsSize bytes }
    ensures value { result ≡ kinds.loads address bytes signed to }
    ensures writable { IsWritable result }
{
    Action {
        access: Access::Load {
            address,
            bytes,
            signed,
            to,
        },
        ..idle()
    }
}

// A store.
pub fn stores(address: u32, bytes: u8, value: u32) -> Action
    requires { IsSize bytes }
    ensures value { result ≡ kinds.stores address bytes value }
    ensures writable { IsWritable result }
{
    Action {
        access: Access::Store {
            address,
            bytes,
            value,
        },
        ..idle()
    }
}

// An action under a condition.
pub fn only_if(condition: bool, action: Action) -> Action
    requires { IsWritable action }
    ensures value { result ≡ kinds.only_if condition action }
    ensures writable { IsWritable result }
{
    if condition { action } else { idle() }
}
