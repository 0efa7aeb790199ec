ghost use Rattle.std.specs.Prelude.{◌≡◌, ◌<◌, ◌≤◌, ◌↔◌, IsTrue, length};
ghost use Rattle.xt_isa.specs.Constants.{IsConstant, IsUnsignedConstant, constant_at, constant_code, place_of, unsigned_at, unsigned_code};

// The constants of BEQI, BNEI, BLTI and BGEI, by their code.
static CONSTANTS: [i32; 16] = [-1, 1, 2, 3, 4, 5, 6, 7, 8, 10, 12, 16, 32, 64, 128, 256];

// The constants of BLTUI and BGEUI, by their code.
static UNSIGNED_CONSTANTS: [i32; 16] = [
    32768, 65536, 2, 3, 4, 5, 6, 7, 8, 10, 12, 16, 32, 64, 128, 256,
];

// The first place of a value in a list, the list's length where it isn't there.
fn place_of(value: i32, list: &[i32]) -> usize
    ensures { result ≡ place_of value list.now }
{
    for (place, constant) in list.iter().enumerate() {
        if value == *constant {
            return place;
        }
    }
    list.len()
}

// The code of a constant, 16 where there is none.
#[tactic(auto, unfolding(crate::specs::Constants::constant_code))]
pub fn constant_code(value: i32) -> usize
    ensures { result ≡ constant_code value }
{
    place_of(value, &CONSTANTS)
}

// The constant of a code.
#[tactic(auto, unfolding(crate::specs::Constants::constant_at))]
pub fn constant_at(code: u8) -> i32
    requires { code < 16 }
    ensures { result ≡ constant_at code }
{
    CONSTANTS[usize::from(code)]
}

// The code of a constant without sign, 16 where there is none.
#[tactic(auto, unfolding(crate::specs::Constants::unsigned_code))]
pub fn unsigned_code(value: i32) -> usize
    ensures { result ≡ unsigned_code value }
{
    place_of(value, &UNSIGNED_CONSTANTS)
}

// The constant without sign of a code.
#[tactic(auto, unfolding(crate::specs::Constants::unsigned_at))]
pub fn unsigned_at(code: u8) -> i32
    requires { code < 16 }
    ensures { result ≡ unsigned_at code }
{
    UNSIGNED_CONSTANTS[usize::from(code)]
}

// Whether BEQI, BNEI, BLTI and BGEI have this constant.
pub fn is_constant(value: i32) -> bool
    ensures { IsTrue result ↔ IsConstant value }
{
    constant_code(value) < 16
}

// Whether BLTUI and BGEUI have this constant.
pub fn is_unsigned_constant(value: i32) -> bool
    ensures { IsTrue result ↔ IsUnsignedConstant value }
{
    unsigned_code(value) < 16
}
