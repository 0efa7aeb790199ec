ghost use Rattle.std.specs.Prelude.{◌≡◌, ◌<◌, All, length};
ghost use Rattle.xt_isa.specs.Table.{Fits, Spells, word};

/// No two fitting instructions have one word.
pub fn one_word()
    ensures { (inst other : _) → Fits inst → Fits other → word inst ≡ word other → inst ≡ other }
{}

/// An instruction is spelled by one list of three bytes.
pub fn one_spelling()
    ensures { (inst : _) (bytes others : _)
        → length bytes ≡ 3 → length others ≡ 3 → All (λ b. b < 256) bytes → All (λ b. b < 256) others
        → Spells inst bytes → Spells inst others → bytes ≡ others }
{}
