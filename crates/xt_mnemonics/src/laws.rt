//! Laws of the table.

ghost use Rattle.std.specs.Prelude.{◌≡◌, ℤ, List, Some};
ghost use Rattle.xt_isa.specs.Table.{Fits};
ghost use Rattle.xt_isa.specs.declared.instruction.Inst.{Inst};
ghost use Rattle.xt_mnemonics.specs.declared.mnemonic.Mnemonic.{Mnemonic};
ghost use Rattle.xt_mnemonics.specs.Names as names;
ghost use Rattle.xt_mnemonics.specs.Shapes as shapes;
ghost use Rattle.xt_mnemonics.specs.Build as build;

/// Operands that fit their shapes make an instruction that has a word.
pub fn words_fit()
    ensures { (m : Mnemonic) (values : List ℤ) → shapes.AllFit (shapes.shapes m) values → Fits (build.build m values) }
{}

/// An instruction that has a word is that of its mnemonic and its operands, and these fit their shapes.
pub fn rebuilt()
    ensures same { (i : Inst) → Fits i → build.build (build.mnemonic_of i) (build.values_of i) ≡ i }
    ensures fit { (i : Inst) → Fits i → shapes.AllFit (shapes.shapes (build.mnemonic_of i)) (build.values_of i) }
{}

/// The word of a mnemonic is that mnemonic.
pub fn named_again()
    ensures { (m : Mnemonic) → names.mnemonic_named (names.name_of m) ≡ Some m }
{}
