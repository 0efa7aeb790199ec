//! The law of numbers.

ghost use Rattle.std.specs.Prelude.{◌≡◌, ◌∷◌, ◌<◌, ◌^◌, ℕ, List, suc, pos, negsuc};
ghost use Rattle.std.specs.Fmt.{decimal};
ghost use Rattle.asm_lines.specs.declared.token.TokenKind.TheVariants as kind;
ghost use Rattle.xt_dis.specs.Words.{address};
ghost use Rattle.listing_words_law.specs.Ends.{Ends};
ghost use Rattle.listing_words_law.specs.Chunks.{Reads};

/// A number or an address as a listing prints it is read as one token with its value, where a space, a comma or a line's
/// end stands behind it.
pub fn numbers_read_back()
    ensures decimal { (n : ℕ) (rest : List ℕ) → n < 2 ^ 32 → Ends rest → Reads (kind.Number (pos n)) (decimal n) rest }
    ensures negative { (n : ℕ) (rest : List ℕ) → n < 2 ^ 31 → Ends rest → Reads (kind.Number (negsuc n)) (45 ∷ decimal (suc n)) rest }
    ensures address { (n : ℕ) (rest : List ℕ) → n < 2 ^ 32 → Ends rest → Reads (kind.Number (pos n)) (address n) rest }
{}
