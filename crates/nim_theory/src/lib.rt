// What Nim is, by its heaps, and what follows from that. The code that plays it stands above this crate.
#![tactic(auto)]

ghost use Rattle.std.specs.Prelude.{◌≡◌, ℕ, true, false, List, [], ◌∷◌, length, replicate};
ghost use Rattle.side.specs.declared.Side.TheVariants.{First, Second};
ghost use Rattle.rules.specs.declared.Status.TheVariants.{Won};
ghost use Rattle.nim_theory.specs.Nim.{nim_plan};

// Heaps of one counter: the last falls to the side that their number says.
pub fn sample_chances()
    ensures one_first { (nim_plan (1 ∷ [])).chance [] First ≡ true }
    ensures one_second { (nim_plan (1 ∷ [])).chance [] Second ≡ false }
    ensures two_first { (nim_plan (1 ∷ 1 ∷ [])).chance [] First ≡ false }
    ensures two_second { (nim_plan (1 ∷ 1 ∷ [])).chance [] Second ≡ true }
    ensures after_legal { (nim_plan (1 ∷ 1 ∷ [])).legal (1 ∷ []) ≡ true }
    ensures after_first { (nim_plan (1 ∷ 1 ∷ [])).chance (1 ∷ []) First ≡ false }
    ensures after_second { (nim_plan (1 ∷ 1 ∷ [])).chance (1 ∷ []) Second ≡ true }
    ensures end_legal { (nim_plan (1 ∷ 1 ∷ [])).legal (1 ∷ 33 ∷ []) ≡ true }
    ensures end_won { (nim_plan (1 ∷ 1 ∷ [])).status (1 ∷ 33 ∷ []) ≡ Won Second }
{}

// Both constants are as low as they can be: eight heaps of 31 allow the code 255 and a game of 248 codes.
pub fn sample_bounds()
    ensures highest_code { (nim_plan (replicate 8 31)).legal (255 ∷ []) ≡ true }
    ensures longest_game { (w : List ℕ) × ((nim_plan (replicate 8 31)).legal w ≡ true) × (length w ≡ 248) }
{}
