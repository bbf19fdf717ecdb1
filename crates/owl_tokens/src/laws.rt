// What holds of each text.
ghost use Rattle.std.specs.Prelude.{◌≡◌, ℕ, List};
ghost use Rattle.owl_tokens.specs.Tokens.{Token, Ending, IsCut};

/// Each text is cut in one way.
pub fn one_cut()
    ensures exists { (text : List ℕ) → (tokens : List Token) × (ending : Ending) × IsCut text tokens ending }
    ensures unique { (text : List ℕ) (tokens others : List Token) (ending other : Ending) → IsCut text tokens ending → IsCut text others other
        → (tokens ≡ others) × (ending ≡ other) }
{}
