//! What holds of the grammar, for crates above to cite. No function here does anything.
ghost use Rattle.std.specs.Prelude.{◌≡◌, ◌↔◌, ◌++◌, ℕ, Bool, All, List, Result, Err, drop};
ghost use Rattle.larch_base.specs.declared.position.Pos.{Pos};
ghost use Rattle.larch_lexer.specs.Order.{Precedes, Rising};
ghost use Rattle.larch_lexer.specs.TokenList.{TokenList};
ghost use Rattle.larch_lexer.specs.declared.token.Token.{Token};
ghost use Rattle.larch_grammar_law.specs.Claims.{MeansFront, Spells, position_or};
ghost use Rattle.larch_grammar_law.specs.declared.mark.Flaw.{Flaw};
ghost use Rattle.larch_raw.specs.declared.declared.RawOpRef.{RawOpRef};
ghost use Rattle.larch_raw.specs.declared.equation.RawEquation.{RawEquation};
ghost use Rattle.larch_raw.specs.declared.equation.RawTrait.{RawTrait};
ghost use Rattle.larch_raw.specs.Worded.{Worded, WordedEquation, WordedForm, WordedRef, WordedTrait};
ghost use Rattle.larch_raw.specs.declared.declared.RawWord.{RawWord};
ghost use Rattle.larch_grammar.specs.Terminal.{terminal_of};
ghost use Rattle.larch_grammar.specs.WordTokens.{AreWordTokens, IsWordToken};
ghost use Rattle.larch_grammar.specs.declared.terminal.Terminal.TheVariants.{Word};
ghost use Rattle.larch_grammar.specs.Answers.{AnyTrait, Equations, MeansTrait, References, StandsInAny, Traits, reference_answer, term_answer, trait_answer};
ghost use Rattle.larch_grammar.specs.Refused.{position_of_token};

/// A token list has at most one raw trait, whether references follow `implies` or an item does.
pub fn one_raw_trait()
    ensures { (tokens : List Token) (first second : RawTrait) → Spells AnyTrait tokens first
        → Spells AnyTrait tokens second → first ≡ second }
{}

/// The raw trait or the flaw that the machine answers is exactly what the grammar says.
pub fn reading_is_grammar()
    ensures { (tokens : TokenList) (answer : Result RawTrait (Flaw × Pos))
        → (trait_answer tokens ≡ answer) ↔ MeansTrait tokens answer }
{}

/// The same of the longest front of the tokens from a position on that begins some equation.
pub fn front_is_grammar()
    ensures { (tokens : TokenList) (from : ℕ) (answer : Result (RawEquation × ℕ) (Flaw × Pos))
        → (term_answer tokens from ≡ answer)
        ↔ MeansFront Equations position_of_token tokens.end (drop from tokens.tokens) answer }
{}

/// The same of the longest front that begins some reference to operators.
pub fn front_of_references_is_grammar()
    ensures { (tokens : TokenList) (from : ℕ) (answer : Result (RawOpRef × ℕ) (Flaw × Pos))
        → (reference_answer tokens from ≡ answer)
        ↔ MeansFront References position_of_token tokens.end (drop from tokens.tokens) answer }
{}

/// A flaw of tokens in order stands where the whole grammar has it, whether references follow `implies` or an item
/// does: SYNTAX at the first token with which the tokens before it begin no trait.
pub fn flaw_stands_in_any_trait()
    ensures { (tokens : TokenList) (flaw : Flaw × Pos) → Rising tokens.tokens
        → All (λ token. Precedes token.pos tokens.end) tokens.tokens → trait_answer tokens ≡ Err flaw
        → (before rest : List Token) × (tokens.tokens ≡ before ++ rest) × StandsInAny flaw.0 before rest
        × (flaw.1 ≡ position_or position_of_token tokens.end rest) }
{}

/// The name, the sorts and the variables of a raw trait are words where the tokens of kind word are.
pub fn words_of_raw_trait()
    ensures { (lists : Bool) (tokens : List Token) (raw : RawTrait) → AreWordTokens tokens
        → Spells (Traits lists) tokens raw → WordedTrait raw }
{}

/// The same of what stands in other lists of tokens: a word; the sorts that are said in an equation or a lone term; and
/// of a reference to operators the sorts, and the name where it is a bare word.
pub fn words_of_raw_parts()
    ensures word { (lists : Bool) (token : Token) (word : RawWord) → IsWordToken token
        → terminal_of lists token ≡ Word word → Worded word }
    ensures equation { (tokens : List Token) (raw : RawEquation) → AreWordTokens tokens
        → Spells Equations tokens raw → WordedEquation raw }
    ensures name { (tokens : List Token) (raw : RawOpRef) → AreWordTokens tokens
        → Spells References tokens raw → WordedForm raw.form }
    ensures sorts { (tokens : List Token) (raw : RawOpRef) → AreWordTokens tokens
        → Spells References tokens raw → WordedRef raw }
{}
