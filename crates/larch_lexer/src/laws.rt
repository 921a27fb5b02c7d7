ghost use Rattle.std.specs.Prelude.{◌≡◌, List, ℕ, All, Ok};
ghost use Rattle.larch_base.specs.Position.{start_of_text, position_behind};
ghost use Rattle.larch_base.specs.declared.position.Pos.{Pos as Position};
ghost use Rattle.larch_lexer.specs.Lexing.{lexing_of, lexed_line, start_of_line};
ghost use Rattle.larch_lexer.specs.Order.{IsSliceOf, Rising};
ghost use Rattle.larch_lexer.specs.TokenList.{TokenList};
ghost use Rattle.larch_lexer.specs.TokenTable.{LexAnswer, Lexes};

/// The table gives each text one answer, the computed one; and each line by itself.
pub fn one_lexing()
    ensures computed { (text : List ℕ) → Lexes start_of_text text (lexing_of text) }
    ensures one { (text : List ℕ) (answer : LexAnswer) → Lexes start_of_text text answer → lexing_of text ≡ answer }
    ensures line { (number : ℕ) (line : List ℕ) → Lexes (start_of_line number) line (lexed_line number line) }
    ensures one_of_line { (number : ℕ) (line : List ℕ) (answer : LexAnswer) → Lexes (start_of_line number) line answer
        → lexed_line number line ≡ answer }
{}

/// Tokens are slices of their text, wherever it begins, and stand in order.
pub fn tokens_in_order()
    ensures slices { (start : Position) (text : List ℕ) (all : TokenList) → Lexes start text (Ok all)
        → All (IsSliceOf start text) all.tokens }
    ensures rising { (start : Position) (text : List ℕ) (all : TokenList) → Lexes start text (Ok all)
        → Rising all.tokens }
    ensures end { (start : Position) (text : List ℕ) (all : TokenList) → Lexes start text (Ok all)
        → all.end ≡ position_behind start text }
{}
