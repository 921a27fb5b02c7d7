//! What holds of all texts that are read, for crates above to cite. No function here does anything.
ghost use Rattle.std.specs.Prelude.{◌≡◌, ℕ, List, Ok};
ghost use Rattle.larch_grammar.specs.WordTokens.{AreWordTokens};
ghost use Rattle.larch_lexer.specs.Lexing.{lexed_line, lexing_of};
ghost use Rattle.larch_lexer.specs.TokenList.{TokenList};
ghost use Rattle.larch_raw.specs.Worded.{WordedEquation, WordedForm, WordedRef, WordedTrait};
ghost use Rattle.larch_raw.specs.declared.declared.RawOpRef.{RawOpRef};
ghost use Rattle.larch_raw.specs.declared.equation.RawEquation.{RawEquation};
ghost use Rattle.larch_raw.specs.declared.equation.RawTrait.{RawTrait};
ghost use Rattle.larch_syntax.specs.Read.{reference_of, term_of, trait_of};

/// The name, the sorts and the variables of a raw trait that is read from a text are words.
pub fn text_reads_words()
    ensures { (text : List ℕ) (tokens : TokenList) (raw : RawTrait)
        → lexing_of text ≡ Ok tokens → trait_of tokens ≡ Ok raw → WordedTrait raw }
{}

/// The words of a line are words; and so are the sorts in an equation, a lone term or a reference that is read of such
/// tokens, and the reference's name where it is a bare word.
pub fn line_reads_words()
    ensures line { (number : ℕ) (line : List ℕ) (tokens : TokenList) → lexed_line number line ≡ Ok tokens
        → AreWordTokens tokens.tokens }
    ensures equation { (tokens : TokenList) (from : ℕ) (read : RawEquation × ℕ) → AreWordTokens tokens.tokens
        → term_of tokens from ≡ Ok read → WordedEquation read.0 }
    ensures name { (tokens : TokenList) (from : ℕ) (read : RawOpRef × ℕ) → AreWordTokens tokens.tokens
        → reference_of tokens from ≡ Ok read → WordedForm read.0.form }
    ensures sorts { (tokens : TokenList) (from : ℕ) (read : RawOpRef × ℕ) → AreWordTokens tokens.tokens
        → reference_of tokens from ≡ Ok read → WordedRef read.0 }
{}
