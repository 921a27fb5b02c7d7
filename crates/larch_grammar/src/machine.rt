ghost use Rattle.std.specs.Prelude.{◌≡◌};
ghost use Rattle.larch_grammar.specs.Opening.{is_opening};

use crate::draft::Draft;
use crate::stack::Stack;
use crate::terminal::Bracket;
use larch_base::Pos;
use larch_raw::{
    ClauseKind, RawActuals, RawEquation, RawEquations, RawFields, RawForm, RawForms, RawOpRef,
    RawOpRefs, RawSig, RawTerm, RawTerms, RawVars, RawWord, RawWords,
};

/// What tokens are read as.
#[derive(Drop)]
pub enum Whole {
    /// A trait.
    Trait(Draft),
    /// An equation by itself.
    Equation(RawEquation),
    /// A reference to operators by itself.
    Reference(RawOpRef),
}

/// The shorthands that have fields.
#[derive(Clone, Copy, Debug, PartialEq, Eq)]
pub enum FieldsKind {
    /// `tuple`.
    Tuple,
    /// `union`.
    Union,
}

/// A tuple or a union that is open: the trait before it, its kind, its sort, and its fields so far.
#[derive(Drop)]
pub struct OpenFields {
    pub raw: Draft,
    pub kind: FieldsKind,
    pub sort: RawWord,
    pub fields: RawFields,
}

/// What a trait is referred to for.
#[derive(Clone, Copy, Debug, PartialEq, Eq)]
pub enum RefKind {
    /// It is included.
    Included,
    /// It is assumed.
    Assumed,
    /// It is implied, the first one of the implied part.
    First,
    /// It is implied, a further one.
    Further,
}

/// A reference that is open: the trait before it, what it is for, the name of the trait that it refers to, and its
/// actuals so far.
#[derive(Drop)]
pub struct OpenRef {
    pub raw: Draft,
    pub kind: RefKind,
    pub name: RawWord,
    pub actuals: RawActuals,
}

/// A clause of which so much is read: the trait before it, its kind and its sort.
#[derive(Drop)]
pub struct Clause {
    pub raw: Draft,
    pub kind: ClauseKind,
    pub sort: RawWord,
}

/// What waits for a form.
#[derive(Drop)]
pub enum Naming {
    /// A declaration with these forms, in a trait.
    Declared(Draft, RawForms),
    /// A clause with these references.
    Referred(Clause, RawOpRefs),
    /// The name of a trait, with these formals.
    Formal(RawWord, RawForms),
    /// A reference without replacements: an actual, or the new name of a replacement.
    Actual(OpenRef),
    /// A reference with replacements: the new name of a further one.
    Renaming(OpenRef),
    /// A replacement, of which this is the new name.
    Renamed(OpenRef, RawForm),
    /// A reference to operators by itself.
    Lone,
    /// A conversion in a trait, behind these references.
    Converted(Draft, RawOpRefs),
}

/// A bracket that is open in a form: what waits for the form, whether a `__` stands in front, which bracket it is, and
/// where the form begins.
#[derive(Drop)]
pub struct FormBracket {
    pub naming: Naming,
    pub behind: bool,
    pub bracket: Bracket,
    pub pos: Pos,
}

/// What waits for a signature.
#[derive(Drop)]
pub enum Signing {
    /// A declaration with these forms, in a trait.
    Declaration(Draft, RawForms),
    /// The last reference of a clause, whose form it is, behind these.
    Reference(Clause, RawOpRefs, RawForm),
    /// A replacement, with its new name and its old one.
    Replacement(OpenRef, RawForm, RawForm),
    /// A reference to operators by itself, whose form it is.
    LoneForm(RawForm),
    /// The last reference of a conversion in a trait, whose form it is, behind these.
    Conversion(Draft, RawOpRefs, RawForm),
}

/// What variables are read for.
#[derive(Drop)]
pub enum VariablesFor {
    /// An item of a trait.
    Quantified(Draft),
    /// What is exempted from the conversion of these references in a trait.
    Exempted(Draft, RawOpRefs),
}

/// A conversion that is open: the trait before it, its references, its variables, and what is exempted so far.
#[derive(Drop)]
pub struct OpenConversion {
    pub raw: Draft,
    pub converted: RawOpRefs,
    pub variables: RawVars,
    pub exempted: RawEquations,
}

/// An item of equations that is open: the trait before it, its variables, and its equations so far.
#[derive(Drop)]
pub struct OpenItem {
    pub raw: Draft,
    pub variables: RawVars,
    pub equations: RawEquations,
}

/// What waits for an equation.
#[derive(Drop)]
pub enum Waiting {
    /// Nothing: it stands by itself.
    Alone,
    /// An item of a trait.
    Item(OpenItem),
}

/// What stands before an item in its part.
#[derive(Clone, Copy, Debug, PartialEq, Eq)]
pub enum Before {
    /// Nothing, or a clause.
    Anything,
    /// An item of equations.
    Equations,
    /// An item of equations with its `;`.
    Semicolon,
}

/// A symbol of a chain with what stands to its left.
#[derive(Drop)]
pub struct Link {
    pub symbol: RawWord,
    pub left: RawTerm,
}

/// What a list of terms belongs to.
#[derive(Drop)]
pub enum Listing {
    /// The arguments of a word.
    Call(RawWord),
    /// The arguments of the word that begins the implied part of a trait.
    First(Draft, RawWord),
    /// A bracket with the operand in front of it, and where it opens.
    Bracketed(Bracket, Option<RawTerm>, Pos),
}

/// What waits for a term.
#[derive(Drop)]
pub enum Frame {
    /// Fields, brackets and a sort may follow what begins a Post.
    InFields,
    /// Symbols that are let in behind a term with prefix symbols.
    InStrays,
    /// A prefix symbol.
    Prefixed(RawWord),
    /// Postfix symbols may follow.
    InPostfixes,
    /// A chain of infix symbols.
    InInfixes(Option<Link>),
    /// A chain of `=` and `~=`.
    InEqualities(Option<Link>),
    /// A chain of connectives.
    InConnectives(Option<Link>),
    /// `(`.
    InParentheses,
    /// A list of terms, these before.
    InList(Listing, RawTerms),
    /// `if`, and where it stands.
    InIf(Pos),
    /// The same with its condition, behind `then`.
    InThen(Pos, RawTerm),
    /// The same with its second part too, behind `else`.
    InElse(Pos, RawTerm, RawTerm),
    /// The left side of an equation that begins there.
    InLeft(Pos, Waiting),
    /// The right side: where the equation begins, its left side, and where `==` stands.
    InRight(Pos, RawTerm, Pos, Waiting),
    /// A term that begins there and is exempted from this conversion.
    InExempted(Pos, OpenConversion),
}

/// What is read so far, and what is needed next.
#[derive(Drop)]
pub enum State {
    /// Nothing is read: a name.
    Start,
    /// A name: `(` or `:`.
    AfterName(RawWord),
    /// A name with its formals: `:`.
    AfterFormals(RawWord, RawForms),
    /// The same and `:`: `trait`.
    NeedTrait(RawWord, RawForms),
    /// The head of a trait, or a shorthand or references of it: another one, a part, or the end.
    AfterHead(Draft),
    /// A word that begins a shorthand: which one.
    ShortWord(Draft, RawWord),
    /// `enumeration` behind its sort: `of`.
    NeedConstants(Draft, RawWord),
    /// An enumeration with these constants: a word.
    NeedConstant(Draft, RawWord, RawWords),
    /// The same behind the last of them: `,`, or what follows a shorthand.
    AfterConstant(Draft, RawWord, RawWords),
    /// `tuple` or `union` behind its sort: `of`.
    NeedFields(Draft, FieldsKind, RawWord),
    /// A tuple or a union: the name of a field.
    NeedName(OpenFields),
    /// The same with names of which the sort is to come: `,` or `:`.
    AfterNames(OpenFields, RawWords),
    /// A `,` behind the names: a word.
    NeedFurtherName(OpenFields, RawWords),
    /// The `:` behind the names: a word.
    NeedNamesSort(OpenFields, RawWords),
    /// Fields with their sorts: `,`, or what follows a shorthand.
    AfterField(OpenFields),
    /// `includes` or `assumes`, `implies`, or a `,` behind a reference: the name of a trait, and what it is for.
    NeedRef(Draft, RefKind),
    /// The name of a trait that is referred to: `(`, `,`, or what follows references.
    AfterRefName(Draft, RefKind, RawWord),
    /// A reference: `,`, or what follows references.
    AfterTraitRef(Draft, RefKind),
    /// A replacement, the last of these actuals: `,` or `)`.
    AfterRename(OpenRef),
    /// `introduces`, or a declaration of its part: a declaration, a part, or the end.
    InPart(Draft),
    /// A form.
    NeedForm(Naming),
    /// A symbol that begins a form: perhaps `__`.
    AfterSymbolForm(Naming, RawWord),
    /// A `.` of a form that begins there: a word.
    AfterDotForm(Naming, Pos),
    /// A `__` that begins a form: the rest of it.
    AfterLeadingMarker(Naming, Pos),
    /// A `__` and a symbol: perhaps `__`.
    AfterMarkerSymbol(Naming, Pos, RawWord),
    /// The bracket of a form: `__` or its end.
    AfterFormBracket(FormBracket),
    /// So many `__` in it: `,` or its end.
    AfterBracketMarker(FormBracket, u32),
    /// A `,` behind them: `__`.
    NeedBracketMarker(FormBracket, u32),
    /// A form is read.
    AfterForm(Naming, RawForm),
    /// A signature.
    NeedSig(Signing),
    /// A sort of the domain, the last of these: `,` or `->`.
    AfterSort(Signing, RawWords),
    /// A `,` behind these sorts: a word.
    NeedSort(Signing, RawWords),
    /// The `->` behind these sorts: a word.
    NeedRange(Signing, RawWords),
    /// A reference with its signature, the last of these.
    AfterOperatorRef(Clause, RawOpRefs),
    /// A reference by itself with its signature: nothing follows.
    AfterLone(RawOpRef),
    /// `asserts`, or a clause of its part: an item, a part, or the end.
    InItems(Draft),
    /// A word that begins an item of either kind.
    FirstWord(Draft, RawWord),
    /// A `;` behind the equations of an item: an equation, an item, a part, or the end.
    AfterSemicolon(OpenItem),
    /// The same and a word, which begins an equation or a clause.
    WordBehind(OpenItem, RawWord),
    /// A word directly behind an item of equations: it begins a clause.
    ClauseWord(Draft, RawWord),
    /// `generated` or `partitioned`: `by`.
    NeedBy(Clause),
    /// `\forall`, or a `,` behind these variables: a word.
    NeedVariable(VariablesFor, RawVars),
    /// These variables, and names of which the sort is to come: `,` or `:`.
    AfterVariable(VariablesFor, RawVars, RawWords),
    /// A `,` behind the names: a word.
    NeedFurtherVariable(VariablesFor, RawVars, RawWords),
    /// The `:` behind the names: a word.
    NeedVariableSort(VariablesFor, RawVars, RawWords),
    /// These variables with their sorts: `,`, or an equation or a term.
    AfterGroup(VariablesFor, RawVars),
    /// `implies`: an item, a conversion, or the end.
    AfterImplies(Draft),
    /// The same and a word: an item of either kind.
    ImpliedWord(Draft, RawWord),
    /// The same and its arguments: more of an equation.
    BehindFirst(Draft, RawWord, RawTerms),
    /// A reference of a conversion with its signature, the last of these.
    AfterConverted(Draft, RawOpRefs),
    /// `exempting`: `\forall` or a term.
    NeedExempted(Draft, RawOpRefs),
    /// A `,` behind a term that is exempted: another one.
    NeedFurtherExempted(OpenConversion),
    /// An equation.
    NeedEquation(Waiting),
    /// A term.
    NeedTerm(Stack),
    /// A term without connectives and equalities.
    NeedOperand(Stack),
    /// What a prefix symbol stands before.
    NeedPrefixed(Stack),
    /// What an infix symbol stands before.
    NeedPost(Stack),
    /// A `.` behind a term: a word.
    NeedField(RawTerm, Pos, Stack),
    /// A `:` behind a term: a word.
    NeedSortOf(RawTerm, Pos, Stack),
    /// A word of a term: perhaps its arguments.
    AfterWord(RawWord, Stack),
    /// A bracket with the operand in front of it, and where it opens: a term, or its end.
    NeedFirst(Bracket, Option<RawTerm>, Pos, Stack),
    /// A term and a symbol behind it, which is infix or postfix by the next token.
    AfterSymbol(RawWord, RawTerm, Stack),
    /// A term.
    Have(RawTerm, Stack),
}

impl Frame {
    /// Whether it waits inside a construct that nests.
    pub fn opens(&self) -> bool
        ensures { result ≡ is_opening self.now }
    {
        matches!(
            self,
            Frame::InParentheses
                | Frame::InList(_, _)
                | Frame::InIf(_)
                | Frame::InThen(_, _)
                | Frame::InElse(_, _, _)
        )
    }
}
