ghost use Rattle.std.specs.Prelude.{◌≡◌, IfOk};
ghost use Rattle.larch_grammar.specs.Machine.{final};
ghost use Rattle.larch_syntax_heads.specs.Outcome.{Settles, step_state};

use crate::begin::{
    begin_bracket, begin_equation, begin_operand, begin_post, begin_prefixed, begin_term,
};
use crate::conversions::{after_converted, begin_exempted, need_exempted};
use crate::forms::{
    after_bracket_marker, after_dot_form, after_form, after_form_bracket, after_leading_marker,
    after_marker_symbol, after_operator_ref, after_sort, after_symbol_form, begin_form,
    need_bracket_marker, need_range, need_sig, need_sort,
};
use crate::hand::{after_symbol, after_word, hand, need_field, need_sort_of};
use crate::implied::{after_implies, after_ref_name, after_trait_ref, behind_first, implied_word};
use crate::items::{
    after_group, after_semicolon, after_variable, begin_item, clause_word, first_word, in_part,
    need_by, need_further_variable, need_variable, need_variable_sort, word_behind,
};
use larch_base::Memory;
use larch_grammar::{Stack, State, Terminal, Whole, call_tree, no_terms};
use larch_raw::RawWord;
use larch_syntax_heads::{
    Outcome, after_constant, after_field, after_formals, after_head, after_name, after_names,
    after_rename, at_head, at_start, need_constant, need_constants, need_fields, need_further_name,
    need_name, need_names_sort, need_ref, need_trait, short_word,
};
use std::alloc::Global;

// What a token does in a state: it is taken, or the whole ends before it, if there is one.
pub(crate) fn step(alloc: Global, state: State, terminal: Terminal) -> Result<Outcome, Memory>
    ensures { IfOk result (λ answer. answer ≡ step_state state terminal) }
{
    match state {
        State::NeedTerm(stack) => need_term(alloc, stack, terminal),
        State::AfterWord(word, stack) => behind_word(alloc, word, stack, terminal),
        State::Have(term, stack) => hand(alloc, term, stack, terminal),
        other => step_elsewhere(alloc, other, terminal),
    }
}

// The same where a term is needed.
#[tactic(auto, using(crate::proofs::Passing::not_handed))]
fn need_term(alloc: Global, stack: Stack, terminal: Terminal) -> Result<Outcome, Memory>
    ensures { IfOk result (λ answer. answer ≡ step_state (State.NeedTerm stack) terminal) }
{
    match terminal {
        Terminal::Word(word) => Ok(at_head(State::AfterWord(word, stack.with_chains()?))),
        other => match begin_term(other, stack) {
            Ok(Outcome::Handed(term, stack, terminal)) => hand(alloc, term, stack, terminal),
            found => found,
        },
    }
}

// The same behind a word.
#[tactic(auto, using(crate::proofs::Passing::not_handed))]
fn behind_word(
    alloc: Global,
    word: RawWord,
    stack: Stack,
    terminal: Terminal,
) -> Result<Outcome, Memory>
    ensures { IfOk result (λ answer. answer ≡ step_state (State.AfterWord word stack) terminal) }
{
    match terminal {
        Terminal::Comma | Terminal::Close | Terminal::Equates(_) => {
            hand(alloc, call_tree(word, no_terms(alloc)), stack, terminal)
        }
        other => match after_word(alloc, word, stack, other) {
            Ok(Outcome::Handed(term, stack, terminal)) => hand(alloc, term, stack, terminal),
            found => found,
        },
    }
}

// The same in all other states.
#[inline(never)]
#[tactic(auto, using(crate::proofs::Passing::not_handed))]
fn step_elsewhere(alloc: Global, state: State, terminal: Terminal) -> Result<Outcome, Memory>
    ensures { IfOk result (λ answer. answer ≡ step_state state terminal) }
{
    match step_in_variables(alloc, state, terminal) {
        Ok(Outcome::Handed(term, stack, terminal)) => hand(alloc, term, stack, terminal),
        found => found,
    }
}

// The whole that ends in a state, if there is one: the end of a text is like a token that stands nowhere.
#[tactic(auto, using(crate::proofs::AtEnd::ended_so, crate::proofs::AtEnd::ends_so))]
pub(crate) fn last(alloc: Global, state: State) -> Result<Option<Whole>, Memory>
    ensures { IfOk result (λ whole. whole ≡ final state) }
{
    match step(alloc, state, Terminal::Other)? {
        Outcome::Stops(whole) => Ok(whole),
        _ => unreachable!(),
    }
}

// What a token does, until a term is handed on, first in the states of variables. What a function may hold takes time
// at its start, so the states of most tokens have functions of their own.
#[inline(never)]
fn step_in_variables(alloc: Global, state: State, terminal: Terminal) -> Result<Outcome, Memory>
    ensures { Settles result (step_state state terminal) }
{
    match state {
        State::NeedVariable(scope, variables) => need_variable(alloc, scope, variables, terminal),
        State::AfterVariable(scope, variables, names) => Ok(after_variable(
            scope, variables, names, terminal,
        )),
        State::NeedFurtherVariable(scope, variables, names) => need_further_variable(
            scope, variables, names, terminal,
        ),
        State::NeedVariableSort(scope, variables, names) => need_variable_sort(
            scope, variables, names, terminal,
        ),
        State::AfterGroup(scope, variables) => after_group(alloc, scope, variables, terminal),
        other => step_in_declarations(alloc, other, terminal),
    }
}

// The same, first of the states of declarations.
#[inline(never)]
fn step_in_declarations(alloc: Global, state: State, terminal: Terminal) -> Result<Outcome, Memory>
    ensures { Settles result (step_state state terminal) }
{
    match state {
        State::InPart(raw) => Ok(in_part(alloc, raw, terminal)),
        State::AfterForm(naming, form) => after_form(alloc, naming, form, terminal),
        State::NeedSig(signing) => need_sig(alloc, signing, terminal),
        State::AfterSort(signing, sorts) => Ok(after_sort(signing, sorts, terminal)),
        State::NeedSort(signing, sorts) => need_sort(signing, sorts, terminal),
        State::NeedRange(signing, sorts) => need_range(signing, sorts, terminal),
        other => step_anywhere(alloc, other, terminal),
    }
}

// The same, of all states.
#[inline(never)]
fn step_anywhere(alloc: Global, state: State, terminal: Terminal) -> Result<Outcome, Memory>
    ensures { Settles result (step_state state terminal) }
{
    match state {
        State::Start => Ok(at_start(terminal)),
        State::AfterName(name) => Ok(after_name(alloc, name, terminal)),
        State::AfterFormals(name, formals) => Ok(after_formals(name, formals, terminal)),
        State::NeedTrait(name, formals) => need_trait(alloc, name, formals, terminal),
        State::AfterHead(raw) => Ok(after_head(alloc, raw, terminal)),
        State::ShortWord(raw, sort) => Ok(short_word(raw, sort, terminal)),
        State::NeedConstants(raw, sort) => Ok(need_constants(alloc, raw, sort, terminal)),
        State::NeedConstant(raw, sort, words) => need_constant(raw, sort, words, terminal),
        State::AfterConstant(raw, sort, words) => after_constant(alloc, raw, sort, words, terminal),
        State::NeedFields(raw, kind, sort) => Ok(need_fields(alloc, raw, kind, sort, terminal)),
        State::NeedName(shorthand) => need_name(alloc, shorthand, terminal),
        State::AfterNames(shorthand, names) => Ok(after_names(shorthand, names, terminal)),
        State::NeedFurtherName(shorthand, names) => need_further_name(shorthand, names, terminal),
        State::NeedNamesSort(shorthand, names) => need_names_sort(shorthand, names, terminal),
        State::AfterField(shorthand) => after_field(alloc, shorthand, terminal),
        State::NeedRef(raw, kind) => Ok(need_ref(raw, kind, terminal)),
        State::AfterRefName(raw, kind, name) => after_ref_name(alloc, raw, kind, name, terminal),
        State::AfterTraitRef(raw, kind) => after_trait_ref(alloc, raw, kind, terminal),
        State::AfterRename(reference) => after_rename(reference, terminal),
        State::InPart(raw) => Ok(in_part(alloc, raw, terminal)),
        State::NeedForm(naming) => Ok(begin_form(naming, terminal)),
        State::AfterSymbolForm(naming, symbol) => after_symbol_form(
            alloc, naming, symbol, terminal,
        ),
        State::AfterDotForm(naming, pos) => after_dot_form(alloc, naming, pos, terminal),
        State::AfterLeadingMarker(naming, pos) => Ok(after_leading_marker(naming, pos, terminal)),
        State::AfterMarkerSymbol(naming, pos, symbol) => after_marker_symbol(
            alloc, naming, pos, symbol, terminal,
        ),
        State::AfterFormBracket(form) => after_form_bracket(alloc, form, terminal),
        State::AfterBracketMarker(form, markers) => after_bracket_marker(
            alloc, form, markers, terminal,
        ),
        State::NeedBracketMarker(form, markers) => need_bracket_marker(form, markers, terminal),
        State::AfterForm(naming, form) => after_form(alloc, naming, form, terminal),
        State::NeedSig(signing) => need_sig(alloc, signing, terminal),
        State::AfterSort(signing, sorts) => Ok(after_sort(signing, sorts, terminal)),
        State::NeedSort(signing, sorts) => need_sort(signing, sorts, terminal),
        State::NeedRange(signing, sorts) => need_range(signing, sorts, terminal),
        State::AfterOperatorRef(clause, refs) => after_operator_ref(alloc, clause, refs, terminal),
        State::AfterLone(reference) => Ok(Outcome::Stops(Some(Whole::Reference(reference)))),
        State::InItems(raw) => begin_item(alloc, raw, terminal),
        State::FirstWord(raw, word) => first_word(alloc, raw, word, terminal),
        State::AfterSemicolon(item) => after_semicolon(alloc, item, terminal),
        State::WordBehind(item, word) => word_behind(alloc, item, word, terminal),
        State::ClauseWord(raw, sort) => Ok(clause_word(raw, sort, terminal)),
        State::NeedBy(clause) => Ok(need_by(alloc, clause, terminal)),
        State::NeedVariable(scope, variables) => need_variable(alloc, scope, variables, terminal),
        State::AfterVariable(scope, variables, names) => Ok(after_variable(
            scope, variables, names, terminal,
        )),
        State::NeedFurtherVariable(scope, variables, names) => need_further_variable(
            scope, variables, names, terminal,
        ),
        State::NeedVariableSort(scope, variables, names) => need_variable_sort(
            scope, variables, names, terminal,
        ),
        State::AfterGroup(scope, variables) => after_group(alloc, scope, variables, terminal),
        State::AfterImplies(raw) => after_implies(alloc, raw, terminal),
        State::ImpliedWord(raw, word) => implied_word(alloc, raw, word, terminal),
        State::BehindFirst(raw, word, terms) => behind_first(alloc, raw, word, terms, terminal),
        State::AfterConverted(raw, refs) => after_converted(alloc, raw, refs, terminal),
        State::NeedExempted(raw, refs) => need_exempted(alloc, raw, refs, terminal),
        State::NeedFurtherExempted(conversion) => begin_exempted(alloc, conversion, terminal),
        State::NeedEquation(waiting) => begin_equation(alloc, terminal, waiting),
        State::NeedTerm(stack) => begin_term(terminal, stack),
        State::NeedOperand(stack) => begin_operand(terminal, stack),
        State::NeedPrefixed(stack) => begin_prefixed(terminal, stack),
        State::NeedPost(stack) => begin_post(terminal, stack),
        State::NeedField(term, pos, stack) => need_field(alloc, term, pos, stack, terminal),
        State::NeedSortOf(term, pos, stack) => need_sort_of(alloc, term, pos, stack, terminal),
        State::AfterWord(word, stack) => after_word(alloc, word, stack, terminal),
        State::NeedFirst(bracket, front, pos, stack) => begin_bracket(
            alloc, bracket, front, pos, stack, terminal,
        ),
        State::AfterSymbol(symbol, term, stack) => after_symbol(
            alloc, symbol, term, stack, terminal,
        ),
        State::Have(term, stack) => Ok(Outcome::Handed(term, stack, terminal)),
    }
}
