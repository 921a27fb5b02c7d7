ghost use Rattle.std.specs.Prelude.{◌≡◌, ◌++◌, ◌∷◌, [], IfOk, OnOk, OnErr, false, map};
ghost use Rattle.std.specs.List.{list_any};
ghost use Rattle.larch_term.specs.Substitution.{is_entry_of, image, instance_of};

use crate::copying::{copy, copy_variable};
use crate::operator::Sort;
use crate::term::{Node, Term, Terms};
use larch_base::{Memory, Name};
use std::alloc::Global;
use std::marker::Model;

/// A variable with the term that takes its place.
#[derive(Drop)]
pub struct Entry {
    pub name: Name,
    pub sort: Sort,
    pub term: Term,
}

/// A substitution. Contracts see it as the list of its entries.
#[derive(Drop)]
pub struct Substitution {
    entries: Vec<Entry>,
}

impl Model for Substitution {
    ghost use Rattle.std.specs.Prelude.{List};
    ghost use Rattle.std.specs.Coded.{coded_list};
    ghost use Rattle.larch_term.specs.declared.substitution.Entry.{Entry};
    ghost use Rattle.larch_term.specs.Substitution.{coded_entry};

    ghost Value = { List Entry };

    ghost coded = { coded_list coded_entry };

    ghost view = { λ substitution. substitution.entries.items };
}

impl Substitution {
    /// No entries yet. It takes no memory.
    pub fn new(alloc: Global) -> Substitution
        ensures { result ≡ [] }
    {
        Substitution {
            entries: Vec::new(alloc),
        }
    }

    /// Adds an entry for a variable that has none. Out of memory, it changes nothing.
    pub fn push(&mut self, name: Name, sort: Sort, term: Term) -> Result<(), Memory>
        requires { list_any (is_entry_of name sort) self.old ≡ false }
        ensures ok { OnOk result (self.new ≡ self.old ++ record { name = name; sort = sort; term = term } ∷ []) }
        ensures err { OnErr result (self.new ≡ self.old) }
    {
        self.entries.push(Entry { name, sort, term })?;
        Ok(())
    }

    /// Whether the variable has an entry. It takes no memory.
    pub fn has(&self, name: &Name, sort: &Sort) -> bool
        ensures { result ≡ list_any (is_entry_of name.now sort.now) self.now }
    {
        self.entries
            .iter()
            .any(|entry| entry.name == *name && entry.sort == *sort)
    }

    /// The entries.
    pub fn as_slice(&self) -> &[Entry]
        ensures { result.now ≡ self.now }
    {
        self.entries.as_slice()
    }
}

/// The term with all variables replaced at once.
pub fn substitute(alloc: Global, term: &Term, by: &Substitution) -> Result<Term, Memory>
    ensures { IfOk result (λ t. t ≡ instance_of by.now term.now) }
{
    substitute_by(alloc, term, by.as_slice())
}

#[cycle(substitute)]
#[tactic(auto, using(crate::proofs::TreeLists::substituted_all_forest))]
fn substitute_by(alloc: Global, term: &Term, by: &[Entry]) -> Result<Term, Memory>
    ensures { IfOk result (λ t. t ≡ instance_of by.now term.now) }
{
    match &term.node {
        Node::Var(name, sort) => image(alloc, by, name, sort),
        Node::App(operator, arguments) => {
            let arguments = substitute_all(alloc, arguments, by)?;
            let operator = operator.copy()?;
            Ok(Term::app(operator, arguments))
        }
    }
}

#[cycle(substitute)]
fn substitute_all(alloc: Global, terms: &Terms, by: &[Entry]) -> Result<Terms, Memory>
    ensures { IfOk result (λ ts. ts ≡ map (instance_of by.now) terms.now) }
{
    let mut items = Vec::with_capacity(alloc, terms.items.len())?;
    for term in &terms.items {
        let substituted = substitute_by(alloc, term, by)?;
        items.push(substituted)?;
    }
    Ok(Terms::from_vec(items))
}

// What takes the place of a variable.
fn image(alloc: Global, by: &[Entry], name: &Name, sort: &Sort) -> Result<Term, Memory>
    ensures { IfOk result (λ t. t ≡ image by.now name.now sort.now) }
{
    for entry in by {
        if entry.name == *name && entry.sort == *sort {
            let image = copy(alloc, &entry.term)?;
            return Ok(image);
        }
    }
    copy_variable(name, sort)
}
