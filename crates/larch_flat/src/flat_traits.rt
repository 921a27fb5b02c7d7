ghost use Rattle.std.specs.Prelude.{◌≡◌, ◌<◌, get_or, length, option_map, replicate, set, IfOk, None, Some};
ghost use Rattle.larch_flat_sources.specs.Sources.{Table, name_at};
ghost use Rattle.larch_flat.specs.Known.{Knows, is_known};
ghost use Rattle.larch_flat.specs.Parts.{IsFlat};

use larch_base::{Fault, Memory};
use larch_flat_gathering::Flat;
use std::alloc::Global;
use std::marker::Model;

/// What is known of the flat traits of files, by their numbers: what a flat trait has, or what is wrong with it first.
/// Contracts see it as a list.
#[derive(Drop)]
pub struct FlatTraits {
    answers: Vec<Option<Result<Flat, Fault>>>,
}

impl Model for FlatTraits {
    ghost use Rattle.std.specs.Prelude.{List, Option, Result};
    ghost use Rattle.larch_base.specs.declared.fault.Fault.{Fault};
    ghost use Rattle.larch_flat_sources.specs.FlatMeaningGathered.{Gathered};

    ghost Value = { List (Option (Result Gathered Fault)) };

    ghost use Rattle.std.specs.Coded.{codes};
    ghost use Rattle.larch_flat_gathering.specs.FlatCode.{coded_gathered};

    ghost coded = { Prim.hlevel (codes, coded_gathered) };

    ghost view = { λ known. known.answers.items };
}

impl FlatTraits {
    /// Nothing is known of so many files.
    pub fn none(alloc: Global, count: usize) -> Result<FlatTraits, Memory>
        ensures none { IfOk result (λ known. known ≡ replicate count None) }
        ensures knows { IfOk result (λ known. (sources : Table) → length sources ≡ count → Knows sources known) }
    {
        let mut answers = Vec::new(alloc);
        for _ in 0..count {
            answers.push(None)?;
        }
        Ok(FlatTraits { answers })
    }

    /// Keeps what is known of the file with a number.
    pub fn keep(&mut self, number: usize, answer: Result<Flat, Fault>)
        requires { number < length self.old }
        ensures kept { self.new ≡ set self.old number (Some answer) }
        ensures knows { (sources : Table) → Knows sources self.old → IsFlat sources (name_at sources number) answer
            → Knows sources self.new }
    {
        self.answers[number] = Some(answer);
    }

    /// Takes out what is known of the file with a number: nothing is known of it then. It takes no memory.
    pub fn take(&mut self, number: usize) -> Option<Result<Flat, Fault>>
        requires { number < length self.old }
        ensures taken { result ≡ get_or self.old number None }
        ensures left { self.new ≡ set self.old number None }
    {
        self.answers[number].take()
    }

    /// How many files there are. It takes no memory.
    pub fn len(&self) -> usize
        ensures { result ≡ length self.now }
    {
        self.answers.len()
    }

    // Whether something is known of a file. It takes no memory.
    pub(crate) fn has(&self, number: usize) -> bool
        requires { number < length self.now }
        ensures { result ≡ is_known self.now number }
    {
        self.answers[number].is_some()
    }

    /// What is known of the file with a number. It takes no memory.
    pub fn get(&self, number: usize) -> Option<&Result<Flat, Fault>>
        requires { number < length self.now }
        ensures { option_map (λ answer. answer.now) result ≡ get_or self.now number None }
    {
        self.answers[number].as_ref()
    }
}
