ghost use Rattle.std.specs.Prelude.{◌≡◌, ◌∷◌, [], ◌++◌, codes, map, IfOk};
ghost use Rattle.larch_term.specs.Tree.{var};
ghost use Rattle.larch_term.specs.declared.statement.Statement.TheVariants.{Generated, Partitioned};
ghost use Rattle.larch_shorthand.specs.Enumeration.{enumeration};
ghost use Rattle.larch_shorthand.specs.Expansion.{followed_by};
ghost use Rattle.larch_shorthand.specs.Operators.{on};
ghost use Rattle.larch_shorthand.specs.Tuple.{getter};
ghost use Rattle.larch_shorthand.specs.Union.{case_of, injection, is_back, is_tagged, names_of, tag, tag_of};
ghost use Rattle.larch_shorthand.specs.Union.{tag_sort, union_, union_operators, union_statements};

use crate::append::append;
use crate::enumeration::{enumeration, enumeration_operators};
use crate::expansion::Expansion;
use crate::operators::{constant, constant_of, from_one, name_of, on};
use crate::tuple::{getter, getters};
use larch_base::{Memory, Name, Sequence};
use larch_term::{Operator, Operators, Sort, Statement, Statements, Term, copy};
use larch_traits_items::from_raw::RawField;
use std::alloc::Global;

/// What belongs to a field of a union: its operators, its tag, and the variable for its value.
pub(crate) struct Case {
    injection: Operator,
    getter: Operator,
    tag: Operator,
    value: Term,
}

// By a call, so that a proof takes a case apart in one place alone.
impl Drop for Case {
    fn drop(self) {
        let Case {
            injection: _injection,
            getter: _getter,
            tag: _tag,
            value: _value,
        } = self;
    }
}

// What a union stands for.
pub(crate) fn union_(alloc: Global, sort: &Sort, fields: &[RawField]) -> Result<Expansion, Memory>
    ensures { IfOk result (λ e. e ≡ union_ sort.now fields.now) }
{
    let tags = tags(alloc, sort, fields)?;
    let statements = union_statements(alloc, sort, fields)?;
    let operators = own_operators(alloc, sort, fields)?;
    followed_by(
        tags,
        Expansion {
            operators,
            statements,
        },
    )
}

// One expansion behind another.
fn followed_by(first: Expansion, second: Expansion) -> Result<Expansion, Memory>
    ensures { IfOk result (λ e. e ≡ followed_by first second) }
{
    let operators = append(first.operators, second.operators)?;
    let statements = append(first.statements, second.statements)?;
    Ok(Expansion {
        operators,
        statements,
    })
}

// The enumeration of a union's tags.
fn tags(alloc: Global, sort: &Sort, fields: &[RawField]) -> Result<Expansion, Memory>
    ensures { IfOk result (λ e. e ≡ enumeration (tag_sort sort.now) (names_of fields.now)) }
{
    let names = names_of(alloc, fields)?;
    let sort = tag_sort(alloc, sort)?;
    let tags = enumeration(alloc, &sort, names.as_slice())?;
    Ok(tags)
}

// The operators of a union, those of its tags first.
pub(crate) fn union_operators(
    alloc: Global,
    sort: &Sort,
    fields: &[RawField],
) -> Result<Operators, Memory>
    ensures { IfOk result (λ fs. fs ≡ (union_ sort.now fields.now).operators) }
{
    let names = names_of(alloc, fields)?;
    let tags = tag_sort(alloc, sort)?;
    let tags = enumeration_operators(alloc, &tags, names.as_slice())?;
    let own = own_operators(alloc, sort, fields)?;
    let operators = append(tags, own)?;
    Ok(operators)
}

// The names of fields.
fn names_of(alloc: Global, fields: &[RawField]) -> Result<Sequence<Name>, Memory>
    ensures { IfOk result (λ names. names ≡ names_of fields.now) }
{
    let mut names = Sequence::new(alloc);
    for field in fields {
        let name = field.name.name.copy()?;
        names.push(name)?;
    }
    Ok(names)
}

// The sort of a union's tags.
fn tag_sort(alloc: Global, sort: &Sort) -> Result<Sort, Memory>
    ensures { IfOk result (λ tags. tags ≡ tag_sort sort.now) }
{
    name_of(alloc, sort.bytes(), b"_tag")
}

// The operators of a union beside those of its tags.
fn own_operators(alloc: Global, sort: &Sort, fields: &[RawField]) -> Result<Operators, Memory>
    ensures { IfOk result (λ fs. fs ≡ union_operators sort.now fields.now) }
{
    let injections = injections(alloc, sort, fields)?;
    let mut further = getters(alloc, sort, fields)?;
    let tag = tag(alloc, sort)?;
    further.push(tag)?;
    let operators = append(injections, further)?;
    Ok(operators)
}

// The operators that make values of the union.
fn injections(alloc: Global, sort: &Sort, fields: &[RawField]) -> Result<Operators, Memory>
    ensures { IfOk result (λ fs. fs ≡ map (injection sort.now) fields.now) }
{
    let mut injections = Sequence::new(alloc);
    for field in fields {
        let injection = injection(alloc, sort, field)?;
        injections.push(injection)?;
    }
    Ok(injections)
}

// The operator that makes a value of the union from a field's value.
fn injection(alloc: Global, sort: &Sort, field: &RawField) -> Result<Operator, Memory>
    ensures { IfOk result (λ f. f ≡ injection sort.now field.now) }
{
    let name = field.name.name.copy()?;
    let injection = from_one(alloc, name, &field.sort.name, sort)?;
    Ok(injection)
}

// The operator that gives the tag of a value.
fn tag(alloc: Global, sort: &Sort) -> Result<Operator, Memory>
    ensures { IfOk result (λ f. f ≡ tag sort.now) }
{
    let name = Name::new(alloc, b"tag")?;
    let tags = tag_sort(alloc, sort)?;
    let tag = from_one(alloc, name, sort, &tags)?;
    Ok(tag)
}

// What is stated of a union beside its tags.
fn union_statements(alloc: Global, sort: &Sort, fields: &[RawField]) -> Result<Statements, Memory>
    ensures { IfOk result (λ ss. ss ≡ union_statements sort.now (map (case_of sort.now) fields.now)) }
{
    let cases = cases(alloc, sort, fields)?;
    let tag = tag(alloc, sort)?;
    let clauses = clauses(alloc, sort, &tag, cases.as_slice())?;
    let back = all_back(alloc, cases.as_slice())?;
    let tagged = all_tagged(alloc, &tag, cases.as_slice())?;
    let equations = append(back, tagged)?;
    append(clauses, equations)
}

// What belongs to fields.
fn cases(alloc: Global, sort: &Sort, fields: &[RawField]) -> Result<Sequence<Case>, Memory>
    ensures { IfOk result (λ cs. cs ≡ map (case_of sort.now) fields.now) }
{
    let mut cases = Sequence::new(alloc);
    for field in fields {
        let case = case_of(alloc, sort, field)?;
        cases.push(case)?;
    }
    Ok(cases)
}

// What belongs to a field.
fn case_of(alloc: Global, sort: &Sort, field: &RawField) -> Result<Case, Memory>
    ensures { IfOk result (λ c. c ≡ case_of sort.now field.now) }
{
    let injection = injection(alloc, sort, field)?;
    let getter = getter(alloc, sort, field)?;
    let tag = tag_of(alloc, sort, field)?;
    let value = value_of(alloc, &field.sort.name)?;
    Ok(Case {
        injection,
        getter,
        tag,
        value,
    })
}

// The tag of a field.
fn tag_of(alloc: Global, sort: &Sort, field: &RawField) -> Result<Operator, Memory>
    ensures { IfOk result (λ f. f ≡ tag_of sort.now field.now) }
{
    let tags = tag_sort(alloc, sort)?;
    let tag = constant_of(alloc, &field.name.name, &tags)?;
    Ok(tag)
}

// The variable for the value of a field.
fn value_of(alloc: Global, sort: &Sort) -> Result<Term, Memory>
    ensures { IfOk result (λ t. t ≡ var (codes "x") sort.now) }
{
    let name = Name::new(alloc, b"x")?;
    let sort = sort.copy()?;
    Ok(Term::var(name, sort))
}

// That a union is generated and partitioned.
fn clauses(alloc: Global, sort: &Sort, tag: &Operator, cases: &[Case]) -> Result<Statements, Memory>
    ensures { IfOk result (λ ss. ss ≡ Generated sort.now (map (λ c. c.injection) cases.now)
        ∷ Partitioned sort.now (map (λ c. c.getter) cases.now ++ tag.now ∷ []) ∷ []) }
{
    let generated = generated(alloc, sort, cases)?;
    let partitioned = partitioned(alloc, sort, tag, cases)?;
    let mut clauses = Sequence::new(alloc);
    clauses.push(generated)?;
    clauses.push(partitioned)?;
    Ok(clauses)
}

// That a union is generated by the operators that make its values.
fn generated(alloc: Global, sort: &Sort, cases: &[Case]) -> Result<Statement, Memory>
    ensures { IfOk result (λ s. s ≡ Generated sort.now (map (λ c. c.injection) cases.now)) }
{
    let mut generators = Sequence::new(alloc);
    for case in cases {
        let injection = case.injection.copy()?;
        generators.push(injection)?;
    }
    let sort = sort.copy()?;
    Ok(Statement::Generated(sort, generators))
}

// That a union is partitioned by the operators that give its values back, and by that of the tag.
fn partitioned(
    alloc: Global,
    sort: &Sort,
    tag: &Operator,
    cases: &[Case],
) -> Result<Statement, Memory>
    ensures { IfOk result (λ s. s ≡ Partitioned sort.now (map (λ c. c.getter) cases.now ++ tag.now ∷ [])) }
{
    let mut observers = case_getters(alloc, cases)?;
    let tag = tag.copy()?;
    observers.push(tag)?;
    let sort = sort.copy()?;
    Ok(Statement::Partitioned(sort, observers))
}

// The operators that give the values back.
fn case_getters(alloc: Global, cases: &[Case]) -> Result<Operators, Memory>
    ensures { IfOk result (λ fs. fs ≡ map (λ c. c.getter) cases.now) }
{
    let mut getters = Sequence::new(alloc);
    for case in cases {
        let getter = case.getter.copy()?;
        getters.push(getter)?;
    }
    Ok(getters)
}

// That each value is got back.
fn all_back(alloc: Global, cases: &[Case]) -> Result<Statements, Memory>
    ensures { IfOk result (λ ss. ss ≡ map is_back cases.now) }
{
    let mut statements = Sequence::new(alloc);
    for case in cases {
        let statement = is_back(alloc, case)?;
        statements.push(statement)?;
    }
    Ok(statements)
}

// That a value is got back.
fn is_back(alloc: Global, case: &Case) -> Result<Statement, Memory>
    ensures { IfOk result (λ s. s ≡ is_back case.now) }
{
    let injected = injected(alloc, case)?;
    let got = on(alloc, &case.getter, injected)?;
    let value = copy(alloc, &case.value)?;
    Ok(Statement::Equation(got, value))
}

// A value made a value of the union.
fn injected(alloc: Global, case: &Case) -> Result<Term, Memory>
    ensures { IfOk result (λ t. t ≡ on case.now.injection case.now.value) }
{
    let value = copy(alloc, &case.value)?;
    on(alloc, &case.injection, value)
}

// That each value has the tag of its field.
fn all_tagged(alloc: Global, tag: &Operator, cases: &[Case]) -> Result<Statements, Memory>
    ensures { IfOk result (λ ss. ss ≡ map (is_tagged tag.now) cases.now) }
{
    let mut statements = Sequence::new(alloc);
    for case in cases {
        let statement = is_tagged(alloc, tag, case)?;
        statements.push(statement)?;
    }
    Ok(statements)
}

// That a value has the tag of its field.
fn is_tagged(alloc: Global, tag: &Operator, case: &Case) -> Result<Statement, Memory>
    ensures { IfOk result (λ s. s ≡ is_tagged tag.now case.now) }
{
    let injected = injected(alloc, case)?;
    let found = on(alloc, tag, injected)?;
    let tag = constant(alloc, &case.tag)?;
    Ok(Statement::Equation(found, tag))
}
