ghost use Rattle.std.specs.Prelude.{◌≡◌, ◌∷◌, [], ◌++◌, codes, decimal, map, IfOk, OnOk};
ghost use Rattle.std.specs.List.{join_by};
ghost use Rattle.larch_term.specs.Tree.{app, forest_of, var};
ghost use Rattle.larch_term.specs.declared.statement.Statement.TheVariants.{Generated, Partitioned};
ghost use Rattle.larch_shorthand.specs.Tuple.{all_set, component_of, components_of, getter, is_got, is_set, maker};
ghost use Rattle.larch_shorthand.specs.Tuple.{setter, tuple, tuple_of, tuple_operators, tuple_statements};

use crate::append::append;
use crate::expansion::Expansion;
use crate::operators::{from_one, from_two, name_of, on, on_two, only};
use larch_base::{Bytes, Memory, Name, Sequence};
use larch_term::{Operator, Operators, Sort, Sorts, Statement, Statements, Term, Terms, copy};
use larch_traits_items::from_raw::RawField;
use std::alloc::Global;

/// What belongs to a field of a tuple: its operators, the variable for its value and that for another value.
pub(crate) struct Component {
    getter: Operator,
    setter: Operator,
    value: Term,
    other: Term,
}

// By a call, so that a proof takes a component apart in one place alone.
impl Drop for Component {
    fn drop(self) {
        let Component {
            getter: _getter,
            setter: _setter,
            value: _value,
            other: _other,
        } = self;
    }
}

// What a tuple stands for.
pub(crate) fn tuple(alloc: Global, sort: &Sort, fields: &[RawField]) -> Result<Expansion, Memory>
    ensures { IfOk result (λ e. e ≡ tuple sort.now fields.now) }
{
    let make = maker(alloc, sort, fields)?;
    let components = components_of(alloc, sort, fields)?;
    let statements = tuple_statements(alloc, sort, &make, components.as_slice())?;
    let operators = tuple_operators(alloc, sort, fields)?;
    Ok(Expansion {
        operators,
        statements,
    })
}

// The operators of a tuple.
pub(crate) fn tuple_operators(
    alloc: Global,
    sort: &Sort,
    fields: &[RawField],
) -> Result<Operators, Memory>
    ensures { IfOk result (λ fs. fs ≡ tuple_operators sort.now fields.now) }
{
    let make = maker(alloc, sort, fields)?;
    let mut operators = Sequence::new(alloc);
    operators.push(make)?;
    let getters = getters(alloc, sort, fields)?;
    let setters = setters(alloc, sort, fields)?;
    let further = append(getters, setters)?;
    let operators = append(operators, further)?;
    Ok(operators)
}

// The operator that makes a tuple.
fn maker(alloc: Global, sort: &Sort, fields: &[RawField]) -> Result<Operator, Memory>
    ensures { IfOk result (λ f. f ≡ maker sort.now fields.now) }
{
    let name = maker_name(alloc, fields)?;
    let domain = sorts_of(alloc, fields)?;
    let range = sort.copy()?;
    let operator = Operator::new(alloc, name, domain, range)?;
    Ok(operator)
}

// Its name: brackets with a marker for each field.
fn maker_name(alloc: Global, fields: &[RawField]) -> Result<Name, Memory>
    ensures { IfOk result (λ n. n ≡ codes "[" ++ (join_by (λ f. codes "__") (codes ", ") fields.now ++ codes "]")) }
{
    let mut text = Bytes::new(alloc);
    text.append(b"[")?;
    append_markers(&mut text, fields)?;
    text.append(b"]")?;
    Name::new(alloc, text.bytes())
}

// Puts a marker for each field at the end, with commas between them.
fn append_markers(text: &mut Bytes, fields: &[RawField]) -> Result<(), Memory>
    ensures { OnOk result (text.new ≡ text.old ++ join_by (λ f. codes "__") (codes ", ") fields.now) }
{
    for (i, _field) in fields.iter().enumerate() {
        if i > 0 {
            text.append(b", ")?;
        }
        text.append(b"__")?;
    }
    Ok(())
}

// The sorts of fields.
fn sorts_of(alloc: Global, fields: &[RawField]) -> Result<Sorts, Memory>
    ensures { IfOk result (λ sorts. sorts ≡ map (λ f. f.sort.name) fields.now) }
{
    let mut sorts = Sequence::new(alloc);
    for field in fields {
        let sort = field.sort.name.copy()?;
        sorts.push(sort)?;
    }
    Ok(sorts)
}

// The operators that give the fields' values.
pub(crate) fn getters(alloc: Global, sort: &Sort, fields: &[RawField]) -> Result<Operators, Memory>
    ensures { IfOk result (λ fs. fs ≡ map (getter sort.now) fields.now) }
{
    let mut getters = Sequence::new(alloc);
    for field in fields {
        let getter = getter(alloc, sort, field)?;
        getters.push(getter)?;
    }
    Ok(getters)
}

// The operator that gives a field's value.
pub(crate) fn getter(alloc: Global, sort: &Sort, field: &RawField) -> Result<Operator, Memory>
    ensures { IfOk result (λ f. f ≡ getter sort.now field.now) }
{
    let name = name_of(alloc, b"__.", field.name.name.bytes())?;
    let getter = from_one(alloc, name, sort, &field.sort.name)?;
    Ok(getter)
}

// The operators that give tuples with other values of the fields.
fn setters(alloc: Global, sort: &Sort, fields: &[RawField]) -> Result<Operators, Memory>
    ensures { IfOk result (λ fs. fs ≡ map (setter sort.now) fields.now) }
{
    let mut setters = Sequence::new(alloc);
    for field in fields {
        let setter = setter(alloc, sort, field)?;
        setters.push(setter)?;
    }
    Ok(setters)
}

// The operator that gives a tuple with another value of a field.
fn setter(alloc: Global, sort: &Sort, field: &RawField) -> Result<Operator, Memory>
    ensures { IfOk result (λ f. f ≡ setter sort.now field.now) }
{
    let name = name_of(alloc, b"set_", field.name.name.bytes())?;
    let setter = from_two(alloc, name, sort, &field.sort.name, sort)?;
    Ok(setter)
}

// What belongs to fields.
fn components_of(
    alloc: Global,
    sort: &Sort,
    fields: &[RawField],
) -> Result<Sequence<Component>, Memory>
    ensures { IfOk result (λ cs. cs ≡ components_of sort.now 1 fields.now) }
{
    let mut components = Sequence::new(alloc);
    for (i, field) in fields.iter().enumerate() {
        let component = component_of(alloc, sort, i + 1, field)?;
        components.push(component)?;
    }
    Ok(components)
}

// What belongs to a field of this number.
fn component_of(
    alloc: Global,
    sort: &Sort,
    number: usize,
    field: &RawField,
) -> Result<Component, Memory>
    ensures { IfOk result (λ c. c ≡ component_of sort.now number field.now) }
{
    let getter = getter(alloc, sort, field)?;
    let setter = setter(alloc, sort, field)?;
    let value = value_of(alloc, number, &field.sort.name)?;
    let other = other_of(alloc, &field.sort.name)?;
    Ok(Component {
        getter,
        setter,
        value,
        other,
    })
}

// The variable for the value of a field of this number.
fn value_of(alloc: Global, number: usize, sort: &Sort) -> Result<Term, Memory>
    ensures { IfOk result (λ t. t ≡ var (codes "x" ++ decimal number) sort.now) }
{
    let text = format!(in alloc; "x{number}")?;
    let name = Name::new(alloc, text.as_bytes())?;
    let sort = sort.copy()?;
    Ok(Term::var(name, sort))
}

// The variable for another value of a field.
fn other_of(alloc: Global, sort: &Sort) -> Result<Term, Memory>
    ensures { IfOk result (λ t. t ≡ var (codes "z") sort.now) }
{
    let name = Name::new(alloc, b"z")?;
    let sort = sort.copy()?;
    Ok(Term::var(name, sort))
}

// What is stated of a tuple.
fn tuple_statements(
    alloc: Global,
    sort: &Sort,
    make: &Operator,
    components: &[Component],
) -> Result<Statements, Memory>
    ensures { IfOk result (λ ss. ss ≡ tuple_statements sort.now make.now components.now) }
{
    let clauses = clauses(alloc, sort, make, components)?;
    let whole = tuple_of(alloc, make, components)?;
    let got = all_got(alloc, &whole, components)?;
    let set = all_set(alloc, make, &whole, components)?;
    let equations = append(got, set)?;
    let statements = append(clauses, equations)?;
    Ok(statements)
}

// That a tuple is generated and partitioned.
fn clauses(
    alloc: Global,
    sort: &Sort,
    make: &Operator,
    components: &[Component],
) -> Result<Statements, Memory>
    ensures { IfOk result (λ ss. ss ≡ Generated sort.now (make.now ∷ [])
        ∷ Partitioned sort.now (map (λ c. c.getter) components.now) ∷ []) }
{
    let generated = generated(alloc, sort, make)?;
    let partitioned = partitioned(alloc, sort, components)?;
    let mut clauses = Sequence::new(alloc);
    clauses.push(generated)?;
    clauses.push(partitioned)?;
    Ok(clauses)
}

// That a sort is generated by one operator.
fn generated(alloc: Global, sort: &Sort, make: &Operator) -> Result<Statement, Memory>
    ensures { IfOk result (λ s. s ≡ Generated sort.now (make.now ∷ [])) }
{
    let generators = only(alloc, make)?;
    let sort = sort.copy()?;
    Ok(Statement::Generated(sort, generators))
}

// That a sort is partitioned by getters.
fn partitioned(alloc: Global, sort: &Sort, components: &[Component]) -> Result<Statement, Memory>
    ensures { IfOk result (λ s. s ≡ Partitioned sort.now (map (λ c. c.getter) components.now)) }
{
    let mut observers = Sequence::new(alloc);
    for component in components {
        let getter = component.getter.copy()?;
        observers.push(getter)?;
    }
    let sort = sort.copy()?;
    Ok(Statement::Partitioned(sort, observers))
}

// A tuple of all values.
fn tuple_of(alloc: Global, make: &Operator, components: &[Component]) -> Result<Term, Memory>
    ensures { IfOk result (λ t. t ≡ tuple_of make.now components.now) }
{
    let values = values(alloc, components)?;
    let make = make.copy()?;
    Ok(Term::app(make, Terms::from_vec(values)))
}

// The variables for the fields' values.
fn values(alloc: Global, components: &[Component]) -> Result<Vec<Term>, Memory>
    ensures { IfOk result (λ ts. ts.items ≡ map (λ c. c.value) components.now) }
{
    let mut values = Vec::new(alloc);
    for component in components {
        let value = copy(alloc, &component.value)?;
        values.push(value)?;
    }
    Ok(values)
}

// That the getters of a tuple of all values give the fields' values.
fn all_got(alloc: Global, whole: &Term, components: &[Component]) -> Result<Statements, Memory>
    ensures { IfOk result (λ ss. ss ≡ map (is_got whole.now) components.now) }
{
    let mut statements = Sequence::new(alloc);
    for component in components {
        let statement = is_got(alloc, whole, component)?;
        statements.push(statement)?;
    }
    Ok(statements)
}

// That the getter of a tuple of all values gives the field's value.
fn is_got(alloc: Global, whole: &Term, component: &Component) -> Result<Statement, Memory>
    ensures { IfOk result (λ s. s ≡ is_got whole.now component.now) }
{
    let whole = copy(alloc, whole)?;
    let got = on(alloc, &component.getter, whole)?;
    let value = copy(alloc, &component.value)?;
    Ok(Statement::Equation(got, value))
}

// That the setters of a tuple of all values give the tuples with other values.
fn all_set(
    alloc: Global,
    make: &Operator,
    whole: &Term,
    components: &[Component],
) -> Result<Statements, Memory>
    ensures { IfOk result (λ ss. ss ≡ all_set make.now whole.now [] components.now) }
{
    let mut statements = Sequence::new(alloc);
    let mut before = Vec::new(alloc);
    let mut rest = components;
    while let [component, behind @ ..] = rest {
        let statement = is_set(alloc, make, whole, before.as_slice(), component, behind)?;
        statements.push(statement)?;
        let value = copy(alloc, &component.value)?;
        before.push(value)?;
        rest = behind;
    }
    Ok(statements)
}

// That the setter of a tuple of all values gives the tuple with another value.
fn is_set(
    alloc: Global,
    make: &Operator,
    whole: &Term,
    before: &[Term],
    component: &Component,
    behind: &[Component],
) -> Result<Statement, Memory>
    ensures { IfOk result (λ s. s ≡ is_set make.now whole.now before.now component.now
        (map (λ c. c.value) behind.now)) }
{
    let whole = copy(alloc, whole)?;
    let other = copy(alloc, &component.other)?;
    let set = on_two(alloc, &component.setter, whole, other)?;
    let other = with_other(alloc, make, before, component, behind)?;
    Ok(Statement::Equation(set, other))
}

// The tuple of the values before, the other value of a field, and the values behind.
fn with_other(
    alloc: Global,
    make: &Operator,
    before: &[Term],
    component: &Component,
    behind: &[Component],
) -> Result<Term, Memory>
    ensures { IfOk result (λ t. t ≡ app make.now (forest_of (before.now
        ++ component.now.other ∷ map (λ c. c.value) behind.now))) }
{
    let mut arguments = copy_terms(alloc, before)?;
    let other = copy(alloc, &component.other)?;
    arguments.push(other)?;
    let mut further = values(alloc, behind)?;
    arguments.append(&mut further)?;
    let make = make.copy()?;
    Ok(Term::app(make, Terms::from_vec(arguments)))
}

// Terms once more.
fn copy_terms(alloc: Global, terms: &[Term]) -> Result<Vec<Term>, Memory>
    ensures { IfOk result (λ ts. ts.items ≡ terms.now) }
{
    let mut copies = Vec::new(alloc);
    for term in terms {
        let copied = copy(alloc, term)?;
        copies.push(copied)?;
    }
    Ok(copies)
}
