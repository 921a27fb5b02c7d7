ghost use Rattle.std.specs.Prelude.{◌≡◌, ◌≤◌, ◌∷◌, [], if◌then◌else◌, Some, None, IfOk, All, option_map};
ghost use Rattle.larch_base.specs.ByNumber.{numbered};
ghost use Rattle.larch_rewrite_meaning.specs.Rewriting.{rewriting_row_count, rewriting_rows};
ghost use Rattle.larch_rewrite_meaning.specs.Sides.{sides_of};
ghost use Rattle.larch_rewrite_match.specs.Rule.{all_sides, sides_of_rule, IsRule, IsSaidByRow};
ghost use Rattle.larch_rewrite_match.specs.declared.rule.Reason.TheVariants.{Row as IsRow};
ghost use Rattle.larch_rewrite_meaning.specs.TablesStatement.{IsIdentityStatement, offered_row};
ghost use Rattle.larch_rewrite_meaning.specs.TablesTables.{built_in_rows, sort_for};
ghost use Rattle.larch_term.specs.declared.statement.Statement.TheVariants.{Equation};

use crate::rule::{Reason, RewriteRule};
use crate::shared::SharedRule;
use crate::table::RuleTable;
use larch_base::Memory;
use larch_rewrite_meaning::from_tables::{Row, RowRefusal, built_in, row_statement};
use larch_term::{Sort, Statement, bool_sort};
use std::alloc::Global;

// How many of the built-in rows rewrite.
const REWRITING_ROWS: u32 = 33;

/// The built-in rows that rewrite, at a sort, as rules. It takes time by the size of the rows.
#[tactic(auto, using(crate::proofs::RowSteps::rows_pushed))]
pub fn rows_at(alloc: Global, sort: &Sort) -> Result<RuleTable, Memory>
    ensures sides { IfOk result (λ rows. all_sides rows ≡ rewriting_rows sort.now) }
    ensures reasons { IfOk result (λ rows. All IsSaidByRow rows) }
    ensures rules { IfOk result (λ rows. All IsRule rows) }
{
    let mut rows = RuleTable::new(alloc);
    for index in 0..REWRITING_ROWS {
        let row = row_at(alloc, index + 1, sort)?;
        let row = SharedRule::new(alloc, row)?;
        rows.push(row)?;
    }
    Ok(rows)
}

// The row with a number as a rule at a sort.
#[tactic(auto, using(crate::proofs::RowSteps::row_given, crate::proofs::RowSteps::row_is_there, crate::proofs::RowSteps::row_said))]
fn row_at(alloc: Global, number: u32, sort: &Sort) -> Result<RewriteRule, Memory>
    requires first { 1 ≤ number }
    requires last { number ≤ rewriting_row_count }
    ensures sides { IfOk result (λ rule.
        option_map (λ row. sides_of row.given) (numbered (built_in_rows sort.now) number)
        ≡ Some (sides_of_rule rule ∷ [])) }
    ensures reason { IfOk result IsSaidByRow }
    ensures rule { IfOk result IsRule }
{
    let Some(row) = built_in().row(number) else {
        unreachable!()
    };
    let at = sort_for(alloc, &row, sort)?;
    let statement = equation(alloc, number, &at)?;
    let reason = reason_for(&row, number, sort)?;
    let rule = rule_of(alloc, statement, reason)?;
    Ok(rule)
}

// The sort at which a row is read.
fn sort_for(alloc: Global, row: &Row, sort: &Sort) -> Result<Sort, Memory>
    ensures { IfOk result (λ at. at ≡ sort_for sort.now row.now) }
{
    if row.sorted {
        let sort = sort.copy()?;
        return Ok(sort);
    }
    let truth = bool_sort(alloc)?;
    Ok(truth)
}

// The equation of a row at a sort where it is offered.
fn equation(alloc: Global, number: u32, sort: &Sort) -> Result<Statement, Memory>
    requires { offered_row number sort.now ≡ None → ⊥ }
    ensures offered { IfOk result (λ statement. offered_row number sort.now ≡ Some statement) }
    ensures identity { IfOk result (λ statement. IsIdentityStatement statement) }
{
    match row_statement(alloc, number, sort) {
        Ok(statement) => Ok(statement),
        Err(RowRefusal::NoRow) => unreachable!(),
        Err(RowRefusal::Memory) => Err(Memory),
    }
}

// A row as a reason, at its sort if it has one.
fn reason_for(row: &Row, number: u32, sort: &Sort) -> Result<Reason, Memory>
    ensures { IfOk result (λ reason. reason ≡ IsRow number (if row.now.sorted then Some sort.now else None)) }
{
    if row.sorted {
        let sort = sort.copy()?;
        return Ok(Reason::Row(u64::from(number), Some(sort)));
    }
    Ok(Reason::Row(u64::from(number), None))
}

// The rule of an equation.
fn rule_of(alloc: Global, statement: Statement, reason: Reason) -> Result<RewriteRule, Memory>
    requires { IsIdentityStatement statement }
    ensures { IfOk result (λ rule. (statement ≡ Equation rule.left rule.right) × (rule.reason ≡ reason) × IsRule rule) }
{
    match statement {
        Statement::Equation(left, right) => {
            let rule = RewriteRule::new(alloc, left, right, reason)?;
            Ok(rule)
        }
        _ => unreachable!(),
    }
}
