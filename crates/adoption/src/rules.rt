// The rules of a file's table, one by one.
ghost use Rattle.std.specs.Prelude.{◌≡◌, ◌<◌, length, pos};
ghost use Rattle.worksheet.specs.Claims.{claimed, named};
ghost use Rattle.adoption.specs.Tables.{stated, rules_claimed, rules_fall, unfit, left_before, rises, reduced_at, table_reduced, rules_hold};

use crate::fault::TableFault;
use loads::Load;
use orders::order::{Order, higher};
use rewriting::search::search;
use worksheet::lines::Lines;
use worksheet::rule::Rule;

// The rule is what its line claims.
fn is_claimed(lines: &Lines, rule: &Rule) -> bool
    ensures { result ≡ stated rule.now (named (claimed lines.now) (pos rule.now.line)) }
{
    let Some(place) = usize::from(rule.line).checked_sub(1) else {
        return false;
    };
    let Some(claim) = lines.claim_at(place) else {
        return false;
    };
    rule.left == claim.left && rule.right == claim.right
}

// The rules are what their lines claim. This check and the two below go over the rules in the same way, each with a test and a fault of its own: one
// function for them would take both as parameters, and its contract would speak of calls of closures.
pub fn check_claims(lines: &Lines, rules: &[Rule]) -> Result<(), TableFault>
    ensures { result ≡ rules_claimed (claimed lines.now) rules.now }
{
    for (i, rule) in rules.iter().enumerate() {
        if !is_claimed(lines, rule) {
            return Err(TableFault::NotClaimed(i + 1));
        }
    }
    Ok(())
}

// Left loads are above right loads.
pub fn check_falls<O: Order>(order: &O, rules: &[Rule]) -> Result<(), TableFault>
    ensures { result ≡ rules_fall (O.above order.now) rules.now }
{
    for (i, rule) in rules.iter().enumerate() {
        if !higher(order, &rule.left, &rule.right) {
            return Err(TableFault::NotFalling(i + 1));
        }
    }
    Ok(())
}

// No rule fits the load.
fn unfit(rules: &[Rule], load: &Load) -> bool
    ensures { result ≡ unfit rules.now load.now }
{
    search(rules, load).is_none()
}

// The left load is above the one before the place i, if there is one.
fn rises<O: Order>(order: &O, rules: &[Rule], i: usize, left: &Load) -> bool
    requires { i < length rules.now }
    ensures { result ≡ rises (O.above order.now) (left_before rules.now i) left.now }
{
    match i.checked_sub(1) {
        Some(before) => higher(order, left, &rules[before].left),
        None => true,
    }
}

// The left load of the rule at the place i rises and contains no other, and no rule fits its right load.
fn is_reduced<O: Order>(order: &O, rules: &[Rule], i: usize, rule: &Rule) -> bool
    requires { i < length rules.now }
    ensures { result ≡ reduced_at (O.above order.now) rules.now i rule.now }
{
    rises(order, rules, i, &rule.left)
        && unfit(&rules[..i], &rule.left)
        && unfit(&rules[i + 1..], &rule.left)
        && unfit(rules, &rule.right)
}

// The table is reduced.
pub fn check_reduced<O: Order>(order: &O, rules: &[Rule]) -> Result<(), TableFault>
    ensures { result ≡ table_reduced (O.above order.now) rules.now }
{
    for (i, rule) in rules.iter().enumerate() {
        if !is_reduced(order, rules, i, rule) {
            return Err(TableFault::NotReduced(i + 1));
        }
    }
    Ok(())
}

// Every rule is what its line claims, then every rule falls, then the table is reduced.
pub fn check_rules<O: Order>(order: &O, lines: &Lines, rules: &[Rule]) -> Result<(), TableFault>
    ensures { result ≡ rules_hold (O.above order.now) (claimed lines.now) rules.now }
{
    check_claims(lines, rules)?;
    check_falls(order, rules)?;
    check_reduced(order, rules)
}
