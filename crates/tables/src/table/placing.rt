// Removing rules from a table, and putting a rule at its place.
ghost use Rattle.std.specs.Prelude.{◌≡◌, ◌+◌, ◌<◌, ◌≤◌, ◌&&◌, length, is_ok, if◌then◌else◌, vec_len, vec_capacity, nat_le, nat_lt, slice_set};
ghost use Rattle.std.specs.List.{insert};
ghost use Rattle.tables.specs.Placing.{without, enter, put_fits, replace_fits};

use crate::misfit::Misfit;
use crate::table::Table;
use loads::Load;
use orders::order::{Order, higher};
use worksheet::rule::Rule;

// The place of a rule among rules whose left loads rise.
fn place_of<O: Order>(order: &O, rules: &[Rule], rule: &Rule) -> usize
    ensures within { result ≤ length rules.now }
    ensures place { insert rules.now result rule.now ≡ enter (O.above order.now) rule.now rules.now }
{
    rules
        .iter()
        .position(|other| !higher(order, &rule.left, &other.left))
        .unwrap_or(rules.len())
}

// Puts a rule at its place.
fn put_in<O: Order>(order: &O, rules: &mut Vec<Rule>, rule: Rule)
    requires { vec_len rules.old < vec_capacity rules.old }
    ensures items { rules.new.items ≡ enter (O.above order.now) rule rules.old.items }
    ensures len { vec_len rules.new ≡ vec_len rules.old + 1 }
    ensures capacity { vec_capacity rules.old ≤ vec_capacity rules.new }
{
    let place = place_of(order, rules, &rule);
    rules.insert(place, rule).unwrap();
}

impl Table {
    // How many rules have a left load that does not contain the load.
    pub fn kept(&self, load: &Load) -> usize
        ensures { result ≡ length (without load.now self.now) }
    {
        self.rules
            .iter()
            .filter(|rule| !rule.left.contains(load))
            .count()
    }

    // Removes the rules whose left load contains the load.
    pub fn remove(&mut self, load: &Load)
        ensures { self.new ≡ without load.now self.old }
    {
        self.rules.retain(|rule| !rule.left.contains(load));
    }

    // Puts a rule at its place, so that left loads rise.
    pub fn put<O: Order>(&mut self, order: &O, rule: Rule) -> Result<(), Misfit>
        ensures value { result ≡ put_fits rule self.old }
        ensures after { self.new ≡ (if is_ok result then enter (O.above order.now) rule self.old else self.old) }
    {
        if self.rules.len() >= 128 {
            return Err(Misfit::Full);
        }
        if rule.line > 544 {
            return Err(Misfit::LineTooHigh);
        }
        put_in(order, &mut self.rules, rule);
        Ok(())
    }

    // Puts a rule in the place of another, counted from 0.
    pub fn replace(&mut self, place: usize, rule: Rule) -> Result<(), Misfit>
        ensures value { result ≡ replace_fits place rule self.old }
        ensures after { self.new ≡ (if is_ok result then slice_set self.old place rule else self.old) }
    {
        if place >= self.rules.len() {
            return Err(Misfit::NoPlace);
        }
        if rule.line > 544 {
            return Err(Misfit::LineTooHigh);
        }
        self.rules[place] = rule;
        Ok(())
    }
}
