// The table of a register.
use std::marker::Model;
use worksheet::rule::Rule;

// At most 128 rules. Their line numbers are at most 544, so that a chain can cite them.
// Book and table are two types and no generic row: each would still say how it is made, read and filled, now over a third type.
#[derive(Drop)]
pub struct Table {
    rules: Vec<Rule>,
}

impl Model for Table {
    ghost use Rattle.std.specs.Prelude.{◌≡◌, ◌≤◌, true, List, vec_len, vec_capacity};
    ghost use Rattle.worksheet.specs.declared.rule.Rule.{Rule};
    ghost use Rattle.tables.specs.Citing.{citable};

    ghost Value = { List Rule };

    ghost view = { λ t. t.rules.items };

    ghost invariant = { λ t. record { room : 128 ≤ vec_capacity t.rules; few : vec_len t.rules ≤ 128; cited : citable t.rules.items ≡ true } };
}

pub mod making;
pub mod placing;
pub mod trails;
