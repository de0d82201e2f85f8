// The book of a register.
use std::marker::Model;
use worksheet::equation::Equation;

// At most 32 equations, in entry order.
#[derive(Drop)]
pub struct Book {
    equations: Vec<Equation>,
}

impl Model for Book {
    ghost use Rattle.std.specs.Prelude.{◌≤◌, List, vec_len, vec_capacity};
    ghost use Rattle.worksheet.specs.declared.equation.Equation.{Equation};

    ghost Value = { List Equation };

    ghost view = { λ b. b.equations.items };

    ghost invariant = { λ b. record { room : 32 ≤ vec_capacity b.equations; few : vec_len b.equations ≤ 32 } };
}

pub mod entering;
