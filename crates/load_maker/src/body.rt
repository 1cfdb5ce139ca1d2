// The code of a function.

use crate::statement::Statement;
use std::marker::Model;

/// The statements of a function, in order.
#[derive(Drop)]
pub struct Body {
    pub statements: Vec<Statement>,
}

impl Model for Body {
    ghost use Rattle.std.specs.Prelude.{List};
    ghost use Rattle.load_maker.specs.declared.statement.Statement.{Statement};

    ghost Value = { List Statement };

    ghost view = { λ body. body.statements.items };
}
