//! What the lock knows of passes, and what passes and the board keep.

use crate::lock::{After, Lesson, Rule};
use std::marker::{Brand, Model};
use std::snapshot::Snapshot;
use wall_store::Board;

#[derive(Drop)]
enum Never {}

/// What the lock knows of the passes at a seat. No value of it is made.
#[derive(Drop)]
pub struct Faces {
    never: Never,
}

impl Model for Faces {
    ghost use Rattle.std.specs.Prelude.{List};
    ghost use Rattle.wall_ledger.specs.Rules.{Face};

    ghost Value = { List Face };

    ghost view = { λ s. elim s.never [ ] };
}

/// What passes and the board keep.
pub struct Law;

impl Rule<Board, Faces, Snapshot<Board>> for Law {
    ghost use Rattle.wall_ledger.specs.Rules.{Kept, first_faces, added, IsNumbered};

    ghost holds = { λ key. Kept key.value };

    ghost first = { λ key. first_faces key.value };

    ghost size = { added };

    ghost active = { IsNumbered };
}

/// What a pass finds of the board when its turn comes.
pub struct Find;

impl Lesson<Board, Faces> for Find {
    ghost use Rattle.wall_ledger.specs.Rules.{Told};

    ghost fact = { Told };
}

impl After<Faces> for Brand {
    ghost use Rattle.std.specs.Prelude.{[]};

    ghost after = { [] };
}
