//! How a run ends: the statuses, and the number with which the program ends for each.

ghost use Rattle.std.specs.Prelude.{◌≡◌};
ghost use Rattle.plain_commands.specs.Texts.{exit_number};

use certificate::AnswerFault;
use circuit::ModelFault;
use edge::{ReadEnd, Spending};
use search_reports::Report;
use sheet_answers::BlockFault;
use wall_store::Board;

/// How a run of the program ended.
#[derive(Drop)]
pub enum Status {
    /// The command did its work.
    Done(Done),
    /// `check`: the answer is not a good one, and this is its first failing item; `solve`: it gives no entries, for this fault.
    Refused(AnswerFault),
    /// The same of a sheet, of which the block of this property, counted from 0, has this fault.
    RefusedBlock(u32, BlockFault),
    /// `solve` and `demo`: a stated budget is spent, of entries of the list or of each worker, as the report shows: a board
    /// on which a property that was asked for has no outcome, and what each worker has spent.
    Unknown(Report),
    /// `rounds`: the count of conflicts or that of steps is at its limit, and this was spent; nothing is known of the rounds of
    /// this property, counted from 0.
    OpenRounds { property: u32, spent: Spending },
    /// `shortest`: the count of conflicts is at its limit, and this was spent; no fair lasso has at most so many positions.
    OpenDepth { done: u32, spent: Spending },
    /// The bytes of MODEL are the text of no model, and this is their first fault.
    BadModel(ModelFault),
    /// A read of MODEL or ANSWER failed. Nothing was written.
    ReadFault,
    /// A write failed. What was written is a prefix of the text.
    WriteFault,
    /// Memory was refused. Nothing was written.
    Memory,
    /// `solve`, `safety`, `slice`, `rounds` and `shortest`: the model has no property with this number, counted from 0.
    NoProperty(u32),
    /// `safety`, `rounds`, and `check` of a text about rounds: the greatest variable of the translation, or of the property's
    /// monitor, would be this one, above the limit on models.
    TooLarge(u64),
    /// `export`: the answer has no item with these numbers, of an entry and of one of its clauses, counted from 0.
    NoItem(u32, u32),
    /// The words are no command, or their values are no request of it. Nothing was read.
    Usage,
}

/// What a command did.
#[derive(Drop)]
pub enum Done {
    /// The stimulus of the answer, judged or printed, stands for a fair lasso of this property, counted from 0: its number
    /// of positions, and the place, counted from 0, that its last position steps back to.
    Lasso {
        property: u32,
        positions: u64,
        from: u64,
    },
    /// The certificate of the answer, judged or printed, leaves no fair lasso of this property, counted from 0: its number
    /// of entries, at most 65,536.
    Holds {
        property: u32,
        entries: u32,
    },
    /// The text about rounds, judged or printed, shows of this property, counted from 0, that an initial run has `k` rounds, or
    /// more, where they are reached; and else that none has.
    Rounds {
        property: u32,
        k: u32,
        reached: bool,
    },
    /// The sheet, judged or printed, has so many blocks with a stimulus, with a refutation, and with neither, and so many entries,
    /// at most 65,536.
    All {
        lassos: u32,
        holds: u32,
        unknown: u32,
        entries: u32,
    },
    /// `shortest`: no fair lasso of this property, counted from 0, has at most so many positions.
    NoneWithin {
        property: u32,
        depth: u32,
    },
    /// `gen` and `safety`: the text of the model was written; `wave`: that of the waves; `export`: that of the item.
    Printed,
    /// `demo`: property 0 of the generated model was decided, and this is a board with its outcome.
    Demo(Board),
}

impl Status {
    /// The number with which the program ends: 0 for work done, 1 for a refused answer, 2 for a search of which a stated
    /// budget is spent, 3 for a bad model, 4 and 5 for failed reads and writes, 6 for want of memory, 8 for a property that
    /// is not there, 9 for a model that would be too large, 10 for an item that an answer does not have, and 64 for words
    /// that are no command, or whose values are no request of it.
    pub fn number(&self) -> u8
        ensures { result ≡ exit_number self.now }
    {
        match self {
            Status::Done(_) => 0,
            Status::Refused(_) | Status::RefusedBlock(_, _) => 1,
            Status::Unknown(_) | Status::OpenRounds { .. } | Status::OpenDepth { .. } => 2,
            Status::BadModel(_) => 3,
            Status::ReadFault => 4,
            Status::WriteFault => 5,
            Status::Memory => 6,
            Status::NoProperty(_) => 8,
            Status::TooLarge(_) => 9,
            Status::NoItem(_, _) => 10,
            Status::Usage => 64,
        }
    }
}

impl From<ReadEnd> for Status {
    ghost use Rattle.std.specs.Prelude.{◌≡◌};
    ghost use Rattle.plain_commands.specs.Statuses.{status_of_read};

    ghost from_gives = { λ end status. status ≡ status_of_read end };

    fn from(end: ReadEnd) -> Status {
        match end {
            ReadEnd::Failed => Status::ReadFault,
            ReadEnd::Memory => Status::Memory,
        }
    }
}
