//! A pass in memory, and its turns at the lock.

ghost use Rattle.std.specs.Prelude.{◌≡◌, ℕ, ◌+◌, ◌<◌, ◌≤◌, ◌^◌, ◌∷◌, ◌++◌, ◌⊎◌, [], map, length, take, vec_capacity, Contains, IfOk, OnOk, OnErr};
ghost use Rattle.std.specs.Arc.{arc_value};
ghost use Rattle.wall_store.specs.Boards.{IsBoard, IsTrueOf, FromWorker, properties_of};
ghost use Rattle.wall_store.specs.Events.{Finishes, OpensNext, MayPost, Posts, entries_after, shown_to};
ghost use Rattle.wall_store.specs.Scanning as scanning;
ghost use Rattle.wall_ledger.specs.Passes.{StartsWith, MayPassPost};
ghost use Rattle.wall_ledger.specs.Turns.{HasLooked, HasFinished, HasOpened, HasPosted, IsRefused, marks_finished, marks_opened, marks_posted};
ghost use Rattle.wall_ledger.specs.Tickets.{IsSameSeat, most_tickets};
ghost use Rattle.wall_ledger.specs.Rules.{Face, added, kept_face, shown_face};
ghost use Rattle.wall_ledger.specs.Shows.{shown_finished, shown_opened, shown_posted, was_appended};
ghost use Rattle.wall_ledger.specs.Hands.{face_in, board_in, ticket_in, state_of, pass_of, ledger_of, IsMirror, IsResting, HasTurn, IsEnding};

use crate::faces::{Faces, Find, Law};
use crate::lock::{After, Lock, Place};
use crate::marks::{Closing, PassMark, close, win};
use entry::{Checked, older_views};
use std::alloc::AllocError;
use std::marker::Brand;
use std::snapshot::Snapshot;
use std::sync::{Arc, Wait};
use wall_store::{Board, Finished, Outcome, Posted, outcomes_stay};

/// The lock of a ledger.
pub type Gate = Lock<Board, Faces, Start, Law>;

/// The board with which a ledger began.
pub type Start = Snapshot<Board>;

/// What a pass keeps.
#[derive(Drop)]
pub struct Hand {
    pub place: Place<Board, Faces>,
    pub first: Snapshot<Start>,
    pub number: u32,
    pub entries: Vec<Arc<Checked>>,
    pub stamp: u64,
    pub turns: u32,
    pub marks: Vec<PassMark>,
}

/// Takes a turn, and with it the board and the number of the ticket.
pub fn begin<R: Wait>(gate: &Gate, rt: &R, hand: &mut Hand) -> (u64, Board)
    requires own { hand.old.place.table_id ≡ gate.now.table.shared.table_id }
    requires resting { IsResting hand.old }
    requires turns { hand.old.turns + 1 < 2 ^ 32 }
    ensures turn { HasTurn hand.new }
    ensures mirror { IsMirror hand.new (face_in hand.new).list (face_in hand.new) }
    ensures found { (result.0 ≡ ticket_in hand.new) × (result.1 ≡ board_in hand.new) }
    ensures board { IsBoard result.1 }
    ensures few { result.0 ≤ most_tickets }
    ensures face { face_in hand.new ≡ face_in hand.old }
    ensures same { IsSameSeat hand.old.place hand.new.place × (hand.new.first ≡ hand.old.first) × (hand.new.number ≡ hand.old.number) }
{
    let (ticket, board) = gate.enter::<Find, R>(rt, &mut hand.place);
    board.holds();
    (ticket, board)
}

/// Gives the board back, as long as it was, and passes the turn on.
fn end_as<J: After<Faces>>(gate: &Gate, hand: &mut Hand, board: Board)
    requires own { hand.old.place.table_id ≡ gate.now.table.shared.table_id }
    requires turn { HasTurn hand.old }
    requires next { (g : Face) × (J.after ≡ g ∷ []) × IsEnding hand.old board g × (added board ≡ added (board_in hand.old)) }
    ensures resting { IsResting hand.new }
    ensures after { face_in hand.new ∷ [] ≡ J.after }
    ensures same { IsSameSeat hand.old.place hand.new.place × (hand.new.first ≡ hand.old.first) × (hand.new.number ≡ hand.old.number) }
{
    gate.leave::<J>(&mut hand.place, board);
}

/// The same, where the list of the board is longer by one entry.
fn end_longer_as<J: After<Faces>>(gate: &Gate, hand: &mut Hand, board: Board)
    requires own { hand.old.place.table_id ≡ gate.now.table.shared.table_id }
    requires turn { HasTurn hand.old }
    requires next { (g : Face) × (J.after ≡ g ∷ []) × IsEnding hand.old board g
        × (added board ≡ added (board_in hand.old) + 1) × (added board < 2 ^ 64) }
    ensures resting { IsResting hand.new }
    ensures after { face_in hand.new ∷ [] ≡ J.after }
    ensures same { IsSameSeat hand.old.place hand.new.place × (hand.new.first ≡ hand.old.first) × (hand.new.number ≡ hand.old.number) }
{
    gate.leave_longer::<J>(&mut hand.place, board);
}

/// Copies these handles behind the entries, for which there is room. At `Err` some may have been copied.
fn copy_onto(entries: &mut Vec<Arc<Checked>>, tail: &[Arc<Checked>]) -> Result<(), AllocError>
    requires { length entries.old.items + length tail.now ≤ vec_capacity entries.old }
    ensures ok { OnOk result (map arc_value entries.new.items ≡ map arc_value entries.old.items ++ map arc_value tail.now) }
    ensures front { take (length entries.old.items) (map arc_value entries.new.items) ≡ map arc_value entries.old.items }
    ensures room { vec_capacity entries.new ≡ vec_capacity entries.old }
{
    for e in tail {
        entries.push_reserved(Arc::try_clone(e)?);
    }
    Ok(())
}

/// Copies the handles of `all` from behind the place where the entries end, for which there is room. So the entries are
/// then those of `all`, where the one list begins with the other. At `Err` none was copied.
pub fn copy_tail(entries: &mut Vec<Arc<Checked>>, all: &[Arc<Checked>]) -> Result<(), AllocError>
    requires room { length all.now ≤ vec_capacity entries.old }
    ensures ok { OnOk result (StartsWith (map arc_value entries.old.items) (map arc_value all.now)
        → map arc_value entries.new.items ≡ map arc_value all.now) }
    ensures err { OnErr result (map arc_value entries.new.items ≡ map arc_value entries.old.items) }
    ensures room { vec_capacity entries.new ≡ vec_capacity entries.old }
{
    let from = entries.len();
    if all.len() <= from {
        return Ok(());
    }
    match copy_onto(entries, &all[from..]) {
        Ok(()) => Ok(()),
        Err(_) => {
            entries.truncate(from);
            Err(AllocError)
        }
    }
}

/// Copies the handles that are missing, for which there is room. At `Err` none was copied.
fn copy_missing(entries: &mut Vec<Arc<Checked>>, all: &[Arc<Checked>]) -> Result<(), AllocError>
    requires room { length all.now ≤ vec_capacity entries.old }
    requires front { StartsWith (map arc_value entries.old.items) (map arc_value all.now) }
    ensures ok { OnOk result (map arc_value entries.new.items ≡ map arc_value all.now) }
    ensures err { OnErr result (map arc_value entries.new.items ≡ map arc_value entries.old.items) }
    ensures room { vec_capacity entries.new ≡ vec_capacity entries.old }
{
    copy_tail(entries, all)
}

/// Ends a turn in which nothing happened.
fn end_rest<J: After<Faces>>(gate: &Gate, hand: &mut Hand, board: Board)
    requires own { hand.old.place.table_id ≡ gate.now.table.shared.table_id }
    requires turn { HasTurn hand.old }
    requires mirror { IsMirror hand.old (face_in hand.old).list (face_in hand.old) }
    requires board { board ≡ board_in hand.old }
    requires picked { J.after ≡ kept_face (face_in hand.old) (face_in hand.old).marks ∷ [] }
    ensures resting { IsResting hand.new }
    ensures state { state_of hand.new ≡ pass_of hand.old.place.table_id (kept_face (face_in hand.old) (face_in hand.old).marks) }
    ensures same { IsSameSeat hand.old.place hand.new.place × (hand.new.first ≡ hand.old.first) × (hand.new.number ≡ hand.old.number) }
{
    hand.turns += 1;
    end_as::<J>(gate, hand, board);
}

/// Ends a turn in which an outcome was handed in.
fn end_finish<J: After<Faces>>(
    gate: &Gate,
    hand: &mut Hand,
    board: Board,
    property: u32,
    outcome: &Snapshot<Outcome>,
    answer: Finished,
)
    requires own { hand.old.place.table_id ≡ gate.now.table.shared.table_id }
    requires turn { HasTurn hand.old }
    requires mirror { IsMirror hand.old (face_in hand.old).list (face_in hand.old) }
    requires served { Contains (properties_of hand.old.first.value.value.served) property }
    requires event { Finishes (board_in hand.old) property outcome.now.value answer board }
    requires picked { J.after ≡ kept_face (face_in hand.old) (marks_finished (face_in hand.old).marks property outcome.now.value answer) ∷ [] }
    ensures resting { IsResting hand.new }
    ensures state { state_of hand.new ≡ pass_of hand.old.place.table_id
        (kept_face (face_in hand.old) (marks_finished (face_in hand.old).marks property outcome.now.value answer)) }
    ensures same { IsSameSeat hand.old.place hand.new.place × (hand.new.first ≡ hand.old.first) × (hand.new.number ≡ hand.old.number) }
{
    let _ = outcome;
    mark_finished(&mut hand.marks, property, answer);
    hand.turns += 1;
    end_as::<J>(gate, hand, board);
}

fn mark_finished(marks: &mut Vec<PassMark>, property: u32, answer: Finished)
    ensures { marks.new.items ≡ shown_finished marks.old.items property answer }
{
    match answer {
        Finished::Won => win(marks, property),
        Finished::Closed => close(marks, Closing::One(property)),
    }
}

/// Ends a turn in which an open property was asked for.
fn end_open<J: After<Faces>>(
    gate: &Gate,
    hand: &mut Hand,
    board: Board,
    least: u32,
    answer: Option<u32>,
)
    requires own { hand.old.place.table_id ≡ gate.now.table.shared.table_id }
    requires turn { HasTurn hand.old }
    requires mirror { IsMirror hand.old (face_in hand.old).list (face_in hand.old) }
    requires event { OpensNext (board_in hand.old) least answer board }
    requires picked { J.after ≡ kept_face (face_in hand.old) (marks_opened (face_in hand.old).marks least answer) ∷ [] }
    ensures resting { IsResting hand.new }
    ensures state { state_of hand.new ≡ pass_of hand.old.place.table_id
        (kept_face (face_in hand.old) (marks_opened (face_in hand.old).marks least answer)) }
    ensures same { IsSameSeat hand.old.place hand.new.place × (hand.new.first ≡ hand.old.first) × (hand.new.number ≡ hand.old.number) }
{
    mark_opened(&mut hand.marks, least, answer);
    hand.turns += 1;
    end_as::<J>(gate, hand, board);
}

fn mark_opened(marks: &mut Vec<PassMark>, least: u32, answer: Option<u32>)
    ensures { marks.new.items ≡ shown_opened marks.old.items least answer }
{
    match answer {
        None => close(marks, Closing::All),
        Some(found) => close(marks, Closing::Passed(least, found)),
    }
}

/// Ends a turn in which the pass was shown the list, which it has copied.
fn end_look<J: After<Faces>>(gate: &Gate, hand: &mut Hand, board: Board, ticket: u64)
    requires own { hand.old.place.table_id ≡ gate.now.table.shared.table_id }
    requires turn { HasTurn hand.old }
    requires mirror { IsMirror hand.old (board_in hand.old).entries (face_in hand.old) }
    requires ticket { (ticket ≡ ticket_in hand.old) × (ticket ≤ most_tickets) }
    requires event { board ≡ shown_to (board_in hand.old) hand.old.number }
    requires picked { J.after ≡ shown_face (face_in hand.old)
        (shown_to (board_in hand.old) hand.old.number) (ticket_in hand.old) (face_in hand.old).marks ∷ [] }
    ensures resting { IsResting hand.new }
    ensures state { state_of hand.new ≡ pass_of hand.old.place.table_id (shown_face (face_in hand.old)
        (shown_to (board_in hand.old) hand.old.number) (ticket_in hand.old) (face_in hand.old).marks) }
    ensures same { IsSameSeat hand.old.place hand.new.place × (hand.new.first ≡ hand.old.first) × (hand.new.number ≡ hand.old.number) }
{
    hand.stamp = ticket + 1;
    hand.turns += 1;
    end_as::<J>(gate, hand, board);
}

/// Takes a turn, in which the pass gets the whole list.
pub fn look_in<R: Wait>(gate: &Gate, rt: &R, hand: &mut Hand) -> Result<(), AllocError>
    requires own { hand.old.place.table_id ≡ gate.now.table.shared.table_id }
    requires resting { IsResting hand.old }
    requires turns { hand.old.turns + 1 < 2 ^ 32 }
    ensures resting { IsResting hand.new }
    ensures ok { OnOk result (HasLooked (ledger_of hand.old.place.table_id hand.old.first.value.value) (state_of hand.old) (state_of hand.new)) }
    ensures err { OnErr result (IsRefused (state_of hand.old) (state_of hand.new)) }
    ensures same { IsSameSeat hand.old.place hand.new.place × (hand.new.first ≡ hand.old.first) × (hand.new.number ≡ hand.old.number) }
{
    let (ticket, mut board) = begin(gate, rt, hand);
    match copy_missing(&mut hand.entries, board.entries()) {
        Ok(()) => {
            board.look(hand.number);
            board.holds();
            end_look::<Brand>(gate, hand, board, ticket);
            Ok(())
        }
        Err(_) => {
            end_rest::<Brand>(gate, hand, board);
            Err(AllocError)
        }
    }
}

/// Takes a turn, in which the outcome is handed in.
pub fn finish_in<R: Wait>(
    gate: &Gate,
    rt: &R,
    hand: &mut Hand,
    property: u32,
    outcome: Outcome,
) -> Finished
    requires own { hand.old.place.table_id ≡ gate.now.table.shared.table_id }
    requires resting { IsResting hand.old }
    requires turns { hand.old.turns + 1 < 2 ^ 32 }
    requires served { Contains (properties_of hand.old.first.value.value.served) property }
    requires outcome { IsTrueOf hand.old.first.value.value.circuit (face_in hand.old).list property outcome }
    ensures resting { IsResting hand.new }
    ensures finished { HasFinished (ledger_of hand.old.place.table_id hand.old.first.value.value)
        (state_of hand.old) property outcome result (state_of hand.new) }
    ensures same { IsSameSeat hand.old.place hand.new.place × (hand.new.first ≡ hand.old.first) × (hand.new.number ≡ hand.old.number) }
{
    let (_ticket, mut board) = begin(gate, rt, hand);
    outcomes_stay(&**board.circuit());
    let kept = Snapshot::of(&outcome);
    let answer = board.finish(hand.number, property, outcome);
    board.holds();
    end_finish::<Brand>(gate, hand, board, property, &kept, answer);
    answer
}

/// Takes a turn, in which an open property is asked for.
pub fn next_open_in<R: Wait>(gate: &Gate, rt: &R, hand: &mut Hand, from: u32) -> Option<u32>
    requires own { hand.old.place.table_id ≡ gate.now.table.shared.table_id }
    requires resting { IsResting hand.old }
    requires turns { hand.old.turns + 1 < 2 ^ 32 }
    ensures resting { IsResting hand.new }
    ensures opened { HasOpened (ledger_of hand.old.place.table_id hand.old.first.value.value)
        (state_of hand.old) from result (state_of hand.new) }
    ensures same { IsSameSeat hand.old.place hand.new.place × (hand.new.first ≡ hand.old.first) × (hand.new.number ≡ hand.old.number) }
{
    let (_ticket, mut board) = begin(gate, rt, hand);
    let answer = board.next_open(hand.number, from);
    board.holds();
    end_open::<Brand>(gate, hand, board, from, answer);
    answer
}

/// Puts the entry at the end of the list of the pass, where it was appended.
fn keep(entries: &mut Vec<Arc<Checked>>, entry: Arc<Checked>, answer: Posted)
    requires { (length entries.old.items < vec_capacity entries.old) ⊎ scanning.IsRefused answer }
    ensures entries { map arc_value entries.new.items
        ≡ entries_after (map arc_value entries.old.items) (arc_value entry) answer }
    ensures room { vec_capacity entries.new ≡ vec_capacity entries.old }
{
    match answer {
        Posted::Appended(_) => entries.push_reserved(entry),
        Posted::Stale(_) | Posted::Full | Posted::Closed => {}
    }
}

fn mark_posted(marks: &mut Vec<PassMark>, answer: Posted)
    ensures { marks.new.items ≡ shown_posted marks.old.items answer }
{
    match answer {
        Posted::Closed => close(marks, Closing::All),
        Posted::Appended(_) | Posted::Stale(_) | Posted::Full => {}
    }
}

fn is_appended(answer: Posted) -> bool
    ensures { result ≡ was_appended answer }
{
    match answer {
        Posted::Appended(_) => true,
        Posted::Stale(_) | Posted::Full | Posted::Closed => false,
    }
}

/// Ends a turn in which an entry was posted.
fn end_post<J: After<Faces>>(
    gate: &Gate,
    hand: &mut Hand,
    board: Board,
    ticket: u64,
    entry: Arc<Checked>,
    answer: Posted,
)
    requires own { hand.old.place.table_id ≡ gate.now.table.shared.table_id }
    requires turn { HasTurn hand.old }
    requires mirror { IsMirror hand.old (board_in hand.old).entries (face_in hand.old) }
    requires ticket { (ticket ≡ ticket_in hand.old) × (ticket ≤ most_tickets) }
    requires boards { IsBoard (board_in hand.old) × IsBoard board }
    requires may { MayPost (board_in hand.old) hand.old.number (arc_value entry) }
    requires turned { FromWorker (arc_value entry).origin (λ work. work.turn ≡ (face_in hand.old).turns) }
    requires event { Posts (board_in hand.old) hand.old.number (arc_value entry) answer board }
    requires picked { J.after ≡ shown_face (face_in hand.old)
        board (ticket_in hand.old) (marks_posted (face_in hand.old).marks answer) ∷ [] }
    ensures resting { IsResting hand.new }
    ensures state { state_of hand.new ≡ pass_of hand.old.place.table_id (shown_face (face_in hand.old)
        board (ticket_in hand.old) (marks_posted (face_in hand.old).marks answer)) }
    ensures same { IsSameSeat hand.old.place hand.new.place × (hand.new.first ≡ hand.old.first) × (hand.new.number ≡ hand.old.number) }
{
    keep(&mut hand.entries, entry, answer);
    mark_posted(&mut hand.marks, answer);
    hand.stamp = ticket + 1;
    hand.turns += 1;
    if is_appended(answer) {
        end_longer_as::<J>(gate, hand, board);
    } else {
        end_as::<J>(gate, hand, board);
    }
}

/// Takes a turn, in which the entry is posted and the pass gets the whole list as it then is.
pub fn post_in<R: Wait>(
    gate: &Gate,
    rt: &R,
    hand: &mut Hand,
    entry: &Arc<Checked>,
) -> Result<Posted, AllocError>
    requires own { hand.old.place.table_id ≡ gate.now.table.shared.table_id }
    requires resting { IsResting hand.old }
    requires turns { hand.old.turns + 1 < 2 ^ 32 }
    requires may { MayPassPost (ledger_of hand.old.place.table_id hand.old.first.value.value) (state_of hand.old) (arc_value entry.now) }
    ensures resting { IsResting hand.new }
    ensures ok { IfOk result (λ answer. HasPosted (ledger_of hand.old.place.table_id hand.old.first.value.value)
        (state_of hand.old) (arc_value entry.now) answer (state_of hand.new)) }
    ensures err { OnErr result (IsRefused (state_of hand.old) (state_of hand.new)) }
    ensures same { IsSameSeat hand.old.place hand.new.place × (hand.new.first ≡ hand.old.first) × (hand.new.number ≡ hand.old.number) }
{
    let mine = Arc::try_clone(entry)?;
    let theirs = Arc::try_clone(entry)?;
    let (ticket, mut board) = begin(gate, rt, hand);
    match copy_missing(&mut hand.entries, board.entries()) {
        Ok(()) => {
            older_views(&**board.circuit());
            let answer = board.post(hand.number, theirs);
            board.holds();
            end_post::<Brand>(gate, hand, board, ticket, mine, answer);
            Ok(answer)
        }
        Err(_) => {
            end_rest::<Brand>(gate, hand, board);
            Err(AllocError)
        }
    }
}
