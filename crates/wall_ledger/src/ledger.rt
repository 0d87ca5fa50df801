//! Ledgers and their passes. The main types are `Ledger` and `Pass`.

ghost use Rattle.std.specs.Prelude.{◌≡◌, ℕ, ◌+◌, ◌^◌, ◌<◌, ◌≤◌, [], ◌∷◌, ◌++◌, map, length, Contains, All, AllPairs, IfOk, OnOk, OnErr};
ghost use Rattle.std.specs.Arc.{arc_value};
ghost use Rattle.entry.specs.CheckedEntries.{viewed};
ghost use Rattle.entry.specs.declared.origins.Origin.TheVariants.{Given};
ghost use Rattle.wall_store.specs.Boards.{IsTrueOf, IsSoundList, most_entries, plain, properties_of};
ghost use Rattle.wall_ledger.specs.Passes.{MayPassPost, OwnTurns, new_passes, shown_of};
ghost use Rattle.wall_ledger.specs.Turns.{AreAll, AreOf, HasLooked, HasPosted, HasFinished, HasOpened, HaveMet, IsBegun, IsClosed, IsRefused};
ghost use Rattle.wall_ledger.specs.Tickets.{idle, most_tickets, view_of, IsIdle};
ghost use Rattle.wall_ledger.specs.Rules.{first_faces};
ghost use Rattle.wall_ledger.specs.Seats.{face_of, faces_of, IsStart};
ghost use Rattle.wall_ledger.specs.Hands.{ledger_of};

use crate::faces::Faces;
use crate::lock::{Lock, Place};
use crate::making::{blank_for, given_with_room, seat_hand};
use crate::marks::{Shown, shown_in};
use crate::meeting::{Both, take_list};
use crate::pass::{Gate, Hand, Start, finish_in, look_in, next_open_in, post_in};
use circuit::Circuit;
use entry::Checked;
use std::alloc::{AllocError, Global};
use std::marker::Model;
use std::snapshot::Snapshot;
use std::sync::{Arc, Wait};
use wall_store::{Board, Finished, Outcome, Posted};

/// A board behind a lock. Threads share it; each uses it by a pass of its own.
#[derive(Drop)]
pub struct Ledger {
    circuit: Arc<Circuit>,
    gate: Gate,
}

impl Model for Ledger {
    ghost use Rattle.wall_ledger.specs.Passes.{LedgerState};
    ghost use Rattle.wall_ledger.specs.Keeping.{ledger_as, IsStaffed};

    ghost Value = { LedgerState };

    ghost view = { ledger_as };

    ghost invariant = { IsStaffed };
}

/// What one thread knows of a ledger.
#[derive(Drop)]
pub struct Pass {
    hand: Hand,
}

impl Model for Pass {
    ghost use Rattle.wall_ledger.specs.Passes.{PassState};
    ghost use Rattle.wall_ledger.specs.Keeping.{pass_as, IsKept};

    ghost Value = { PassState };

    ghost view = { pass_as };

    ghost invariant = { IsKept };
}

/// The passes of a new ledger, at seats that are cut off from the first one.
fn seat_all(
    alloc: Global,
    gate: &Gate,
    place: Place<Board, Faces>,
    first: &Start,
    workers: u32,
    limit: u32,
    properties: &[u32],
    given: &[Arc<Checked>],
) -> Result<Vec<Pass>, AllocError>
    requires own { place.table_id ≡ gate.now.table.shared.table_id }
    requires place { place.me ≡ (idle most_tickets (first_faces first.now.value), []) }
    requires start { IsStart first.now.value }
    requires workers { first.now.value.workers ≡ workers }
    requires limit { first.now.value.limit ≡ limit }
    requires properties { properties_of first.now.value.served ≡ properties.now }
    requires given { first.now.value.entries ≡ map arc_value given.now }
    ensures { IfOk result (λ passes. passes.items ≡ new_passes (ledger_of gate.now.table.shared.table_id first.now.value) 0 workers) }
{
    let mut place = place;
    let mut passes = Vec::new(alloc);
    for number in 0..workers {
        let entries = given_with_room(alloc, given, limit)?;
        let marks = blank_for(alloc, properties)?;
        let hand = seat_hand(gate, &mut place, first, number, entries, marks);
        passes.push(Pass { hand })?;
    }
    Ok(passes)
}

impl Ledger {
    /// A ledger over a new board of the circuit, and a pass for each worker, numbered from 0 on. It serves these
    /// properties, each with its number and in ascending order, for 1 to 64 workers. The given entries, none of them a
    /// worker's, stand in front of the list, each sound behind those before it, and every pass has seen them; the list
    /// may grow by `limit` entries, but to no more than 65,536. The error is want of memory.
    pub fn new(
        alloc: Global,
        circuit: &Arc<Circuit>,
        properties: &[u32],
        workers: u32,
        limit: u32,
        given: &[Arc<Checked>],
    ) -> Result<(Ledger, Vec<Pass>), AllocError>
        requires ascend { AllPairs (λ i j. i < j) properties.now }
        requires properties { All (λ j. j < length (arc_value circuit.now).justice) properties.now }
        requires some_workers { 1 ≤ workers }
        requires few_workers { workers ≤ 64 }
        requires limit { limit ≤ most_entries }
        requires few_given { length given.now ≤ most_entries }
        requires given { IsSoundList (arc_value circuit.now) (map arc_value given.now) }
        requires origins { All (λ e. e.origin ≡ Given) (map arc_value given.now) }
        ensures { IfOk result (λ r. IsBegun (arc_value circuit.now) properties.now workers limit (map arc_value given.now) r.0 r.1.items) }
    {
        let kept = Arc::try_clone(circuit)?;
        let board = Board::new(alloc, circuit, properties, workers, limit, given)?;
        board.holds();
        let most = board.limit();
        let first = Snapshot::of(&board);
        let (gate, place) = Lock::new(alloc, board, &first)?;
        let passes = seat_all(
            alloc, &gate, place, &first, workers, most, properties, given,
        )?;
        let ledger = Ledger {
            circuit: kept,
            gate,
        };
        Ok((ledger, passes))
    }

    /// Takes a turn, in which the pass gets the whole list. May wait. The error is want of memory for the handles that
    /// the pass lacks; then the pass keeps what it had, but for a turn.
    pub fn look<R: Wait>(&self, rt: &R, pass: &mut Pass) -> Result<(), AllocError>
        requires own { pass.old.home ≡ self.now.home }
        requires turns { pass.old.turns + 1 < 2 ^ 32 }
        ensures ok { OnOk result (HasLooked self.now pass.old pass.new) }
        ensures err { OnErr result (IsRefused pass.old pass.new) }
    {
        look_in(&self.gate, rt, &mut pass.hand)
    }

    /// Takes a turn, in which the entry is posted and the pass gets the whole list as it then is. May wait. The answers
    /// are those of `Board::post`; at `Closed` the pass is marked closed for each property that it did not win. The
    /// error is want of memory for a handle of the entry or those that the pass lacks; then pass and board keep what
    /// they had, but that the pass may have had a turn more.
    pub fn post<R: Wait>(
        &self,
        rt: &R,
        pass: &mut Pass,
        entry: &Arc<Checked>,
    ) -> Result<Posted, AllocError>
        requires own { pass.old.home ≡ self.now.home }
        requires turns { pass.old.turns + 1 < 2 ^ 32 }
        requires may { MayPassPost self.now pass.old (arc_value entry.now) }
        ensures ok { IfOk result (λ answer. HasPosted self.now pass.old (arc_value entry.now) answer pass.new) }
        ensures err { OnErr result (IsRefused pass.old pass.new) }
    {
        post_in(&self.gate, rt, &mut pass.hand, entry)
    }

    /// Takes a turn, in which the outcome is handed in. May wait. `Won` comes where it is the first of its property, and
    /// the pass is marked so; `Closed` where the property has one, and the pass is marked closed, unless it won it.
    /// Takes no memory.
    pub fn finish<R: Wait>(
        &self,
        rt: &R,
        pass: &mut Pass,
        property: u32,
        outcome: Outcome,
    ) -> Finished
        requires own { pass.old.home ≡ self.now.home }
        requires turns { pass.old.turns + 1 < 2 ^ 32 }
        requires served { Contains self.now.properties property }
        requires outcome { IsTrueOf self.now.circuit pass.old.list property outcome }
        ensures { HasFinished self.now pass.old property outcome result pass.new }
    {
        finish_in(&self.gate, rt, &mut pass.hand, property, outcome)
    }

    /// Takes a turn, in which a property without an outcome is asked for: the least from `from` on, or the least of all
    /// where there is none from there on; `None` where each has one. The pass is marked closed for each property that is
    /// passed over, at `None` for all, but where it won. May wait. Takes no memory.
    pub fn next_open<R: Wait>(&self, rt: &R, pass: &mut Pass, from: u32) -> Option<u32>
        requires own { pass.old.home ≡ self.now.home }
        requires turns { pass.old.turns + 1 < 2 ^ 32 }
        ensures { HasOpened self.now pass.old from result pass.new }
    {
        next_open_in(&self.gate, rt, &mut pass.hand, from)
    }
}

impl Ledger {
    /// The circuit.
    pub fn circuit(&self) -> &Arc<Circuit>
        ensures { arc_value result.now ≡ self.now.circuit }
    {
        &self.circuit
    }

    /// Both passes get the list and the stamp of the one whose stamp is greater. Takes no turn. The error is want of
    /// memory for the handles that the other lacks; then both keep what they had.
    pub fn meet(&self, one: &mut Pass, other: &mut Pass) -> Result<(), AllocError>
        requires own { (one.old.home ≡ self.now.home) × (other.old.home ≡ self.now.home) }
        ensures ok { OnOk result (HaveMet one.old other.old one.new other.new) }
        ensures err { OnErr result ((one.new ≡ one.old) × (other.new ≡ other.old)) }
    {
        if one.stamp() <= other.stamp() {
            self.share(one, other)
        } else {
            self.share(other, one)
        }
    }

    /// The first pass gets the list and the stamp of the second, which has seen no less.
    fn share(&self, less: &mut Pass, more: &mut Pass) -> Result<(), AllocError>
        requires own { (less.old.home ≡ self.now.home) × (more.old.home ≡ self.now.home) }
        requires stamps { less.old.stamp ≤ more.old.stamp }
        ensures ok { OnOk result (HaveMet less.old more.old less.new more.new) }
        ensures turned { OnOk result (HaveMet more.old less.old more.new less.new) }
        ensures err { OnErr result ((less.new ≡ less.old) × (more.new ≡ more.old)) }
        ensures err_turned { OnErr result ((more.new ≡ more.old) × (less.new ≡ less.old)) }
    {
        take_list(&self.gate, &mut less.hand, &mut more.hand)
    }

    /// The board, once all passes are handed in. Takes no turn and no memory.
    pub fn close(self, passes: Vec<Pass>) -> Board
        requires all { AreAll self passes.items }
        requires own { AreOf self passes.items }
        ensures { IsClosed self passes.items result }
    {
        let Ledger { gate, .. } = self;
        let mut rest = passes;
        let first = rest.remove(0);
        let mut place = first.into_seat();
        gather(&gate, &mut place, rest);
        let board = gate.close(place);
        board.holds();
        board
    }
}

/// Takes the seats of these passes into one.
fn gather(gate: &Gate, place: &mut Place<Board, Faces>, passes: Vec<Pass>)
    requires own { place.old.table_id ≡ gate.now.table.shared.table_id }
    requires idle { IsIdle place.old }
    requires passes { All (λ p. p.home.lock ≡ gate.now.table.shared.table_id) passes.items }
    ensures own { place.new.table_id ≡ place.old.table_id }
    ensures idle { IsIdle place.new }
    ensures faces { view_of place.new ≡ view_of place.old ++ faces_of passes.items }
{
    let mut rest = passes;
    for number in 0..rest.len() {
        let _ = number;
        let pass = rest.remove(0);
        let seat = pass.into_seat();
        gate.join::<Both>(place, seat);
    }
}

impl Pass {
    /// The seat of the pass, which is at rest.
    fn into_seat(self) -> Place<Board, Faces>
        ensures own { result.table_id ≡ self.home.lock }
        ensures idle { IsIdle result }
        ensures faces { view_of result ≡ face_of self ∷ [] }
    {
        let Pass { hand } = self;
        let Hand { place, .. } = hand;
        place
    }

    /// The entries that the pass has seen.
    pub fn view(&self) -> &[Arc<Checked>]
        ensures checked { map arc_value result.now ≡ self.now.list }
        ensures viewed { viewed result.now ≡ plain self.now.list }
    {
        self.hand.entries.as_slice()
    }

    /// The number of the pass, which its entries have as their author.
    pub fn number(&self) -> u32
        ensures { result ≡ self.now.number }
    {
        self.hand.number
    }

    /// How many turns the pass has taken.
    pub fn turns(&self) -> u32
        ensures { result ≡ self.now.turns }
    {
        self.hand.turns
    }

    /// The stamp of its list: 0 at first, else one more than the ticket of the turn that the list is from.
    pub fn stamp(&self) -> u64
        ensures { result ≡ self.now.stamp }
    {
        self.hand.stamp
    }

    /// What the pass shows of a property; nothing of one that is not served.
    pub fn mark(&self, property: u32) -> Shown
        ensures { result ≡ shown_of self.now.marks property }
    {
        shown_in(&self.hand.marks, property)
    }

    /// Nothing: the law that the list of the pass is sound, and no longer than 65,536.
    pub fn holds(&self)
        ensures sound { IsSoundList self.now.home.first.circuit self.now.list }
        ensures few { length self.now.list ≤ most_entries }
    {
        let _ = &self.hand.number;
    }

    /// Nothing: the law that the turns in which the pass found its entries ascend, and are below the number of turns
    /// that it has had.
    pub fn own_turns(&self)
        ensures { OwnTurns self.now }
    {
        let _ = &self.hand.number;
    }
}

fn send<T: Send>() {}

/// Nothing: it has a proof only where a pass may be handed to another thread.
pub fn threads_hand_on_passes() {
    send::<Pass>();
}

fn share<T: Send + Sync>() {}

/// Nothing: it has a proof only where threads may share a ledger and hand it to each other.
pub fn threads_share_ledger() {
    share::<Ledger>();
}
