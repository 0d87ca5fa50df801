//! A lock whose turns are served in the order of tickets. The main type is `Lock`.
//!
//! It has three words, the ticket that is drawn next, the ticket that is served, and the front, which is the size of the
//! value, and one slot, which holds the value while no turn is held.

ghost use Rattle.std.specs.Prelude.{◌≡◌, ◌+◌, ◌-◌, ◌<◌, ◌≤◌, [], ◌∷◌, None, Some, IfOk, MatchBool};
ghost use Rattle.wall_ledger.specs.declared.lock.Stage.TheVariants.{Idle, Waiting, Holding};
ghost use Rattle.wall_ledger.specs.Tickets.{most_tickets, idle, waiting, staged, holding, raise_of, view_of, IsSameSeat, IsIdle, IsLonger, IsLeaving, IsLeavingLonger, Learns, Sees, Forks, Merges, IsAlone, IsLast};

use crate::lock::plays::{Cut, Draw, Glue, Learn, PassOn, Raise, Watch};
use atomic_table::{Seat, Table, TableRule};
use std::alloc::{AllocError, Global};
use std::marker::PhantomData;
use std::sync::Wait;
use std::thread;

mod plays;

/// What the user of a lock keeps at any time: of the number of turns that were taken, the value under the lock, and what
/// each seat knows.
pub trait Rule<T, V, K> {
    ghost use Rattle.std.specs.Prelude.{ℕ, List};

    ghost holds: { K → ℕ → T → List V → Type 0 };

    /// What the first seat knows.
    ghost first: { K → V };

    /// How much was added to the value.
    ghost size: { T → ℕ };

    /// A seat that knows this may take turns.
    ghost active: { V → Type 0 };
}

/// What a seat finds of the value when its turn comes, by its ticket and by what it knows.
pub trait Lesson<T, V> {
    ghost use Rattle.std.specs.Prelude.{ℕ};

    ghost fact: { ℕ → V → T → Type 0 };
}

/// What a seat knows after its turn.
pub trait After<V> {
    ghost after: { V };
}

/// What a seat that watches without a ticket comes to know.
pub trait Sight<V> {
    ghost then: { V → V → Type 0 };
}

/// How a seat is split: what each of both then knows, and how many tickets the second may draw.
pub trait Part<V> {
    ghost use Rattle.std.specs.Prelude.{ℕ};

    ghost left: { V → V };

    ghost right: { V → V };

    ghost part: { ℕ };
}

/// What a seat knows that has taken in another one, and what the other is left with.
pub trait Whole<V> {
    ghost both: { V → V → V };

    ghost spent: { V };
}

/// Where a seat stands: at rest; with a ticket; with the turn of its ticket and the value as it found it; and with the
/// turn, where the value was added to.
pub enum Stage<T> {
    Idle,
    Waiting(u64),
    Holding(u64, T),
    Raised(u64, T),
}

/// What a seat knows: where it stands, how many tickets it may still draw, and what its user knows. No value of it is
/// made.
pub struct Doing<T, V> {
    pub stage: Stage<T>,
    pub budget: u64,
    pub client: V,
}

/// What the lock keeps, over what its user keeps.
pub struct Turns<P> {
    rule: PhantomData<P>,
}

impl<T, V, K, P: Rule<T, V, K>> TableRule<Option<T>, Doing<T, V>, K> for Turns<P> {
    ghost use Rattle.wall_ledger.specs.Tickets.{Queued, idle, most_tickets};

    ghost holds = { λ key. Queued P.size P.active (P.holds key) };

    ghost first = { λ key. idle most_tickets (P.first key) };
}

/// A seat at the lock.
pub type Place<T, V> = Seat<Option<T>, Doing<T, V>>;

/// A value that threads share, one after the other.
#[derive(Drop)]
pub struct Lock<T, V, K, P: Rule<T, V, K>> {
    pub table: Table<Option<T>, Doing<T, V>, K, Turns<P>, Global>,
    ghost sized: { (table.shared.table_id.words ≡ 3) × (table.shared.table_id.slots ≡ 1) },
}

impl<T: Drop, V, K, P: Rule<T, V, K>> Lock<T, V, K, P> {
    /// A lock over the value, and the first seat.
    pub fn new(
        alloc: Global,
        value: T,
        about: &K,
    ) -> Result<(Lock<T, V, K, P>, Place<T, V>), AllocError>
        requires size { P.size value ≡ 0 }
        requires rule { P.holds about.now 0 value (P.first about.now ∷ []) }
        ensures key { IfOk result (λ r. r.0.table.shared.key ≡ about.now) }
        ensures place { IfOk result (λ r. (r.1.table_id ≡ r.0.table.shared.table_id)
            × (r.1.me ≡ (idle most_tickets (P.first about.now), []))) }
    {
        let mut slots = Vec::new(alloc);
        slots.push(Some(value))?;
        match Table::new(alloc, &[0, 0, 0], slots, about) {
            Ok((table, place)) => Ok((Lock { table }, place)),
            Err(_) => Err(AllocError),
        }
    }

    /// Draws a ticket.
    fn draw(&self, place: &mut Place<T, V>) -> u64
        requires own { place.old.table_id ≡ self.now.table.shared.table_id }
        requires idle { IsIdle place.old }
        requires budget { 0 < place.old.me.0.budget }
        requires active { P.active (view_of place.old) }
        ensures same { IsSameSeat place.old place.new }
        ensures ticket { place.new.me ≡ (waiting place.old.me.0 result, []) }
        ensures few { result ≤ most_tickets }
    {
        self.table.shared.fetch_add::<Draw>(place, 0, 1)
    }

    /// Whether the ticket is served. The seat that finds it so takes the value.
    fn watch<M: Lesson<T, V>>(&self, place: &mut Place<T, V>, ticket: u64) -> bool
        requires own { place.old.table_id ≡ self.now.table.shared.table_id }
        requires waiting { (place.old.me.0.stage ≡ Waiting ticket) × (place.old.me.1 ≡ []) }
        requires learns { Learns (P.holds self.now.table.shared.key) place.old.id (view_of place.old) M.fact }
        ensures same { IsSameSeat place.old place.new }
        ensures found { MatchBool result
            ((x : T) × (place.new.me ≡ (staged place.old.me.0 (Holding ticket x), (0, Some x) ∷ []))
            × M.fact ticket (view_of place.old) x)
            (place.new.me ≡ place.old.me) }
    {
        self.table.shared.load::<Watch<M>>(place, 1) == ticket
    }

    /// Takes a turn, and with it the value and the number of the ticket. May wait; between two looks it yields the
    /// processor.
    pub fn enter<M: Lesson<T, V>, R: Wait>(&self, rt: &R, place: &mut Place<T, V>) -> (u64, T)
        requires own { place.old.table_id ≡ self.now.table.shared.table_id }
        requires idle { IsIdle place.old }
        requires budget { 0 < place.old.me.0.budget }
        requires active { P.active (view_of place.old) }
        requires learns { Learns (P.holds self.now.table.shared.key) place.old.id (view_of place.old) M.fact }
        ensures same { IsSameSeat place.old place.new }
        ensures turn { place.new.me ≡ (holding place.old.me.0 result.0 result.1, (0, None) ∷ []) }
        ensures learned { M.fact result.0 (view_of place.old) result.1 }
        ensures few { result.0 ≤ most_tickets }
    {
        let ticket = self.draw(place);
        for _ in rt.forever() {
            if self.watch::<M>(place, ticket) {
                return (ticket, self.take(place));
            }
            thread::yield_now();
        }
        unreachable!()
    }

    /// Takes the value out of the slot.
    fn take(&self, place: &mut Place<T, V>) -> T
        requires own { place.old.table_id ≡ self.now.table.shared.table_id }
        requires full { (x : T) × (place.old.me.1 ≡ (0, Some x) ∷ []) }
        ensures same { IsSameSeat place.old place.new }
        ensures empty { place.new.me ≡ (place.old.me.0, (0, None) ∷ []) }
        ensures value { place.old.me.1 ≡ (0, Some result) ∷ [] }
    {
        self.table.shared.exchange(place, 0, None).unwrap()
    }

    /// Lays the value into the slot.
    fn lay(&self, place: &mut Place<T, V>, value: T)
        requires own { place.old.table_id ≡ self.now.table.shared.table_id }
        requires empty { place.old.me.1 ≡ (0, None) ∷ [] }
        ensures same { IsSameSeat place.old place.new }
        ensures full { place.new.me ≡ (place.old.me.0, (0, Some value) ∷ []) }
    {
        let _none = self.table.shared.exchange(place, 0, Some(value));
    }

    /// Raises the front, where the value in the slot is longer by one than it was.
    fn raise(&self, place: &mut Place<T, V>)
        requires own { place.old.table_id ≡ self.now.table.shared.table_id }
        requires longer { IsLonger P.size place.old }
        ensures same { IsSameSeat place.old place.new }
        ensures raised { place.new.me ≡ (staged place.old.me.0 (raise_of place.old.me.0.stage), place.old.me.1) }
    {
        self.table.shared.fetch_add::<Raise>(place, 2, 1);
    }

    /// Ends the turn: the value goes back to its slot, and the next ticket is served.
    pub fn leave<J: After<V>>(&self, place: &mut Place<T, V>, value: T)
        requires own { place.old.table_id ≡ self.now.table.shared.table_id }
        requires turn { IsLeaving (P.holds self.now.table.shared.key) P.size J.after value place.old }
        ensures same { IsSameSeat place.old place.new }
        ensures after { place.new.me ≡ (idle place.old.me.0.budget J.after, []) }
    {
        self.lay(place, value);
        self.table.shared.fetch_add::<PassOn<J>>(place, 1, 1);
    }

    /// Ends a turn in which the value became longer by one.
    pub fn leave_longer<J: After<V>>(&self, place: &mut Place<T, V>, value: T)
        requires own { place.old.table_id ≡ self.now.table.shared.table_id }
        requires turn { IsLeavingLonger (P.holds self.now.table.shared.key) P.size J.after value place.old }
        ensures same { IsSameSeat place.old place.new }
        ensures after { place.new.me ≡ (idle place.old.me.0.budget J.after, []) }
    {
        self.lay(place, value);
        self.raise(place);
        self.table.shared.fetch_add::<PassOn<J>>(place, 1, 1);
    }

    /// Watches without a ticket.
    pub fn learn<M: Sight<V>>(&self, place: &mut Place<T, V>)
        requires own { place.old.table_id ≡ self.now.table.shared.table_id }
        requires idle { IsIdle place.old }
        requires sees { Sees (P.holds self.now.table.shared.key) place.old.id (view_of place.old) M.then }
        ensures same { IsSameSeat place.old place.new }
        ensures idle { IsIdle place.new × (place.new.me.0.budget ≡ place.old.me.0.budget) }
        ensures learned { M.then (view_of place.old) (view_of place.new) }
    {
        self.table.shared.load::<Learn<M>>(place, 1);
    }

    /// Splits a seat.
    pub fn split<M: Part<V>>(&self, place: &mut Place<T, V>) -> Place<T, V>
        requires own { place.old.table_id ≡ self.now.table.shared.table_id }
        requires idle { IsIdle place.old }
        requires part { M.part ≤ place.old.me.0.budget }
        requires forks { Forks (P.holds self.now.table.shared.key) place.old.id
            (view_of place.old) (M.left (view_of place.old)) (M.right (view_of place.old)) }
        ensures same { IsSameSeat place.old place.new }
        ensures left { place.new.me ≡ (idle (place.old.me.0.budget - M.part) (M.left (view_of place.old)), []) }
        ensures right { (result.table_id ≡ place.old.table_id)
            × (result.me ≡ (idle M.part (M.right (view_of place.old)), [])) }
    {
        self.table.shared.split_seat::<Cut<M>>(place)
    }

    /// Takes in another seat.
    pub fn join<M: Whole<V>>(&self, place: &mut Place<T, V>, other: Place<T, V>)
        requires own { place.old.table_id ≡ self.now.table.shared.table_id }
        requires other { other.table_id ≡ self.now.table.shared.table_id }
        requires idle { IsIdle place.old × IsIdle other }
        requires merges { Merges (P.holds self.now.table.shared.key) place.old.id (view_of place.old) other.id (view_of other)
            (M.both (view_of place.old) (view_of other)) M.spent }
        ensures same { IsSameSeat place.old place.new }
        ensures whole { place.new.me
            ≡ (idle (place.old.me.0.budget + other.me.0.budget) (M.both (view_of place.old) (view_of other)), []) }
    {
        self.table.shared.join_seat::<Glue<M>>(place, other);
    }

    /// The value, once no other seat may have the turn.
    pub fn close(self, place: Place<T, V>) -> T
        requires own { place.table_id ≡ self.table.shared.table_id }
        requires idle { IsIdle place }
        requires alone { IsAlone (P.holds self.table.shared.key) P.active place.id (view_of place) }
        ensures { IsLast (P.holds self.table.shared.key) place.id (view_of place) result }
    {
        let Lock { table } = self;
        let mut closed = table.close_with(place);
        let value = closed.take(0);
        closed.free();
        value.unwrap()
    }
}
