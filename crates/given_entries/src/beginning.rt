//! The list with which a search begins. The main call is `load_list`.

ghost use Rattle.std.specs.Prelude.{◌≡◌, ◌⊎◌, ◌≤◌, ℕ, List, [], Option, Some, Err, map, length, option_map, All, IfOk, IfErr};
ghost use Rattle.std.specs.Arc.{arc_value};
ghost use Rattle.edge.specs.Faults.{Rose, NoneFell};
ghost use Rattle.edge.specs.Reads.{KeepsTexts, Reads};
ghost use Rattle.edge.specs.Told.{MayBe};
ghost use Rattle.entry.specs.declared.origins.Origin.TheVariants.{Given};
ghost use Rattle.entry.specs.CheckedEntries.{CheckedEntry};
ghost use Rattle.sheet_answers.specs.Ends.{has_unread, read_failed, refused_memory, IsUnended};
ghost use Rattle.wall_store.specs.Boards.{IsSoundList, most_entries};
ghost use Rattle.given_entries.specs.Given.{AreProvedInTurn, list_of};
ghost use Rattle.given_entries.specs.Listing.{DecidesList};
ghost use Rattle.given_entries.specs.Beginning.{told_of, OfClaimed, IsClaimed, BeginsWith};
ghost use Rattle.given_entries.specs.Beginning.{HasNoList, IsRefusedWith, GivesList, ReadsIfNamed};

use crate::listing::given_list;
use crate::loading::load_entries;
use circuit::Circuit;
use edge::Shelf;
use entry::{Checked, Entry};
use items::Items;
use sheet_answers::JudgeEnd;
use std::alloc::Global;
use std::sync::Arc;

/// The list with which a search begins: the entries of the answer that the shelf holds under the name, which is read and
/// judged as `load_entries` does; or an empty one where no answer is named.
pub fn load_list<H: Shelf>(
    alloc: Global,
    circuit: &Arc<Circuit>,
    shelf: &mut H,
    answer: Option<&str>,
) -> Result<Vec<Arc<Checked>>, JudgeEnd>
    // What is answered is so, of the text that the shelf tells;
    ensures list { IfOk result (λ list. OfClaimed (told_of (H.held shelf.old) (option_map (λ name. name.now) answer.entry))
        (λ claimed. BeginsWith (arc_value circuit.now) claimed (map arc_value list.items))) }
    ensures fault { IfErr result (λ end. IsUnended end
        ⊎ OfClaimed (told_of (H.held shelf.old) (option_map (λ name. name.now) answer.entry)) (λ claimed.
        HasNoList (arc_value circuit.now) claimed end)) }
    // and what is so is answered, unless memory is refused or a read fails.
    ensures refused { (claimed : Option (List ℕ)) (end : JudgeEnd)
        → IsClaimed (told_of (H.held shelf.old) (option_map (λ name. name.now) answer.entry)) claimed
        → HasNoList (arc_value circuit.now) claimed end → IsRefusedWith end result }
    ensures accepted { (claimed : Option (List ℕ)) (list : List CheckedEntry)
        → IsClaimed (told_of (H.held shelf.old) (option_map (λ name. name.now) answer.entry)) claimed
        → BeginsWith (arc_value circuit.now) claimed list → GivesList list result }
    // The list is one that a search takes.
    ensures few { IfOk result (λ list. length list.items ≤ most_entries) }
    ensures sound { IfOk result (λ list. IsSoundList (arc_value circuit.now) (map arc_value list.items)) }
    ensures origins { IfOk result (λ list. All (λ e. e.origin ≡ Given) (map arc_value list.items)) }
    ensures read { result ≡ Err read_failed
        → (name : List ℕ) × (option_map (λ name. name.now) answer.entry ≡ Some name)
        × Rose (H.faults shelf.old name) (H.faults shelf.new name) }
    ensures reads { ReadsIfNamed H.reads (option_map (λ name. name.now) answer.entry) (has_unread result) shelf.old shelf.new }
    ensures counts { NoneFell (H.faults shelf.old) (H.faults shelf.new) }
    ensures kept { KeepsTexts (H.held shelf.old) (H.held shelf.new) }
{
    match answer {
        Some(name) => listed(alloc, circuit, shelf, name),
        None => Ok(Vec::new(alloc)),
    }
}

// The same of an answer that is named.
fn listed<H: Shelf>(
    alloc: Global,
    circuit: &Arc<Circuit>,
    shelf: &mut H,
    name: &str,
) -> Result<Vec<Arc<Checked>>, JudgeEnd>
    ensures list { IfOk result (λ list. (text : List ℕ) × MayBe (H.held shelf.old name.now) text
        × BeginsWith (arc_value circuit.now) (Some text) (map arc_value list.items)) }
    ensures fault { IfErr result (λ end. IsUnended end
        ⊎ ((text : List ℕ) × MayBe (H.held shelf.old name.now) text × DecidesList (arc_value circuit.now) text (Err end))) }
    ensures refused { (text : List ℕ) (end : JudgeEnd) → H.held shelf.old name.now ≡ Some text
        → DecidesList (arc_value circuit.now) text (Err end) → IsRefusedWith end result }
    ensures accepted { (text : List ℕ) (list : List CheckedEntry) → H.held shelf.old name.now ≡ Some text
        → BeginsWith (arc_value circuit.now) (Some text) list → GivesList list result }
    ensures few { IfOk result (λ list. length list.items ≤ most_entries) }
    ensures sound { IfOk result (λ list. IsSoundList (arc_value circuit.now) (map arc_value list.items)) }
    ensures origins { IfOk result (λ list. All (λ e. e.origin ≡ Given) (map arc_value list.items)) }
    ensures read { result ≡ Err read_failed → Rose (H.faults shelf.old name.now) (H.faults shelf.new name.now) }
    ensures reads { Reads H.reads name.now (has_unread result) shelf.old shelf.new }
    ensures counts { NoneFell (H.faults shelf.old) (H.faults shelf.new) }
    ensures kept { KeepsTexts (H.held shelf.old) (H.held shelf.new) }
{
    match load_entries(alloc, circuit, shelf, name) {
        Ok(entries) => list_from(alloc, circuit, entries),
        Err(end) => Err(end),
    }
}

// The list of the entries that were loaded.
fn list_from(
    alloc: Global,
    circuit: &Arc<Circuit>,
    entries: Items<Entry>,
) -> Result<Vec<Arc<Checked>>, JudgeEnd>
    requires { AreProvedInTurn (arc_value circuit.now) [] entries }
    ensures list { IfOk result (λ list. map arc_value list.items ≡ list_of (arc_value circuit.now) entries) }
    ensures count { IfOk result (λ list. length list.items ≡ length entries) }
    ensures sound { IfOk result (λ list. IsSoundList (arc_value circuit.now) (map arc_value list.items)) }
    ensures origins { IfOk result (λ list. All (λ e. e.origin ≡ Given) (map arc_value list.items)) }
    ensures ended { IfErr result (λ end. end ≡ refused_memory) }
{
    match given_list(alloc, circuit, entries) {
        Ok(list) => Ok(list),
        Err(refused) => Err(JudgeEnd::from(refused)),
    }
}
