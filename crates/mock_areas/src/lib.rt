// The areas of a lent store: eight slots of equal size, each free or held by an area's number. A write appends to its area's slot.

#![tactic(auto)]

ghost use Rattle.std.specs.Prelude.{◌≡◌, ◌+◌, ◌<◌, leb, length};
ghost use Rattle.mock_areas.specs.Slots.{passes, first_at, place, among_slots, place_among, fresh_areas, area_found};
ghost use Rattle.mock_areas.specs.Append.{held_by, AppendMeets, append_step, area_error_number};

use rule_number::RuleNumber;

const SLOTS: usize = 8;

// A slot: while it is held, by which number, and how many of its bytes are used. A free slot's number and count mean nothing.
// Stays a flag beside them: a caller may hand in any record, and an Option can't hold what a free slot has left over.
#[derive(Clone, Copy, Debug, PartialEq, Eq)]
pub struct Area {
    pub held: bool,
    pub number: u16,
    pub used: usize,
}

#[derive(Clone, Copy)]
pub struct Areas {
    pub slots: [Area; 8],
}

// Where an area's next bytes go: behind those that are used in its slot.
#[derive(Clone, Copy)]
pub struct Place {
    pub slot: usize,
    pub used: usize,
}

// Where an area's bytes stand in the store.
#[derive(Clone, Copy, Debug, PartialEq, Eq)]
pub struct Stretch {
    pub start: usize,
    pub length: usize,
}

#[derive(Clone, Copy, Debug, PartialEq, Eq)]
pub enum AreaError {
    // 58
    NoSlot,
    // 59
    SlotFull,
}

impl RuleNumber for AreaError {
    ghost rule_number = { area_error_number };

    fn number(self) -> u8 {
        match self {
            AreaError::NoSlot => 58,
            AreaError::SlotFull => 59,
        }
    }
}

// Stays a pair: document 01 has the record handed back beside the answer.
#[derive(Clone, Copy)]
pub struct AreaStep {
    pub answer: Result<(), AreaError>,
    pub areas: Areas,
}

// Whether a slot is held by this number, or free where none is wanted.
#[tactic(auto, unfolding(crate::specs::Slots::passes))]
fn fits(area: Area, wanted: Option<u16>) -> bool
    ensures { result ≡ passes wanted area }
{
    area.held.then_some(area.number) == wanted
}

// The first slot that is as wanted.
fn first(slots: [Area; 8], wanted: Option<u16>) -> Option<usize>
    ensures { result ≡ among_slots (first_at (passes wanted) slots) }
{
    slots.iter().position(|&area| fits(area, wanted))
}

// Whether `more` bytes fit behind those that are used.
fn has_room(size: usize, used: usize, more: usize) -> bool
    ensures { result ≡ leb (used + more) size }
{
    used <= size && more <= size - used
}

impl Areas {
    pub fn new() -> Areas
        ensures { result ≡ fresh_areas }
    {
        let free = Area {
            held: false,
            number: 0,
            used: 0,
        };
        Areas { slots: [free; 8] }
    }

    fn place(self, number: u16) -> Option<Place>
        ensures { result ≡ place_among (place number self.slots) }
    {
        let slots = self.slots;
        if let Some(slot) = first(slots, Some(number)) {
            return Some(Place {
                slot,
                used: slots[slot].used,
            });
        }
        let slot = first(slots, None)?;
        Some(Place { slot, used: 0 })
    }

    pub fn find(self, number: u16, store_length: usize) -> Option<Stretch>
        ensures { result ≡ area_found self number store_length }
    {
        let slots = self.slots;
        let at = first(slots, Some(number))?;
        Some(Stretch {
            start: at * (store_length / SLOTS),
            length: slots[at].used,
        })
    }

    #[tactic(auto, unfolding(crate::specs::Append::held_by))]
    fn hold(mut self, at: usize, number: u16, used: usize) -> Areas
        requires { at < 8 }
        ensures { result ≡ held_by self at number used }
    {
        self.slots[at] = Area {
            held: true,
            number,
            used,
        };
        self
    }

    pub fn append(self, number: u16, data: &[u8], store: &mut [u8]) -> AreaStep
        ensures { AppendMeets result store.new (append_step self number «data».now store.old) }
    {
        let Some(place) = self.place(number) else {
            return AreaStep {
                answer: Err(AreaError::NoSlot),
                areas: self,
            };
        };
        let slot = place.slot;
        let used = place.used;
        let size = store.len() / SLOTS;
        if !has_room(size, used, data.len()) {
            return AreaStep {
                answer: Err(AreaError::SlotFull),
                areas: self,
            };
        }
        let at = slot * size + used;
        store[at..at + data.len()].copy_from_slice(data);
        AreaStep {
            answer: Ok(()),
            areas: self.hold(slot, number, used + data.len()),
        }
    }
}
