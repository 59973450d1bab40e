// The sixteen slots of the activity record in the order of their use, the least recent first.
ghost use Rattle.std.specs.Prelude.{◌≡◌, ◌<◌, ◌==◌, length, IfSome, position, slice_index};
ghost use Rattle.protocol.specs.World.{in_turn};
ghost use Rattle.protocol.specs.Activation.{touched};

use std::array;

#[derive(Clone, Copy)]
pub struct Recency {
    order: [usize; 16],
    ghost whole: { length order ≡ 16 },
}

impl Recency {
    // Slot 0 is the least recent.
    pub fn in_turn() -> Recency
        ensures { result.order ≡ in_turn }
    {
        Recency {
            order: array::from_fn(|slot| slot),
        }
    }

    // The slot at a place of the order; slot 0 past its end.
    pub fn slot_at(&self, place: usize) -> usize
        ensures { result ≡ slice_index self.now.order place }
    {
        self.order.get(place).copied().unwrap_or(0)
    }

    fn place_of(&self, slot: usize) -> Option<usize>
        ensures first { result ≡ position (λ held. held == slot) self.now.order }
        ensures within { IfSome result (λ p. p < 16) }
    {
        self.order.iter().position(|held| *held == slot)
    }

    // The slot becomes the most recent.
    pub fn touch(&mut self, slot: usize)
        ensures { self.new.order ≡ touched self.old.order slot }
    {
        if let Some(place) = self.place_of(slot) {
            self.order[place..].rotate_left(1);
        }
    }
}
