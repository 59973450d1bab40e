// A bounded queue as a ring over borrowed slots. What waits is a list, the oldest first; an element that stays is never moved.
// What a place out of use holds is told by no answer.
#![tactic(auto)]

ghost use Rattle.std.specs.Prelude.{◌≡◌, ◌<◌, ◌≤◌, ◌++◌, length, nat_lt, slice_set};
ghost use Rattle.std.specs.List.{slice_get};
ghost use Rattle.queue.specs.Queue.{contents, vacant, has_room, with_one, oldest, younger, ahead, start_of, place_of};

// Which of the slots are in use: from the `first` on, round the end, `used` of them.
// The slots are lent for each call, and not held beside it, so that one text serves all that hold slots.
// Every value has a meaning over every slice: a `first` past the slots means 0, and a `used` above their number means all.
#[derive(Clone, Copy, PartialEq, Eq, Debug)]
pub struct Ring {
    first: usize,
    used: usize,
}

impl Ring {
    // A ring on which nothing waits, over whatever slots.
    pub fn new() -> Ring
        ensures { result ≡ vacant }
    {
        Ring { first: 0, used: 0 }
    }

    pub fn clear(&mut self)
        ensures { self.new ≡ vacant }
    {
        *self = Ring::new();
    }

    // How many wait.
    pub fn count<T>(&self, slots: &[T]) -> usize
        ensures all { result ≡ length (contents slots.now self.now) }
        ensures within { result ≤ length slots.now }
    {
        self.used.min(slots.len())
    }

    // One more at the end, if there is room: whether there was. The caller still has the element, a copy, so an
    // error would have nothing to hand back.
    pub fn put<T: Copy>(&mut self, slots: &mut [T], x: T) -> bool
        ensures answer { result ≡ has_room slots.old self.old }
        ensures after { contents slots.new self.new ≡ with_one slots.old self.old x }
    {
        let waiting = self.count(slots);
        if waiting >= slots.len() {
            return false;
        }
        let place = self.place(slots.len(), waiting);
        slots[place] = x;
        self.used = waiting + 1;
        true
    }

    // The oldest, which leaves.
    pub fn take<T: Copy>(&mut self, slots: &[T]) -> Option<T>
        ensures answer { result ≡ oldest (contents slots.now self.old) }
        ensures after { contents slots.now self.new ≡ younger (contents slots.now self.old) }
    {
        let oldest = self.look(slots, 0)?;
        self.used = self.count(slots) - 1;
        self.first = self.start(slots.len()) + 1;
        Some(oldest)
    }

    // What waits, the oldest first, as it stands in the slots: up to their end, and round from their start on.
    pub fn as_slices<'a, T>(&self, slots: &'a [T]) -> (&'a [T], &'a [T])
        ensures all { result.0.now ++ result.1.now ≡ contents slots.now self.now }
        ensures first { result.0.now ≡ ahead slots.now self.now }
    {
        let waiting = self.count(slots);
        let (back, front) = slots.split_at(self.start(slots.len()));
        let ahead = waiting.min(front.len());
        (&front[..ahead], &back[..waiting - ahead])
    }

    // The i-th from the oldest on, which stays.
    pub fn look<T: Copy>(&self, slots: &[T], i: usize) -> Option<T>
        ensures { result ≡ slice_get (contents slots.now self.now) i }
    {
        (i < self.count(slots)).then(|| slots[self.place(slots.len(), i)])
    }

    // Another value for the i-th from the oldest on: whether there is an i-th. As for `put`, an error would have nothing to hand back.
    pub fn replace<T: Copy>(&self, slots: &mut [T], i: usize, x: T) -> bool
        ensures answer { result ≡ nat_lt i (length (contents slots.old self.now)) }
        ensures after { contents slots.new self.now ≡ slice_set (contents slots.old self.now) i x }
    {
        if i >= self.count(slots) {
            return false;
        }
        let place = self.place(slots.len(), i);
        slots[place] = x;
        true
    }

    // Where the oldest stands, of so many places.
    fn start(&self, places: usize) -> usize
        ensures at { result ≡ start_of self.now.first places }
        ensures within { result ≤ places }
    {
        if self.first < places { self.first } else { 0 }
    }

    // The place of the i-th from the oldest on, round the end; in range where i is.
    fn place(&self, places: usize, i: usize) -> usize
        ensures at { result ≡ place_of self.now.first places i }
        ensures within { i < places → result < places }
    {
        let start = self.start(places);
        let to_end = places - start;
        if i < to_end { start + i } else { i - to_end }
    }
}
