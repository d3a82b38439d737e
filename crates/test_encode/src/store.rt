// A list that has room for N items, without a heap.
use test_cases::case::first;

#[derive(Clone, Copy)]
pub struct Items<T, const N: usize> {
    room: [T; N],
    count: usize,
}

impl<T: Copy, const N: usize> Items<T, N> {
    // No item yet; the room is filled with `blank`.
    pub fn new(blank: T) -> Items<T, N> {
        Items {
            room: [blank; N],
            count: 0,
        }
    }

    // None where there is no room.
    pub fn push(&mut self, item: T) -> Option<()> {
        *self.room.get_mut(self.count)? = item;
        self.count += 1;
        Some(())
    }

    pub fn as_slice(&self) -> &[T] {
        first(&self.room, self.count)
    }

    pub fn len(&self) -> usize {
        self.count
    }

    pub fn is_empty(&self) -> bool {
        self.count == 0
    }

    pub fn get(&self, place: usize) -> Option<T> {
        self.as_slice().get(place).copied()
    }
}
