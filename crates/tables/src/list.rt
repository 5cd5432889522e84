// A list of bounded length over memory that the caller lends: one list for every element that can be copied.
ghost use Rattle.std.specs.Prelude.{◌≡◌, ◌-◌, [], ◌∷◌, ◌++◌, length, take, drop, if◌then◌else◌, slice_set};
ghost use Rattle.std.specs.List.{slice_get};
ghost use Rattle.tables.specs.Lists.{contents, memory, room, takes, takes_more, repeats, answer, answer_to, last, SameMemory};

// The refusal of a list that is full. A type of its own, since under `?` it becomes another refusal than that of a full store of notes.
#[derive(Clone, Copy, Debug, PartialEq, Eq)]
pub struct Full;

// A slice with a length beside it, as the memory is lent and there is no heap. That a call leaves the room and the memory as they were says something
// of the list before and after, which no invariant of the type can.
#[derive(Drop)]
pub struct List<'a, T> {
    items: &'a mut [T],
    len: usize,
}

impl<'a, T: Copy> List<'a, T> {
    // An empty list with room for as many elements as the memory has.
    pub fn over(items: &'a mut [T]) -> List<'a, T>
        ensures empty { contents result ≡ [] }
        ensures room { room result ≡ length items.old }
        ensures memory { result.items.ghost_name ≡ items.entry.ghost_name }
    {
        List { items, len: 0 }
    }

    // A list of the first elements that the memory holds, as many as `len` or all.
    pub fn holding(items: &'a mut [T], len: usize) -> List<'a, T>
        ensures held { contents result ≡ take len items.old }
        ensures room { room result ≡ length items.old }
        ensures memory { result.items.ghost_name ≡ items.entry.ghost_name }
    {
        List { items, len }
    }

    pub fn len(&self) -> usize
        ensures { result ≡ length (contents self.now) }
    {
        self.len.min(self.items.len())
    }

    // How many elements it can hold.
    pub fn room(&self) -> usize
        ensures { result ≡ room self.now }
    {
        self.items.len()
    }

    // All that the memory holds, behind the elements too.
    pub fn memory(&self) -> &[T]
        ensures { result.now ≡ memory self.now }
    {
        &*self.items
    }

    pub fn as_slice(&self) -> &[T]
        ensures { result.now ≡ contents self.now }
    {
        &self.items[..self.len()]
    }

    pub fn get(&self, i: usize) -> Option<T>
        ensures { result ≡ slice_get (contents self.now) i }
    {
        self.as_slice().get(i).copied()
    }

    pub fn last(&self) -> Option<T>
        ensures { result ≡ last (contents self.now) }
    {
        self.as_slice().last().copied()
    }

    // One element more, or a refusal exactly if the list is full; then nothing changes.
    pub fn push(&mut self, x: T) -> Result<(), Full>
        ensures answer { result ≡ answer self.old }
        ensures holds { contents self.new ≡ (if takes self.old then contents self.old ++ x ∷ [] else contents self.old) }
        ensures room { room self.new ≡ room self.old }
        ensures memory { SameMemory self.old self.new }
    {
        let n = self.len();
        if n >= self.items.len() {
            return Err(Full);
        }
        self.items[n] = x;
        self.len = n + 1;
        Ok(())
    }

    // More elements, or a refusal exactly if there is no room for all of them; then nothing changes.
    pub fn extend_from_slice(&mut self, more: &[T]) -> Result<(), Full>
        ensures answer { result ≡ answer_to (takes_more self.old (length more.now)) }
        ensures holds { contents self.new ≡ (if takes_more self.old (length more.now) then contents self.old ++ more.now else contents self.old) }
        ensures room { room self.new ≡ room self.old }
        ensures memory { SameMemory self.old self.new }
    {
        let n = self.len();
        if more.len() > self.items.len() - n {
            return Err(Full);
        }
        let end = n + more.len();
        self.items[n..end].copy_from_slice(more);
        self.len = end;
        Ok(())
    }

    // Elements that it holds once more, as many as `count` from `from` on, or a refusal exactly if it holds fewer or has no room for them; then nothing
    // changes.
    pub fn extend_from_within(&mut self, from: usize, count: usize) -> Result<(), Full>
        ensures answer { result ≡ answer_to (repeats self.old from count) }
        ensures holds { contents self.new ≡ (if repeats self.old from count then contents self.old ++ take count (drop from (contents self.old)) else contents self.old) }
        ensures room { room self.new ≡ room self.old }
        ensures memory { SameMemory self.old self.new }
    {
        let n = self.len();
        if from > n || count > n - from || count > self.items.len() - n {
            return Err(Full);
        }
        self.items.copy_within(from..from + count, n);
        self.len = n + count;
        Ok(())
    }

    // Takes the last element off, if there is one.
    pub fn pop(&mut self) -> Option<T>
        ensures last { result ≡ slice_get (contents self.old) (length (contents self.old) - 1) }
        ensures holds { contents self.new ≡ take (length (contents self.old) - 1) (contents self.old) }
        ensures room { room self.new ≡ room self.old }
        ensures memory { SameMemory self.old self.new }
    {
        let last = self.last()?;
        self.len = self.len() - 1;
        Some(last)
    }

    // Puts another element at a place that is held.
    pub fn put(&mut self, i: usize, x: T)
        ensures holds { contents self.new ≡ slice_set (contents self.old) i x }
        ensures room { room self.new ≡ room self.old }
        ensures memory { SameMemory self.old self.new }
    {
        if i < self.len() {
            self.items[i] = x;
        }
    }

    pub fn clear(&mut self)
        ensures empty { contents self.new ≡ [] }
        ensures room { room self.new ≡ room self.old }
        ensures memory { SameMemory self.old self.new }
    {
        self.len = 0;
    }
}
