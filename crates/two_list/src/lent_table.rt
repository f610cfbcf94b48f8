// A table that a caller lends, and that is filled from its first place on.
ghost use Rattle.std.specs.Prelude.{◌≤◌};
ghost use Rattle.two_list.specs.Tables.{usable};

/// A lent table. Its first so many places are filled.
#[derive(Drop)]
pub(super) struct LentTable<'a, A> {
    places: &'a mut [A],
    filled: u16,
    ghost fits: { filled ≤ usable places.now },
}

impl<'a, A: Copy> LentTable<'a, A> {
    ghost use Rattle.std.specs.Prelude.{◌≡◌, ◌+◌, ◌<◌, set, slice_index_or};
    ghost use Rattle.two_list.specs.Filling.{free};

    pub(super) fn new(places: &'a mut [A]) -> Self
        ensures lent { result.places.now ≡ places.old }
        ensures none { result.filled ≡ 0 }
    {
        LentTable { places, filled: 0 }
    }

    pub(super) fn filled(&self) -> u16
        ensures { result ≡ self.now.filled }
    {
        self.filled
    }

    /// How many places more can be filled.
    pub(super) fn free(&self) -> u16
        ensures { result ≡ free self.now }
    {
        self.places.len().min(65000) as u16 - self.filled
    }

    pub(super) fn get(&self, place: u16) -> A
        requires { place < self.now.filled }
        ensures { result ≡ slice_index_or self.now.places.now place result }
    {
        self.places[place as usize]
    }

    /// Fills the first free place, and answers it.
    pub(super) fn push(&mut self, x: A) -> u16
        requires { 0 < free self.old }
        ensures place { result ≡ self.old.filled }
        ensures places { self.new.places.now ≡ set self.old.places.now self.old.filled x }
        ensures filled { self.new.filled ≡ self.old.filled + 1 }
    {
        let place = self.filled;
        self.places[place as usize] = x;
        self.filled += 1;
        place
    }
}
