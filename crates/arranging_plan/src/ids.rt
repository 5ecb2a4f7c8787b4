// Which streams of a kind there are: at most 4, each under an id.
ghost use Rattle.std.specs.Prelude.{◌≡◌, ◌≤◌, ◌<◌};
ghost use Rattle.arranging_plan.specs.Ids.{no_ids, place_of, sound_ids, made_at};

#[derive(Clone, Copy)]
pub struct StreamIds {
    pub made: usize,
    // The ids of those made, in the first places.
    pub ids: [u8; 4],
}

impl StreamIds {
    pub fn none() -> StreamIds
        ensures { result ≡ no_ids }
    {
        StreamIds {
            made: 0,
            ids: [0u8; 4],
        }
    }

    // The place of a stream, or how many are made: there it would be made, so a caller needs the number and no Option. For the
    // crates above: requires at most 4.
    pub fn place(self, id: u8) -> usize
        requires { self.made ≤ 4 }
        ensures { result ≡ place_of self id }
    {
        self.ids[..self.made]
            .iter()
            .position(|own| *own == id)
            .unwrap_or(self.made)
    }

    // Not 13.
    pub fn sound(self) -> bool
        ensures { result ≡ sound_ids self }
    {
        if 4 < self.made {
            return false;
        }
        for (i, id) in self.ids[..self.made].iter().enumerate() {
            if self.place(*id) != i {
                return false;
            }
        }
        true
    }

    // The stream at place j has the id. For the crates above: requires a place of the 4.
    pub fn with(self, j: usize, id: u8) -> StreamIds
        requires { (j < 4) × (self.made ≤ 4) }
        ensures { result ≡ made_at self j id }
    {
        let mut next = self;
        next.ids[j] = id;
        if j == self.made {
            next.made = self.made + 1;
        }
        next
    }
}
