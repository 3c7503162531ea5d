// The reading place, and the guard that puts it back.
ghost use Rattle.std.specs.Prelude.{◌≡◌};

// Where in the caller's bytes reading stands.
#[derive(Clone, Copy, Debug, PartialEq, Eq)]
pub struct Place {
    pub at: usize,
}

// A try under way: its end puts the place to `back`, which is the lead byte's place until the try is accepted.
pub struct Attempt<'a> {
    pub place: &'a mut Place,
    pub back: usize,
}

impl Attempt<'_> {
    // A try that begins at the place.
    pub fn begin(place: &mut Place) -> Attempt<'_>
        ensures place { result.place.now ≡ place.old }
        ensures held { result.place.ghost_name ≡ place.entry.ghost_name }
        ensures back { result.back ≡ place.old.at }
    {
        let back = place.at;
        Attempt { place, back }
    }
}

impl Drop for Attempt<'_> {
    fn drop(self)
        ensures { self.exit.0.now.at ≡ self.entry.back }
    {
        self.place.at = self.back;
        let Attempt { place: _, back: _ } = self;
    }
}
