// What an update asks of `future`, by value.
ghost use Rattle.std.specs.Prelude.{◌≡◌};
ghost use Rattle.units.specs.Change.{set_future};

// What an update does to `future`.
#[derive(Clone, Copy, Debug, PartialEq, Eq)]
pub enum SetFuture {
    Keep,
    Now,
    Future,
}

impl SetFuture {
    pub fn apply(self, future: bool) -> bool
        ensures { result ≡ set_future self future }
    {
        match self {
            SetFuture::Keep => future,
            SetFuture::Now => false,
            SetFuture::Future => true,
        }
    }
}
