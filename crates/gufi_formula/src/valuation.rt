//! The truth of tests.
ghost use Rattle.std.specs.Prelude.{◌≡◌, Bool};

/// What gives each test a truth, as a row does.
pub trait Valuation<T> {
    ghost truth: { Self → T → Bool };

    fn is_true(&self, test: &T) -> bool
        ensures { result ≡ truth self.now test.now };
}
