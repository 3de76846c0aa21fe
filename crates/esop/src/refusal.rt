// Refusals: why a request is not met.
ghost use Rattle.std.specs.Prelude.{◌≡◌, ℕ};

// A type of reasons, each of which has a number, under which it is reported.
pub trait Refusal: Copy {
    ghost number: { Self → ℕ };

    fn number(self) -> u8
        ensures { result ≡ number self };
}
