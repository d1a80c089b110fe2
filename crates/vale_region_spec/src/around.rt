// What the rules of freezes ask of where a part stands.
ghost use Rattle.std.specs.Prelude.{◌≡◌};

/// What stands round a part of a body.
#[derive(Clone, Copy, Debug, PartialEq, Eq)]
pub struct Around {
    /// Its function gives an `&X`.
    pub gives_ref: bool,
    /// A `pure`, `iso` or parallel block of its function stands round it.
    pub is_inside: bool,
}

impl Around {
    ghost use Rattle.vale_region_spec.specs.Regions.{inside};

    /// The same inside a `pure`, `iso` or parallel block.
    pub fn inside(self) -> Self
        ensures { result ≡ inside self }
    {
        Around {
            gives_ref: self.gives_ref,
            is_inside: true,
        }
    }
}
