// What a part gives.
ghost use Rattle.std.specs.Prelude.{◌≡◌};
ghost use Rattle.vale_core.specs.View.{view_ty};
ghost use Rattle.vale_lowering_objects.specs.Scopes.{gives_of, is_value, is_owner, agree};
ghost use Rattle.vale_lower_flow.specs.Kept.{view_gives};

use vale_core::Ty;

/// Nothing; a value that is no owner and no isolate; an owner or an isolate.
#[derive(Clone, Copy)]
pub enum Gives {
    Void,
    Copied,
    Owned,
}

impl Gives {
    /// What a part of this type gives.
    pub fn of(ty: &Ty) -> Self
        ensures { view_gives result ≡ gives_of (view_ty ty.now) }
    {
        if ty.is_void() {
            return Gives::Void;
        }
        if ty.is_owned() {
            Gives::Owned
        } else {
            Gives::Copied
        }
    }

    /// Whether there is a value.
    pub fn is_value(self) -> bool
        ensures { result ≡ is_value (view_gives self) }
    {
        match self {
            Gives::Void => false,
            Gives::Copied | Gives::Owned => true,
        }
    }

    pub fn is_owner(self) -> bool
        ensures { result ≡ is_owner (view_gives self) }
    {
        match self {
            Gives::Owned => true,
            Gives::Void | Gives::Copied => false,
        }
    }

    /// Whether the two are the same.
    pub fn agrees(self, other: Gives) -> bool
        ensures { result ≡ agree (view_gives self) (view_gives other) }
    {
        match self {
            Gives::Void => match other {
                Gives::Void => true,
                Gives::Copied | Gives::Owned => false,
            },
            Gives::Copied => match other {
                Gives::Copied => true,
                Gives::Void | Gives::Owned => false,
            },
            Gives::Owned => match other {
                Gives::Owned => true,
                Gives::Void | Gives::Copied => false,
            },
        }
    }
}
