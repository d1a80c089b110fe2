// Calls by names.
ghost use Rattle.std.specs.Prelude.{◌≡◌};

use std::marker::Model;
use vale_base::{Kind, Text};

/// A value, by names. Name n is the n-th object that was made.
#[derive(Drop)]
pub enum Named {
    /// A number.
    Int(i64),
    /// A truth.
    Truth(bool),
    /// A text.
    Text(Text),
    /// The owner of an object.
    Own(usize),
    /// A reference to an object.
    Ref(usize),
    /// The isolate with this root.
    Iso(usize),
}

/// A list of values.
#[derive(Drop)]
pub struct Values {
    values: Vec<Named>,
}

impl Model for Values {
    ghost use Rattle.std.specs.Prelude.{List};
    ghost use Rattle.vale_heap_calls.specs.declared.call.Named.{Named};

    ghost Value = { List Named };

    ghost view = { λ v. v.values.items };
}

impl Values {
    /// The values of a list.
    pub fn from_vec(values: Vec<Named>) -> Self
        ensures { result ≡ values.items }
    {
        Values { values }
    }

    /// The values.
    pub fn as_slice(&self) -> &[Named]
        ensures { result.now ≡ self.now }
    {
        &self.values
    }

    /// The list of the values.
    pub fn into_vec(self) -> Vec<Named>
        ensures { result.items ≡ self }
    {
        self.values
    }
}

/// A call of a heap.
#[derive(Drop)]
pub enum Call {
    /// Makes an object, which gets the next name.
    Make(Kind, Values),
    /// Looks at an object.
    Look(usize),
    /// Gives an object other values.
    Change(usize, Values),
    /// Ends an object.
    End(usize),
    /// Opens a region.
    FreezeIn,
    /// Closes the innermost region, which joins the one around it.
    FreezeMerge,
    /// Closes the innermost region, which becomes an isolate with this root.
    FreezeKeep(usize),
    /// Closes the innermost region, whose objects die.
    FreezeClear,
    /// Joins an isolate to the innermost region.
    Merge(usize),
}

/// What a call answers.
#[derive(Drop)]
pub enum Reply {
    /// The object was made.
    Made,
    /// No page was free for the object.
    NoPage,
    /// The object is alive, or was as it ended, and has this kind.
    Alive(Kind),
    /// The object is dead.
    Dead,
    /// The call was done.
    Done,
}
